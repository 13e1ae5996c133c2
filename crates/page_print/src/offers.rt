//! How bytes are offered to a sink.
ghost use Rattle.std.specs.Prelude.{◌≡◌, ◌<◌, ◌≤◌, ◌+◌, ◌==◌, min, false, IsTrue, length, position};
ghost use Rattle.std.specs.List.{position_or_len};
ghost use Rattle.serna_outside.specs.Outside.{Appends, Rose};
ghost use Rattle.page_print.specs.Outside.{AppendsFront};

use serna_outside::{Put, Sink};

/// Offers a text to the sink line by line, each up to and with its LF, and what stands behind the last LF as a last piece; what the
/// sink did not take of a piece is offered again. Takes no memory. False where a write failed, which is then the last call on
/// the sink; a front of the text is written.
pub fn offer<K: Sink>(text: &str, sink: &mut K) -> bool
    ensures written { IsTrue result → Appends (K.held sink.old) (K.held sink.new) text.now }
    ensures kept { IsTrue result → K.faults sink.new ≡ K.faults sink.old }
    ensures front { AppendsFront (K.held sink.old) (K.held sink.new) text.now }
    ensures failed { result ≡ false → Rose (K.faults sink.old) (K.faults sink.new) }
    ensures unfinished { result ≡ false → K.is_finished sink.new ≡ false }
{
    offer_lines(text.as_bytes(), sink)
}

/// Offers the lines of a text.
fn offer_lines<K: Sink>(text: &[u8], sink: &mut K) -> bool
    ensures written { IsTrue result → Appends (K.held sink.old) (K.held sink.new) text.now }
    ensures kept { IsTrue result → K.faults sink.new ≡ K.faults sink.old }
    ensures front { AppendsFront (K.held sink.old) (K.held sink.new) text.now }
    ensures failed { result ≡ false → Rose (K.faults sink.old) (K.faults sink.new) }
    ensures unfinished { result ≡ false → K.is_finished sink.new ≡ false }
{
    let mut done = 0;
    'lines: while done < text.len() {
        let rest = &text[done..];
        let len = line_end(rest);
        if !offer_piece(&rest[..len], sink) {
            return false;
        }
        done += len;
    }
    true
}

/// Offers a piece, and again what the sink did not take.
fn offer_piece<K: Sink>(piece: &[u8], sink: &mut K) -> bool
    ensures written { IsTrue result → Appends (K.held sink.old) (K.held sink.new) piece.now }
    ensures kept { IsTrue result → K.faults sink.new ≡ K.faults sink.old }
    ensures front { AppendsFront (K.held sink.old) (K.held sink.new) piece.now }
    ensures failed { result ≡ false → Rose (K.faults sink.old) (K.faults sink.new) }
    ensures unfinished { result ≡ false → K.is_finished sink.new ≡ false }
{
    let mut done = 0;
    'rest: while done < piece.len() {
        match sink.write(&piece[done..]) {
            Put::Took(n) => done += n,
            Put::Failed => return false,
        }
    }
    true
}

/// The number of bytes of the first line with its LF, or of all bytes where there is none.
fn line_end(text: &[u8]) -> usize
    ensures line { result ≡ min (position_or_len (λ b. b == 10) text.now + 1) (length text.now) }
    ensures within { result ≤ length text.now }
    ensures some { 0 < length text.now → 0 < result }
{
    let len = line_len(text);
    if len < text.len() {
        len + 1
    } else {
        text.len()
    }
}

/// The number of bytes before the first LF, or of all bytes.
fn line_len(bytes: &[u8]) -> usize
    ensures { result ≡ position_or_len (λ b. b == 10) bytes.now }
{
    first_line_feed(bytes).unwrap_or(bytes.len())
}

fn first_line_feed(bytes: &[u8]) -> Option<usize>
    ensures { result ≡ position (λ b. b == 10) bytes.now }
{
    bytes.iter().position(|b| *b == b'\n')
}
