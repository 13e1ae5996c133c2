ghost use Rattle.std.specs.Prelude.{◌≤◌};

use crate::{Status, serna_alone};
use serna_kinds::Items;
use serna_outside::{Got, MemorySink, MemorySource, Put, Sink, Source, SureSource};
use std::alloc::{AllocError, Global};
use std::test::Fail;

// How a run ended, and what the sink held then.
#[derive(Debug, Drop)]
struct Ran {
    status: Status,
    held: Vec<u8>,
}

// A run with words, over a source that gives at most so many bytes a read, where these calls of the source and of the sink fail.
fn run(
    alloc: Global,
    words: &[String],
    input: &[u8],
    most: usize,
    failing_reads: &[u64],
    failing_writes: &[u64],
) -> Result<Ran, AllocError>
    requires { 1 ≤ most }
{
    let bytes = Items::from_slice(alloc, input)?;
    let reads = Items::from_slice(alloc, failing_reads)?;
    let writes = Items::from_slice(alloc, failing_writes)?;
    let mut source = MemorySource::new(bytes, reads, most);
    let mut sink = MemorySink::new(alloc, writes, 256)?;
    let status = serna_alone(alloc, words, &mut source, &mut sink);
    let held = Vec::from_slice(alloc, sink.held())?;
    Ok(Ran { status, held })
}

// A sink that takes one byte of each piece.
struct OneByte(MemorySink);

impl Sink for OneByte {
    ghost use Rattle.std.specs.Prelude.{Some};

    ghost held = { λ s. Some s.0.held };

    ghost faults = { λ s. s.0.faults };

    ghost is_finished = { λ s. s.0.finished };

    fn write(&mut self, piece: &[u8]) -> Put {
        self.0.write(&piece[..1])
    }

    fn finish(&mut self) -> bool {
        self.0.finish()
    }
}

const TWICE: &[u8] = b"!document\n(doc\n-Oak\n)doc\n!script\nshow\nshow\n";

const TYPED: &[u8] = b"!document\n(doc\n)doc\n!script\nshow\nat 1 1 0\ntype a\nwhere\nsource\n";

const TOLD: &[u8] = b"plain \nok\nok\ncaret 2 1 stale\n(doc\n-a\n)doc\n";

const CUT: &[u8] = b"!document\n(doc\n";

const REFUSED: &[u8] = b"input refused 1 NotBuilt\n";

// Inputs of documents in full, and what is written: attributes, comments, prefixes and escapes; what a document declares
// stands directly behind its outermost element's beginning in the lines that `source` writes, and a tab and LF are printed
// as a space. The last three are refused: an undeclared prefix, a character past ASCII, and a wrong escape.
const DOCUMENTS: [(&[u8], &[u8]); 6] = [
    (
        b"!document\nCnote\n(p:doc\nAid a\\n1\nAxmlns:p urn:p\n-Oak\n(b\n)b\n)p:doc\n!script\nshow\nsource\nat 1 1 3\ntype \\t\\\\\nwhere\nshow\n",
        b"plain Oak\nCnote\n(p:doc\nAxmlns:p urn:p\nAid a\\n1\n-Oak\n(b\n)b\n)p:doc\nok\nok\ncaret 3 5 stale\nplain Oak \\\n",
    ),
    (
        b"!document\n(a\n-x\\ty\n-\\\\\nCc\\n\n)a\n!script\nshow\nsource\n",
        b"plain x y\\\n(a\n-x\\ty\\\\\nCc\\n\n)a\n",
    ),
    (
        b"!document\n(a\nAxmlns u\n)a\n!script\ntype \\q\nshow\nat 1 1 0\ntype \\n\nsource\n",
        b"refused not-built\nplain \nok\nok\n(a\nAxmlns u\n-\\n\n)a\n",
    ),
    (b"!document\n(p:a\n)p:a\n!script\n", REFUSED),
    (b"!document\n(a\n-\xc3\xa9\n)a\n!script\n", REFUSED),
    (b"!document\n(a\n-\\q\n)a\n!script\n", REFUSED),
];

#[test]
fn documents_in_full(rt: HostRuntime) -> Result<(), Fail> {
    for (input, want) in DOCUMENTS {
        let ran = run(rt.alloc(), &[], input, 64, &[], &[])?;
        assert_eq!(rt; ran.held.as_slice(), want);
    }
    Ok(())
}

// Inputs with a stylesheet, and what is written: two rules, of which one puts a text in front of each `p`; no rule. The others
// are refused: a stylesheet that is cut off, one without `version`, one without a name, one whose name has a space, two
// stylesheets, and one behind the document.
const STYLED: [(&[u8], &[u8]); 8] = [
    (
        b"!style t\n(xsl:stylesheet\nAversion 1.0\nAxmlns:xsl http://www.w3.org/1999/XSL/Transform\nAxmlns:fo http://www.w3.org/1999/XSL/Format\n(xsl:template\nAmatch /\n(fo:root\n(fo:page-sequence\n(fo:flow\nAflow-name xsl-region-body\n(xsl:apply-templates\n)xsl:apply-templates\n)fo:flow\n)fo:page-sequence\n)fo:root\n)xsl:template\n(xsl:template\nAmatch p\n(fo:block\n-x:\n(xsl:apply-templates\n)xsl:apply-templates\n)fo:block\n)xsl:template\n)xsl:stylesheet\n!document\n(doc\n(p\n-Oak\n)p\n(p\n)p\n)doc\n!script\nshow\nat 1 2 2\ntype Red\nat 1 1 0\nshow\n",
        b"page 1\nline 1 0 0 x:Oak\nline 2 0 14400 x:\nok\nok\nrefused fixed\npage 1\nline 1 0 0 x:Oak\nline 2 0 14400 x:Red\n",
    ),
    (
        b"!style t\n(xsl:stylesheet\nAversion 1.0\nAxmlns:xsl http://www.w3.org/1999/XSL/Transform\n)xsl:stylesheet\n!document\n(doc\n-Oak\n)doc\n!script\nshow\nsource\n",
        b"plain Oak\n(doc\n-Oak\n)doc\n",
    ),
    (
        b"!style t\n(xsl:stylesheet\nAversion 1.0\nAxmlns:xsl http://www.w3.org/1999/XSL/Transform\n!document\n(doc\n-Oak\n)doc\n!script\nshow\nsource\n",
        REFUSED,
    ),
    (
        b"!style t\n(xsl:stylesheet\nAxmlns:xsl http://www.w3.org/1999/XSL/Transform\n)xsl:stylesheet\n!document\n(doc\n-Oak\n)doc\n!script\nshow\nsource\n",
        REFUSED,
    ),
    (
        b"!style \n(xsl:stylesheet\nAversion 1.0\nAxmlns:xsl http://www.w3.org/1999/XSL/Transform\n)xsl:stylesheet\n!document\n(doc\n-Oak\n)doc\n!script\nshow\nsource\n",
        REFUSED,
    ),
    (
        b"!style t u\n(xsl:stylesheet\nAversion 1.0\nAxmlns:xsl http://www.w3.org/1999/XSL/Transform\n)xsl:stylesheet\n!document\n(doc\n-Oak\n)doc\n!script\nshow\nsource\n",
        REFUSED,
    ),
    (
        b"!style t\n(xsl:stylesheet\nAversion 1.0\nAxmlns:xsl http://www.w3.org/1999/XSL/Transform\n)xsl:stylesheet\n!style t\n(xsl:stylesheet\nAversion 1.0\nAxmlns:xsl http://www.w3.org/1999/XSL/Transform\n)xsl:stylesheet\n!document\n(doc\n-Oak\n)doc\n!script\nshow\nsource\n",
        REFUSED,
    ),
    (
        b"!document\n(doc\n-Oak\n)doc\n!style t\n(xsl:stylesheet\nAversion 1.0\nAxmlns:xsl http://www.w3.org/1999/XSL/Transform\n)xsl:stylesheet\n!script\nshow\nsource\n",
        REFUSED,
    ),
];

#[test]
fn stylesheets(rt: HostRuntime) -> Result<(), Fail> {
    for (input, want) in STYLED {
        let ran = run(rt.alloc(), &[], input, 64, &[], &[])?;
        assert_eq!(rt; ran.held.as_slice(), want);
    }
    Ok(())
}

#[test]
fn answers(rt: HostRuntime) -> Result<(), Fail> {
    let whole = run(rt.alloc(), &[], TWICE, 64, &[], &[])?;
    assert_eq!(rt; whole.status, Status::Ok);
    assert_eq!(rt; whole.held.as_slice(), b"plain Oak\nplain Oak\n".as_slice());
    let slow = run(rt.alloc(), &[], TWICE, 1, &[], &[])?;
    assert_eq!(rt; slow.status, Status::Ok);
    assert_eq!(rt; slow.held.as_slice(), b"plain Oak\nplain Oak\n".as_slice());
    let cut = run(rt.alloc(), &[], CUT, 64, &[], &[2])?;
    assert_eq!(rt;
        cut.status,
        Status::InputRefused,
        "also where the sink can't be finished"
    );
    assert_eq!(rt; cut.held.as_slice(), REFUSED);
    Ok(())
}

#[test]
fn faults(rt: HostRuntime) -> Result<(), Fail> {
    for call in 1..4u64 {
        let ran = run(rt.alloc(), &[], TWICE, 20, &[call], &[])?;
        assert_eq!(rt; ran.status, Status::ReadFault, "at read {call}");
        assert_eq!(rt; ran.held.len(), 0);
    }
    for call in 1..4u64 {
        let ran = run(rt.alloc(), &[], TWICE, 64, &[], &[call])?;
        assert_eq!(rt;
            ran.status,
            Status::WriteFault,
            "at call {call} of the sink"
        );
        assert_eq!(rt; ran.held.len(), 10 * (call as usize - 1).min(2));
    }
    Ok(())
}

// A run, and how many calls of its source and of its sink there are.
#[derive(Clone, Copy)]
struct Calling {
    words: usize,
    input: &'static [u8],
    failing_reads: &'static [u64],
    failing_calls: &'static [u64],
    status: Status,
    finished: bool,
}

// The last number of each list is that of the first call after the run. A run makes one call of the sink for each line that is
// offered, and then `finish`, but not after a write that failed; and one of the source for each piece, and one at the end.
const CALLINGS: [Calling; 6] = [
    Calling {
        words: 0,
        input: TWICE,
        failing_reads: &[3],
        failing_calls: &[4],
        status: Status::Ok,
        finished: true,
    },
    Calling {
        words: 0,
        input: CUT,
        failing_reads: &[3],
        failing_calls: &[3],
        status: Status::InputRefused,
        finished: true,
    },
    Calling {
        words: 1,
        input: TWICE,
        failing_reads: &[1],
        failing_calls: &[3],
        status: Status::BadWords,
        finished: true,
    },
    Calling {
        words: 0,
        input: TWICE,
        failing_reads: &[1, 2],
        failing_calls: &[2],
        status: Status::ReadFault,
        finished: true,
    },
    Calling {
        words: 0,
        input: TWICE,
        failing_reads: &[3],
        failing_calls: &[2, 3],
        status: Status::WriteFault,
        finished: false,
    },
    Calling {
        words: 0,
        input: TWICE,
        failing_reads: &[3],
        failing_calls: &[3, 4],
        status: Status::WriteFault,
        finished: true,
    },
];

#[test]
fn finish_is_the_last_call(rt: HostRuntime) -> Result<(), Fail> {
    let alloc = rt.alloc();
    let mut words = Vec::new(alloc);
    words.push(String::from_str(alloc, "x")?)?;
    for row in CALLINGS {
        let bytes = Items::from_slice(alloc, row.input)?;
        let reads = Items::from_slice(alloc, row.failing_reads)?;
        let calls = Items::from_slice(alloc, row.failing_calls)?;
        let mut source = MemorySource::new(bytes, reads, 64);
        let mut sink = MemorySink::new(alloc, calls, 64)?;
        let status = serna_alone(
            alloc,
            &words.as_slice()[..row.words.min(1)],
            &mut source,
            &mut sink,
        );
        assert_eq!(rt; status, row.status);
        assert_eq!(rt; sink.is_finished(), row.finished);
        assert!(rt; !sink.finish());
        assert_eq!(rt; source.read(&mut [0]), Got::Failed);
    }
    Ok(())
}

#[test]
fn lines_are_pieces(rt: HostRuntime) -> Result<(), Fail> {
    let whole = run(rt.alloc(), &[], TYPED, 64, &[], &[])?;
    assert_eq!(rt; whole.status, Status::Ok);
    assert_eq!(rt; whole.held.as_slice(), TOLD);
    let cut = run(rt.alloc(), &[], TYPED, 64, &[], &[6])?;
    assert_eq!(rt; cut.status, Status::WriteFault);
    assert_eq!(rt;
        cut.held.as_slice(),
        b"plain \nok\nok\ncaret 2 1 stale\n(doc\n".as_slice()
    );
    Ok(())
}

#[test]
fn words(rt: HostRuntime) -> Result<(), Fail> {
    let alloc = rt.alloc();
    let mut words = Vec::new(alloc);
    words.push(String::from_str(alloc, "x")?)?;
    let refused = run(alloc, words.as_slice(), TWICE, 64, &[1], &[])?;
    assert_eq!(rt; refused.status, Status::BadWords);
    assert_eq!(rt; refused.held.as_slice(), b"words refused\n".as_slice());
    let failed = run(alloc, words.as_slice(), TWICE, 64, &[], &[1])?;
    assert_eq!(rt; failed.status, Status::WriteFault);
    assert_eq!(rt; failed.held.len(), 0);
    Ok(())
}

#[test]
fn one_byte_a_write(rt: HostRuntime) -> Result<(), Fail> {
    let alloc = rt.alloc();
    let mut source = SureSource::new(Items::from_slice(alloc, TWICE)?);
    let mut sink = OneByte(MemorySink::new(alloc, Items::new(alloc), 64)?);
    let status = serna_alone(alloc, &[], &mut source, &mut sink);
    assert_eq!(rt; status, Status::Ok);
    let OneByte(inner) = sink;
    assert_eq!(rt; inner.held(), b"plain Oak\nplain Oak\n".as_slice());
    Ok(())
}
