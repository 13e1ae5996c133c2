ghost use Rattle.std.specs.Prelude.{◌≡◌, ◌≤◌, ◌+◌, IfOk, IfSome, OnOk, IsErrOf, length};
ghost use Rattle.plain_editor.specs.Input.{input_limit};
ghost use Rattle.serna_outside.specs.Outside.{Consumes, IsAtEnd, Rose};

use serna_outside::{Got, Source};
use std::alloc::Global;

/// Why an input was not read.
#[derive(Clone, Copy, Debug, PartialEq, Eq)]
pub(crate) enum ReadError {
    Failed,
    NoMemory,
}

/// The most bytes that an input of the built form has.
pub(crate) const MOST: usize = 16384;

const BUFFER: usize = 4096;

/// Reads the input to its end, or until it is longer than an input of the built form may be. Each call of `read` but one gives
/// a byte.
pub(crate) fn read_input<S: Source>(alloc: Global, source: &mut S) -> Result<Vec<u8>, ReadError>
    ensures read { IfOk result (λ bytes. Consumes (S.left source.old) (S.left source.new) bytes.items) }
    ensures whole { IfOk result (λ bytes. length bytes.items ≤ input_limit → IsAtEnd (S.left source.new)) }
    ensures kept { OnOk result (S.faults source.new ≡ S.faults source.old) }
    ensures calls { IfSome (S.left source.old) (λ before. IfSome (S.left source.new) (λ after. S.calls source.new + length after ≤ S.calls source.old + length before + 1)) }
    ensures calls_in_all { S.calls source.new ≤ S.calls source.old + (input_limit + 1) }
    ensures failed { IsErrOf result ReadError.Failed → Rose (S.faults source.old) (S.faults source.new) }
{
    let mut bytes = Vec::new(alloc);
    let mut buffer = [0u8; BUFFER];
    'pieces: while bytes.len() <= MOST {
        match source.read(&mut buffer) {
            Got::Bytes(n) => {
                if bytes.extend_from_slice(&buffer[..n]).is_err() {
                    return Err(ReadError::NoMemory);
                }
            }
            Got::End => return Ok(bytes),
            Got::Failed => return Err(ReadError::Failed),
        }
    }
    Ok(bytes)
}
