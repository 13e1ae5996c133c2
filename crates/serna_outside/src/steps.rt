ghost use Rattle.std.specs.Prelude.{◌≡◌, ◌↔◌, ◌++◌, IsTrue, Contains, length, min, take, drop};
ghost use Rattle.serna_outside.specs.Counts.{is_to_fail};
ghost use Rattle.serna_outside.specs.MemorySource.{got_of};

use crate::Got;

/// Copies the front of `from` to the front of `into`, at most `most` bytes, and answers how many. The rest of `into`
/// stays.
pub(crate) fn copy_front(from: &[u8], into: &mut [u8], most: usize) -> usize
    ensures count { result ≡ min (min most (length into.old)) (length from.now) }
    ensures copied { into.new ≡ take result from.now ++ drop result into.old }
{
    let count = most.min(into.len()).min(from.len());
    into[..count].copy_from_slice(&from[..count]);
    count
}

/// What a read answers that gave so many bytes.
pub(crate) fn got(count: usize) -> Got
    ensures { result ≡ got_of count }
{
    if count == 0 {
        Got::End
    } else {
        Got::Bytes(count)
    }
}

/// Whether the call of this number is among those that are to fail.
pub(crate) fn fails(failing: &[u64], call: u64) -> bool
    ensures value { result ≡ is_to_fail failing.now call }
    ensures member { IsTrue result ↔ Contains failing.now call }
{
    failing.contains(&call)
}
