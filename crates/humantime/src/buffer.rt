//! Borrows the front of a byte buffer as a `str`.

ghost use Rattle.std.specs.Prelude.{◌≡◌, ◌≤◌, length, take};
ghost use Rattle.std.specs.Str.{IsUtf8};

use std::str::from_utf8_unchecked;

/// Returns the string in the first `end` bytes of the buffer, which must be valid UTF-8.
#[inline(always)]
pub(crate) fn str_prefix(buf: &[u8], end: usize) -> &str
    requires fits { end ≤ length buf.now }
    requires utf8 { IsUtf8 (take end buf.now) }
    ensures { result.now ≡ take end buf.now }
{
    // SAFETY: the clause `utf8` requires these bytes to be valid UTF-8.
    unsafe { from_utf8_unchecked(&buf[..end]) }
}
