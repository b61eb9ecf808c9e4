//! Buffers after an error: what the proof of a caller knows about their bytes.

ghost use Rattle.std.specs.Prelude.{◌≡◌, chars};
ghost use Rattle.humantime.specs.Prelude.{Fault, HasFault, IsPrintable};

use humantime::{Rfc3339Timestamp, canonical};

/// Prints over the string in the buffer, which is unchanged for a time outside 1970 to 9999.
pub fn print_over(stamp: &Rfc3339Timestamp, buf: &mut [u8; 30])
    ensures { ¬ (IsPrintable stamp.now.moment) → buf.new ≡ buf.old }
{
    let _text = stamp.text(buf);
}

/// Writes the canonical string over the one in the buffer, which is unchanged if `s` is not a valid
/// duration.
pub fn canonical_over(s: &str, buf: &mut [u8; 64])
    ensures { (e : Fault) → HasFault (chars s.now) e → buf.new ≡ buf.old }
{
    let _answer = canonical(s, buf);
}
