//! Constants, defaults, equality, order, clones, copies and hashes of the library's values.
//!
//! The contract of each function gives its result for every value. If a derive were replaced by a
//! body with another meaning, the function here would not prove.

ghost use Rattle.std.specs.Prelude.{◌≡◌, ◌-◌, ◌<◌, ◌<ℤ◌, ◌↔◌, pos, IsTrue, IsOkAnd, Some};
ghost use Rattle.std.specs.Ordering.{nat_cmp, int_cmp};
ghost use Rattle.humantime.specs.Prelude.{duration_end};

use humantime::{
    Date, Duration, DurationError, FormattedDuration, Rfc3339Timestamp, Span, StdDuration,
    SystemTime, SystemTimeError, Timestamp, TimestampError, UNIX_EPOCH,
};
use std::alloc::AllocError;
use std::cmp::Ordering;
use std::hash::{Hash, Hasher};

/// Returns the constants and the defaults: `ZERO`, `MAX`, `UNIX_EPOCH`, and the defaults of both
/// types of durations.
pub fn constants() -> (StdDuration, StdDuration, SystemTime, StdDuration, Duration)
    ensures { result ≡ (0, duration_end - 1, pos 0, 0, 0) }
{
    (
        StdDuration::ZERO,
        StdDuration::MAX,
        UNIX_EPOCH,
        StdDuration::default(),
        Duration::default(),
    )
}

/// A value of each type that has an order and can be hashed.
pub type Times = (StdDuration, SystemTime, Duration, Timestamp);

/// The results of `==`, `<`, `cmp` and `partial_cmp` for two values, in this order.
pub type Compared = (bool, bool, Ordering, Option<Ordering>);

/// Compares the values of each type.
pub fn compared(a: &Times, b: &Times) -> (Compared, Compared, Compared, Compared)
    ensures std_duration { (IsTrue result.0.0 ↔ (a.now.0 ≡ b.now.0))
        × (IsTrue result.0.1 ↔ (a.now.0 < b.now.0)) × (result.0.2 ≡ nat_cmp a.now.0 b.now.0)
        × (result.0.3 ≡ Some (nat_cmp a.now.0 b.now.0)) }
    ensures system_time { (IsTrue result.1.0 ↔ (a.now.1 ≡ b.now.1))
        × (IsTrue result.1.1 ↔ (a.now.1 <ℤ b.now.1)) × (result.1.2 ≡ int_cmp a.now.1 b.now.1)
        × (result.1.3 ≡ Some (int_cmp a.now.1 b.now.1)) }
    ensures duration { (IsTrue result.2.0 ↔ (a.now.2 ≡ b.now.2))
        × (IsTrue result.2.1 ↔ (a.now.2 < b.now.2)) × (result.2.2 ≡ nat_cmp a.now.2 b.now.2)
        × (result.2.3 ≡ Some (nat_cmp a.now.2 b.now.2)) }
    ensures timestamp { (IsTrue result.3.0 ↔ (a.now.3 ≡ b.now.3))
        × (IsTrue result.3.1 ↔ (a.now.3 <ℤ b.now.3)) × (result.3.2 ≡ int_cmp a.now.3 b.now.3)
        × (result.3.3 ≡ Some (int_cmp a.now.3 b.now.3)) }
{
    (
        (a.0 == b.0, a.0 < b.0, a.0.cmp(&b.0), a.0.partial_cmp(&b.0)),
        (a.1 == b.1, a.1 < b.1, a.1.cmp(&b.1), a.1.partial_cmp(&b.1)),
        (a.2 == b.2, a.2 < b.2, a.2.cmp(&b.2), a.2.partial_cmp(&b.2)),
        (a.3 == b.3, a.3 < b.3, a.3.cmp(&b.3), a.3.partial_cmp(&b.3)),
    )
}

/// A value of each other type whose `==` says that its fields are equal.
pub type Others = (Date, SystemTimeError, TimestampError);

pub fn is_same_other(a: &Others, b: &Others) -> bool
    ensures { IsTrue result ↔ (a.now ≡ b.now) }
{
    *a == *b
}

/// Feeds equal durations and times to two hashers, which keeps their states equal.
pub fn times_feed_alike<H: Hasher>(a: &Times, b: &Times, first: &mut H, second: &mut H)
    ensures { a.now ≡ b.now → first.old ≡ second.old → first.new ≡ second.new }
{
    a.hash(first);
    b.hash(second);
}

/// A value of each type that can be copied.
pub type Copied<'a> = (
    StdDuration,
    SystemTime,
    Duration,
    Timestamp,
    Date,
    Span<'a>,
    Rfc3339Timestamp,
    DurationError<'a>,
    TimestampError,
    SystemTimeError,
);

/// A value of each type that can be cloned.
pub type Cloned<'a> = (Copied<'a>, FormattedDuration);

/// Returns clones of all values, which are the values.
pub fn clone_of<'a>(values: &Cloned<'a>) -> Result<Cloned<'a>, AllocError>
    ensures { IsOkAnd result (λ clone. clone ≡ values.now) }
{
    values.clone()
}

/// Returns copies of all values whose types are `Copy`.
pub fn copy_of<'a>(values: &Copied<'a>) -> Copied<'a>
    ensures { result ≡ values.now }
{
    (
        values.0, values.1, values.2, values.3, values.4, values.5, values.6, values.7, values.8,
        values.9,
    )
}
