//! [`StdDuration`]: a duration with nanosecond precision.

ghost use Rattle.std.specs.Prelude.{◌≡◌, ◌==◌, ◌+◌, ◌*◌, ◌/◌, ◌%◌, ◌^◌, ◌<◌, SomeIff};
ghost use Rattle.std.proofs.Common.{rules};
ghost use Rattle.std.specs.Cmp.{partial_order_from_own_ties};
ghost use Rattle.std.specs.Cmp.Rules.{comparing};
ghost use Rattle.std.specs.Ordering.{nat_cmp, as_partial_cmp};
ghost use Rattle.humantime.specs.Values.{nanos_per_second, duration_end};

use crate::unit::NANOS_PER_SECOND;
use std::cmp::Ordering;
use std::marker::Model;

/// A length of time, in whole seconds (`u64`) and nanoseconds below 10^9.
///
/// This is the counterpart of `Duration` in `std::time`, with some of its methods. Contracts see it
/// as its total number of nanoseconds; order and equality are those of this total. The default is
/// zero.
///
/// # Examples
///
/// ```
/// use humantime::StdDuration;
///
/// let duration = StdDuration::from_micros(2_500_000);
/// assert_eq!(rt; duration.as_secs(), 2);
/// assert_eq!(rt; duration.subsec_nanos(), 500_000_000);
/// assert!(rt; duration > StdDuration::ZERO);
/// assert_eq!(rt; StdDuration::default(), StdDuration::ZERO);
/// ```
#[derive(Clone, Copy, Hash, Default, Debug)]
pub struct StdDuration {
    secs: u64,
    nanos: u32,
}

impl Model for StdDuration {
    ghost use Rattle.std.specs.Prelude.{◌≡◌, ℕ, ◌+◌, ◌*◌, ◌/◌, ◌%◌, ◌<◌};
    ghost use Rattle.std.proofs.Common.{arith};

    ghost Value = { ℕ };

    ghost view = { λ d. d.secs * 1_000_000_000 + d.nanos };

    ghost invariant = { λ d. d.nanos < 1_000_000_000 };

    ghost inverse = { λ n. record { secs = n / 1_000_000_000; nanos = n % 1_000_000_000 } };

    ghost inverse_ok = { λ a h.
        let secs : (a.secs * 1_000_000_000 + a.nanos) / 1_000_000_000 ≡ a.secs = omega arith in
        let nanos : (a.secs * 1_000_000_000 + a.nanos) % 1_000_000_000 ≡ a.nanos = omega arith in
        λ i. record { secs = secs i; nanos = nanos i } };
}

impl StdDuration {
    /// The duration of 0 seconds and 0 nanoseconds.
    ///
    /// # Examples
    ///
    /// ```
    /// use humantime::StdDuration;
    ///
    /// assert_eq!(rt; StdDuration::ZERO.as_secs(), 0);
    /// assert_eq!(rt; StdDuration::ZERO.subsec_nanos(), 0);
    /// ```
    pub const ZERO: StdDuration = StdDuration { secs: 0, nanos: 0 };

    /// The longest duration: 18446744073709551615 seconds and 999999999 nanoseconds.
    ///
    /// # Examples
    ///
    /// ```
    /// use humantime::StdDuration;
    ///
    /// assert_eq!(rt; StdDuration::MAX.as_secs(), u64::MAX);
    /// assert_eq!(rt; StdDuration::MAX.subsec_nanos(), 999_999_999);
    /// ```
    pub const MAX: StdDuration = StdDuration {
        secs: u64::MAX,
        nanos: NANOS_PER_SECOND - 1,
    };

    /// Creates a duration of `secs` seconds and `nanos` nanoseconds.
    ///
    /// If `nanos` is 10^9 or more, its whole seconds are added to `secs`. The caller must prove
    /// that the seconds do not overflow `u64`; [`checked_new`](Self::checked_new) tests this at run
    /// time.
    ///
    /// # Examples
    ///
    /// ```
    /// use humantime::StdDuration;
    ///
    /// let duration = StdDuration::new(1, 1_500_000_000);
    /// assert_eq!(rt; duration.as_secs(), 2);
    /// assert_eq!(rt; duration.subsec_nanos(), 500_000_000);
    /// ```
    pub fn new(secs: u64, nanos: u32) -> StdDuration
        requires { secs + nanos / nanos_per_second < 2 ^ 64 }
        ensures { result ≡ secs * nanos_per_second + nanos }
    {
        let secs = secs + (nanos / NANOS_PER_SECOND) as u64;
        let nanos = nanos % NANOS_PER_SECOND;
        StdDuration { secs, nanos }
    }

    /// Creates a duration of `secs` seconds and `nanos` nanoseconds, or returns `None` if its
    /// seconds overflow `u64`.
    ///
    /// If `nanos` is 10^9 or more, its whole seconds are added to `secs`.
    ///
    /// # Examples
    ///
    /// ```
    /// use humantime::StdDuration;
    ///
    /// assert_eq!(rt; StdDuration::checked_new(u64::MAX, 999_999_999), Some(StdDuration::MAX));
    /// assert_eq!(rt; StdDuration::checked_new(u64::MAX, 1_000_000_000), None);
    /// ```
    pub fn checked_new(secs: u64, nanos: u32) -> Option<StdDuration>
        ensures { SomeIff result (secs + nanos / nanos_per_second < 2 ^ 64)
            (secs * nanos_per_second + nanos) }
    {
        let secs = secs.checked_add((nanos / NANOS_PER_SECOND) as u64)?;
        let nanos = nanos % NANOS_PER_SECOND;
        Some(StdDuration { secs, nanos })
    }

    /// Creates a duration of `secs` whole seconds.
    ///
    /// # Examples
    ///
    /// ```
    /// use humantime::StdDuration;
    ///
    /// let minute = StdDuration::from_secs(60);
    /// assert_eq!(rt; minute.as_secs(), 60);
    /// assert_eq!(rt; minute.subsec_nanos(), 0);
    /// ```
    pub fn from_secs(secs: u64) -> StdDuration
        ensures { result ≡ secs * nanos_per_second }
    {
        StdDuration { secs, nanos: 0 }
    }

    /// Creates a duration of `micros` microseconds.
    ///
    /// # Examples
    ///
    /// ```
    /// use humantime::StdDuration;
    ///
    /// let duration = StdDuration::from_micros(1_000_123);
    /// assert_eq!(rt; duration.as_secs(), 1);
    /// assert_eq!(rt; duration.subsec_nanos(), 123_000);
    /// ```
    pub fn from_micros(micros: u64) -> StdDuration
        ensures { result ≡ micros * 1000 }
    {
        StdDuration::new(micros / 1_000_000, (micros % 1_000_000 * 1000) as u32)
    }

    /// Returns the number of whole seconds, without the fractional part.
    ///
    /// # Examples
    ///
    /// ```
    /// use humantime::StdDuration;
    ///
    /// assert_eq!(rt; StdDuration::from_micros(2_500_000).as_secs(), 2);
    /// ```
    pub fn as_secs(&self) -> u64
        ensures secs { result ≡ self.now / nanos_per_second }
        ensures within { self.now < duration_end }
    {
        self.secs
    }

    /// Returns the fractional part in nanoseconds, always less than 10^9.
    ///
    /// # Examples
    ///
    /// ```
    /// use humantime::StdDuration;
    ///
    /// assert_eq!(rt; StdDuration::from_micros(2_500_000).subsec_nanos(), 500_000_000);
    /// ```
    pub fn subsec_nanos(&self) -> u32
        ensures nanos { result ≡ self.now % nanos_per_second }
        ensures bound { result < nanos_per_second }
    {
        self.nanos
    }

    /// Adds two durations, or returns `None` if the sum is longer than [`MAX`](Self::MAX).
    ///
    /// # Examples
    ///
    /// ```
    /// use humantime::StdDuration;
    ///
    /// let minute = StdDuration::from_secs(60);
    /// assert_eq!(rt; minute.checked_add(minute), Some(StdDuration::from_secs(120)));
    /// assert_eq!(rt; StdDuration::MAX.checked_add(StdDuration::ZERO), Some(StdDuration::MAX));
    /// assert_eq!(rt; StdDuration::MAX.checked_add(StdDuration::new(0, 1)), None);
    /// ```
    pub fn checked_add(self, other: StdDuration) -> Option<StdDuration>
        ensures { SomeIff result (self + other < duration_end) (self + other) }
    {
        let secs = self.secs.checked_add(other.secs)?;
        StdDuration::checked_new(secs, self.nanos + other.nanos)
    }

    /// Adds `secs` seconds, or returns `None` if the whole seconds of the sum overflow `u64`.
    #[inline]
    pub(crate) fn checked_add_secs(self, secs: u64) -> Option<StdDuration>
        ensures { SomeIff result (self / nanos_per_second + secs < 2 ^ 64)
            (self + secs * nanos_per_second) }
    {
        let secs = self.secs.checked_add(secs)?;
        Some(StdDuration { secs, ..self })
    }

    /// Adds `nanos` nanoseconds. Returns `None` if `nanos + self.subsec_nanos()` or the whole
    /// seconds of the sum overflow `u64`.
    #[inline]
    pub(crate) fn checked_add_nanos(self, nanos: u64) -> Option<StdDuration>
        ensures { SomeIff result ((self % nanos_per_second + nanos < 2 ^ 64)
            × ((self + nanos) / nanos_per_second < 2 ^ 64)) (self + nanos) }
    {
        let sum = nanos.checked_add(self.nanos as u64)?;
        // A sum below a second carries nothing, and needs no division.
        if sum < NANOS_PER_SECOND as u64 {
            let nanos = sum as u32;
            return Some(StdDuration { nanos, ..self });
        }
        let secs = self.secs.checked_add(sum / NANOS_PER_SECOND as u64)?;
        let nanos = (sum % NANOS_PER_SECOND as u64) as u32;
        Some(StdDuration { secs, nanos })
    }
}

impl PartialEq for StdDuration {
    ghost eq = { ◌==◌ };

    ghost laws = { Prim.search (comparing, rules) };

    fn eq(&self, other: &StdDuration) -> bool {
        self.secs == other.secs && self.nanos == other.nanos
    }
}

impl Eq for StdDuration {
    ghost laws = { Prim.search (comparing, rules) };
}

impl Ord for StdDuration {
    ghost cmp = { nat_cmp };

    ghost total = { Prim.search (comparing, rules) };

    ghost matches_partial_cmp = { Prim.search (comparing, rules) };

    ghost matches_eq = { Prim.search (comparing, rules) };

    fn cmp(&self, other: &StdDuration) -> Ordering {
        (self.secs, self.nanos).cmp(&(other.secs, other.nanos))
    }
}

impl PartialOrd for StdDuration {
    ghost partial_cmp = { as_partial_cmp nat_cmp };

    ghost laws = { partial_order_from_own_ties (Prim.search (comparing, rules)) (Prim.search (comparing, rules)) };

    fn partial_cmp(&self, other: &StdDuration) -> Option<Ordering> {
        Some(self.cmp(other))
    }
}
