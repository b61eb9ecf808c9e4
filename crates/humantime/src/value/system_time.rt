//! [`SystemTime`]: a time.

ghost use Rattle.std.specs.Prelude.{◌≡◌, ℕ, ℤ, pos, ◌+◌, ◌*◌, ◌^◌, ◌<◌, ◌↔◌, ◌+ℤ◌, ◌≤ℤ◌, ◌<ℤ◌, SomeIff, IsOk, IfOk, IfErr};
ghost use Rattle.std.proofs.Common.{rules};
ghost use Rattle.std.specs.Cmp.{partial_order_from_own_ties};
ghost use Rattle.std.specs.Cmp.Rules.{comparing};
ghost use Rattle.std.specs.Ordering.{int_cmp, int_eq, as_partial_cmp};
ghost use Rattle.humantime.specs.Values.{moment, second_of, nano_of, moment_end, nanos_per_second};

use crate::unit::NANOS_PER_SECOND;
use crate::value::std_duration::StdDuration;
use std::cmp::Ordering;
use std::marker::Model;

/// 1970-01-01T00:00:00Z.
///
/// # Examples
///
/// ```
/// use humantime::UNIX_EPOCH;
///
/// assert_eq!(rt; UNIX_EPOCH.unix_seconds(), 0);
/// assert_eq!(rt; UNIX_EPOCH.subsec_nanos(), 0);
/// ```
pub const UNIX_EPOCH: SystemTime = SystemTime { secs: 0, nanos: 0 };

/// A time: seconds since 1970-01-01T00:00:00Z (`i64`), and nanoseconds below 10^9 after that
/// second.
///
/// This is the counterpart of `SystemTime` in `std::time`, with `checked_add`, `duration_since` and
/// access to its seconds and nanoseconds. Contracts see it as its number of nanoseconds since
/// 1970-01-01T00:00:00Z, which is negative before then; order and equality are those of this
/// number.
///
/// # Examples
///
/// ```
/// use humantime::{StdDuration, SystemTime, UNIX_EPOCH};
///
/// let earlier = SystemTime::from_parts(-1, 999_999_999).ok_or("too many nanoseconds")?;
/// assert!(rt; earlier < UNIX_EPOCH);
/// let later = UNIX_EPOCH.checked_add(StdDuration::from_secs(5));
/// assert_eq!(rt; later, SystemTime::from_parts(5, 0));
/// ```
#[derive(Clone, Copy, Hash, Debug)]
pub struct SystemTime {
    secs: i64,
    nanos: u32,
}

impl Model for SystemTime {
    ghost use Rattle.std.specs.Prelude.{◌≡◌, ℤ, ◌<◌};
    ghost use Rattle.humantime.specs.Values.{moment, second_of, nano_of};
    ghost use Rattle.std.proofs.Common.{arith};
    ghost use Rattle.std.proofs.lemmas.Int.{ints};

    ghost Value = { ℤ };

    ghost view = { λ t. moment t.secs t.nanos };

    ghost invariant = { λ t. t.nanos < 1_000_000_000 };

    ghost inverse = { λ z. record { secs = second_of z; nanos = nano_of z } };

    ghost inverse_ok = { λ t h.
        let secs : second_of (moment t.secs t.nanos) ≡ t.secs = Prim.grind (arith, ints) in
        let nanos : nano_of (moment t.secs t.nanos) ≡ t.nanos = Prim.grind (arith, ints) in
        λ i. record { secs = secs i; nanos = nanos i } };
}

/// The error returned by [`SystemTime::duration_since`] if `earlier` is later than the time.
///
/// It holds the duration from the time to `earlier`. Contracts see it as a number of nanoseconds,
/// and two errors are equal if these are. Unlike the error of `std::time`, it has no message: it
/// implements neither `Display` nor `Error`.
///
/// # Examples
///
/// ```
/// use humantime::{StdDuration, UNIX_EPOCH};
///
/// let five = StdDuration::from_secs(5);
/// let later = UNIX_EPOCH.checked_add(five).ok_or("out of range")?;
/// let error = UNIX_EPOCH.duration_since(later).expect_err(&rt, "not later");
/// assert_eq!(rt; error.duration(), five);
/// ```
#[derive(Clone, Copy, PartialEq, Eq, Debug)]
pub struct SystemTimeError(StdDuration);

impl Model for SystemTimeError {
    ghost use Rattle.std.specs.Prelude.{ℕ};

    ghost Value = { ℕ };

    ghost view = { λ e. e.0 };

    ghost inverse = { λ n. record { 0 = n } };
}

impl SystemTimeError {
    /// Returns the duration from the time to `earlier`.
    ///
    /// # Examples
    ///
    /// ```
    /// use humantime::{StdDuration, UNIX_EPOCH};
    ///
    /// let five = StdDuration::from_secs(5);
    /// let later = UNIX_EPOCH.checked_add(five).ok_or("out of range")?;
    /// let error = UNIX_EPOCH.duration_since(later).expect_err(&rt, "not later");
    /// assert_eq!(rt; error.duration(), five);
    /// ```
    pub fn duration(&self) -> StdDuration
        ensures { result ≡ self.now }
    {
        self.0
    }
}

impl SystemTime {
    /// Creates the time `nanos` nanoseconds after second `secs`, or returns `None` if `nanos` is
    /// 10^9 or more.
    ///
    /// Seconds are counted from 1970-01-01T00:00:00Z, and are negative before then.
    ///
    /// # Examples
    ///
    /// ```
    /// use humantime::{SystemTime, UNIX_EPOCH};
    ///
    /// assert_eq!(rt; SystemTime::from_parts(0, 0), Some(UNIX_EPOCH));
    /// assert!(rt; SystemTime::from_parts(-1, 999_999_999).is_some_and(|time| time < UNIX_EPOCH));
    /// assert_eq!(rt; SystemTime::from_parts(0, 1_000_000_000), None);
    /// ```
    pub fn from_parts(secs: i64, nanos: u32) -> Option<SystemTime>
        ensures { SomeIff result (nanos < nanos_per_second) (moment secs nanos) }
    {
        if nanos < NANOS_PER_SECOND {
            Some(SystemTime { secs, nanos })
        } else {
            None
        }
    }

    /// Returns the whole seconds since 1970-01-01T00:00:00Z, rounded down and negative before then.
    ///
    /// # Examples
    ///
    /// ```
    /// use humantime::{SystemTime, UNIX_EPOCH};
    ///
    /// assert_eq!(rt; UNIX_EPOCH.unix_seconds(), 0);
    /// let before = SystemTime::from_parts(-1, 999_999_999).ok_or("too many nanoseconds")?;
    /// assert_eq!(rt; before.unix_seconds(), -1);
    /// ```
    #[tactic(auto, using(crate::proofs::Moments::parts_of_moment))]
    pub fn unix_seconds(&self) -> i64
        ensures second { result ≡ second_of self.now }
        ensures parts { moment result (nano_of self.now) ≡ self.now }
    {
        self.secs
    }

    /// Returns the nanoseconds after the second of [`unix_seconds`](Self::unix_seconds), always
    /// less than 10^9.
    ///
    /// They count forward before 1970, too, because that second is rounded down.
    ///
    /// # Examples
    ///
    /// ```
    /// use humantime::SystemTime;
    ///
    /// let before = SystemTime::from_parts(-1, 999_999_999).ok_or("too many nanoseconds")?;
    /// assert_eq!(rt; before.subsec_nanos(), 999_999_999);
    /// ```
    #[tactic(auto, using(crate::proofs::Moments::parts_of_moment))]
    pub fn subsec_nanos(&self) -> u32
        ensures nano { result ≡ nano_of self.now }
        ensures parts { moment (second_of self.now) result ≡ self.now }
        ensures bound { result < nanos_per_second }
    {
        self.nanos
    }

    /// Adds a duration, or returns `None` if the seconds of the sum overflow `i64`.
    ///
    /// # Examples
    ///
    /// ```
    /// use humantime::{StdDuration, SystemTime, UNIX_EPOCH};
    ///
    /// let later = UNIX_EPOCH.checked_add(StdDuration::new(5, 7));
    /// assert_eq!(rt; later, SystemTime::from_parts(5, 7));
    /// let last = UNIX_EPOCH.checked_add(StdDuration::from_secs(9_223_372_036_854_775_807));
    /// assert_eq!(rt; last, SystemTime::from_parts(i64::MAX, 0));
    /// assert_eq!(rt; UNIX_EPOCH.checked_add(StdDuration::from_secs(9_223_372_036_854_775_808)), None);
    /// ```
    pub fn checked_add(self, duration: StdDuration) -> Option<SystemTime>
        ensures { SomeIff result ((self +ℤ pos duration) <ℤ moment_end) (self +ℤ pos duration) }
    {
        let nanos = self.nanos + duration.subsec_nanos();
        let carry = (nanos / NANOS_PER_SECOND) as i64;
        let secs = self.secs.checked_add_unsigned(duration.as_secs())?;
        SystemTime::from_parts(secs.checked_add(carry)?, nanos % NANOS_PER_SECOND)
    }

    /// Returns the duration from `earlier` to this time.
    ///
    /// # Errors
    ///
    /// Returns [`SystemTimeError`] if `earlier` is later than this time. The error holds the
    /// duration from this time to `earlier`.
    ///
    /// # Examples
    ///
    /// ```
    /// use humantime::{StdDuration, UNIX_EPOCH};
    ///
    /// let five = StdDuration::from_secs(5);
    /// let later = UNIX_EPOCH.checked_add(five).ok_or("out of range")?;
    /// assert_eq!(rt; later.duration_since(UNIX_EPOCH), Ok(five));
    /// assert_eq!(rt; later.duration_since(later), Ok(StdDuration::ZERO));
    /// assert!(rt; UNIX_EPOCH.duration_since(later).is_err());
    /// ```
    pub fn duration_since(&self, earlier: SystemTime) -> Result<StdDuration, SystemTimeError>
        ensures order { IsOk result ↔ (earlier ≤ℤ self.now) }
        ensures later { IfOk result (λ d. self.now ≡ earlier +ℤ pos d) }
        ensures before { IfErr result (λ e. earlier ≡ self.now +ℤ pos e) }
    {
        if earlier > *self {
            return Err(SystemTimeError(earlier.since(*self)));
        }
        Ok(self.since(earlier))
    }

    /// Creates the time `secs` seconds and `nanos` nanoseconds after 1970-01-01T00:00:00Z.
    #[inline(always)]
    pub(crate) fn after_epoch(secs: u64, nanos: u32) -> SystemTime
        requires secs { secs < 2 ^ 63 }
        requires nanos { nanos < nanos_per_second }
        ensures { result ≡ pos (secs * nanos_per_second + nanos) }
    {
        let secs = secs as i64;
        SystemTime { secs, nanos }
    }

    /// Returns the duration from `earlier`, which is not later than `self`, to `self`.
    fn since(self, earlier: SystemTime) -> StdDuration
        requires { earlier ≤ℤ self }
        ensures { self ≡ earlier +ℤ pos result }
    {
        let secs = self.secs.abs_diff(earlier.secs);
        match self.nanos.checked_sub(earlier.nanos) {
            Some(nanos) => StdDuration::new(secs, nanos),
            None => StdDuration::new(secs - 1, self.nanos + NANOS_PER_SECOND - earlier.nanos),
        }
    }
}

impl PartialEq for SystemTime {
    ghost eq = { int_eq };

    ghost laws = { Prim.search (comparing, rules) };

    #[tactic(auto, using(std::proofs::lemmas::Int::ints))]
    fn eq(&self, other: &SystemTime) -> bool {
        self.secs == other.secs && self.nanos == other.nanos
    }
}

impl Eq for SystemTime {
    ghost laws = { Prim.search (comparing, rules) };
}

impl Ord for SystemTime {
    ghost cmp = { int_cmp };

    ghost total = { Prim.search (comparing, rules) };

    ghost matches_partial_cmp = { Prim.search (comparing, rules) };

    ghost matches_eq = { Prim.search (comparing, rules) };

    #[tactic(auto, using(crate::proofs::Moments::int_cmp_moment, std::proofs::lemmas::Int::ints))]
    fn cmp(&self, other: &SystemTime) -> Ordering {
        (self.secs, self.nanos).cmp(&(other.secs, other.nanos))
    }
}

impl PartialOrd for SystemTime {
    ghost partial_cmp = { as_partial_cmp int_cmp };

    ghost laws = { partial_order_from_own_ties (Prim.search (comparing, rules)) (Prim.search (comparing, rules)) };

    fn partial_cmp(&self, other: &SystemTime) -> Option<Ordering> {
        Some(self.cmp(other))
    }
}
