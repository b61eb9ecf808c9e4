//! [`Duration`] and [`Timestamp`], which wrap [`StdDuration`] and [`SystemTime`] to parse and print
//! them.

ghost use Rattle.std.specs.Prelude.{◌≡◌, Some};
ghost use Rattle.humantime.specs.Prelude.{IsDurationAnswer};

use crate::date::{TimestampError, format_rfc3339, parse_rfc3339_weak};
use crate::duration::{DurationError, format_duration, parse_duration};
use crate::value::{StdDuration, SystemTime};
use std::fmt;
use std::marker::Model;
use std::str::FromStr;

/// A wrapper of [`StdDuration`] that [`from_str`](Self::from_str) parses and `Display` prints, for
/// a settings field or a command-line option.
///
/// Order, equality and hashing are those of the wrapped `StdDuration`; the default is zero.
///
/// # Examples
///
/// ```
/// use humantime::{Duration, StdDuration};
///
/// let duration = Duration::from_str("12h 5min 2ns")?;
/// assert_eq!(rt; *duration.as_ref(), StdDuration::new(43_500, 2));
/// assert_eq!(rt; duration.to_string(rt.alloc())?.as_str(), "12h 5m 2ns");
/// assert!(rt; duration > Duration::default());
/// ```
#[derive(Clone, Copy, PartialEq, Eq, PartialOrd, Ord, Hash, Default, Debug)]
pub struct Duration(StdDuration);

impl Model for Duration {
    ghost use Rattle.std.specs.Prelude.{ℕ};

    ghost Value = { ℕ };

    ghost view = { λ d. d.0 };

    ghost inverse = { λ n. record { 0 = n } };
}

impl Duration {
    /// Creates a `Duration` that wraps `value`.
    ///
    /// # Examples
    ///
    /// ```
    /// use humantime::{Duration, StdDuration};
    ///
    /// let minute = Duration::new(StdDuration::from_secs(60));
    /// assert_eq!(rt; minute.to_string(rt.alloc())?.as_str(), "1m");
    /// ```
    pub fn new(value: StdDuration) -> Duration
        ensures { result ≡ value }
    {
        Duration(value)
    }

    /// Parses a duration, as [`parse_duration`] does.
    ///
    /// This is not a method of the trait `FromStr`, because the error borrows from `s`.
    ///
    /// # Errors
    ///
    /// Returns the error that [`parse_duration`] returns for `s`.
    ///
    /// # Examples
    ///
    /// ```
    /// use humantime::{Duration, DurationError, StdDuration};
    ///
    /// assert_eq!(rt; Duration::from_str("2h 37min"), Ok(Duration::new(StdDuration::from_secs(9420))));
    /// assert_eq!(rt; Duration::from_str("1foo~"), Err(DurationError::InvalidCharacter(4)));
    /// ```
    pub fn from_str(s: &str) -> Result<Duration, DurationError<'_>>
        ensures { IsDurationAnswer s.now result }
    {
        Ok(Duration(parse_duration(s)?))
    }

    /// Returns a reference to the wrapped duration.
    ///
    /// # Examples
    ///
    /// ```
    /// use humantime::{Duration, StdDuration};
    ///
    /// assert_eq!(rt; *Duration::from_str("1m")?.as_ref(), StdDuration::from_secs(60));
    /// assert_eq!(rt; *Duration::default().as_ref(), StdDuration::ZERO);
    /// ```
    pub fn as_ref(&self) -> &StdDuration
        ensures { result.now ≡ self.now }
    {
        &self.0
    }
}

impl From<StdDuration> for Duration {
    ghost from_gives = { λ value d. d ≡ value };

    fn from(value: StdDuration) -> Duration {
        Duration(value)
    }
}

impl From<Duration> for StdDuration {
    ghost from_gives = { λ d value. value ≡ d };

    fn from(duration: Duration) -> StdDuration {
        duration.0
    }
}

/// Writes the string that `Display` writes for the value that [`format_duration`] returns.
impl fmt::Display for Duration {
    ghost use Rattle.std.specs.Prelude.{Some};
    ghost use Rattle.humantime.specs.DurationResults.{duration_text};

    ghost output = { λ d. Some (duration_text d) };

    ghost styled_output = { λ d _. Some (duration_text d) };

    fn fmt<W: fmt::Write>(&self, f: &mut fmt::Formatter<W>) -> fmt::Result {
        format_duration(self.0).fmt(f)
    }
}

/// A wrapper of [`SystemTime`] that implements `FromStr` and `Display`, for a settings field or a
/// command-line option.
///
/// Order, equality and hashing are those of the wrapped `SystemTime`.
///
/// # Examples
///
/// ```
/// use humantime::{Timestamp, UNIX_EPOCH};
///
/// let timestamp: Timestamp = "2018-02-14T00:28:07Z".parse()?;
/// assert_eq!(rt; timestamp.as_ref().unix_seconds(), 1_518_568_087);
/// assert_eq!(rt; timestamp.to_string(rt.alloc())?.as_str(), "2018-02-14T00:28:07Z");
/// assert!(rt; timestamp > Timestamp::from(UNIX_EPOCH));
/// ```
#[derive(Clone, Copy, PartialEq, Eq, PartialOrd, Ord, Hash, Debug)]
pub struct Timestamp(SystemTime);

impl Model for Timestamp {
    ghost use Rattle.std.specs.Prelude.{ℤ};

    ghost Value = { ℤ };

    ghost view = { λ t. t.0 };

    ghost inverse = { λ z. record { 0 = z } };
}

impl Timestamp {
    /// Returns a reference to the wrapped time.
    ///
    /// # Examples
    ///
    /// ```
    /// use humantime::{Timestamp, UNIX_EPOCH};
    ///
    /// assert_eq!(rt; *Timestamp::from(UNIX_EPOCH).as_ref(), UNIX_EPOCH);
    /// ```
    pub fn as_ref(&self) -> &SystemTime
        ensures { result.now ≡ self.now }
    {
        &self.0
    }
}

/// Parses a timestamp in the weak format, as [`parse_rfc3339_weak`] does, with the same errors.
///
/// # Examples
///
/// ```
/// use humantime::{Timestamp, TimestampError, UNIX_EPOCH};
///
/// assert_eq!(rt; "1970-01-01 00:00:00".parse::<Timestamp>(), Ok(Timestamp::from(UNIX_EPOCH)));
/// assert_eq!(rt; "1970-02-30T00:00:00Z".parse::<Timestamp>(), Err(TimestampError::OutOfRange));
/// ```
impl FromStr for Timestamp {
    ghost use Rattle.humantime.specs.TimestampResults.{IsWeakAnswer};

    type Err = TimestampError;

    ghost from_str_gives = { IsWeakAnswer };

    fn from_str(s: &str) -> Result<Timestamp, TimestampError> {
        Ok(Timestamp(parse_rfc3339_weak(s)?))
    }
}

impl From<SystemTime> for Timestamp {
    ghost from_gives = { λ time t. t ≡ time };

    fn from(time: SystemTime) -> Timestamp {
        Timestamp(time)
    }
}

impl From<Timestamp> for SystemTime {
    ghost from_gives = { λ t time. time ≡ t };

    fn from(timestamp: Timestamp) -> SystemTime {
        timestamp.0
    }
}

/// Writes the string that `Display` writes for the value that [`format_rfc3339`] returns.
///
/// For a time outside 1970 to 9999, it returns `fmt::Error` and writes nothing.
impl fmt::Display for Timestamp {
    ghost use Rattle.humantime.specs.Prelude.{DisplaysMoment, shortest_text};

    ghost output = { shortest_text };

    ghost styled_output = { λ t _. shortest_text t };

    fn fmt<W: fmt::Write>(&self, f: &mut fmt::Formatter<W>) -> fmt::Result
        ensures { DisplaysMoment W.write_str_gives f.old result self.now
            (shortest_text self.now) f.new }
    {
        format_rfc3339(self.0).fmt(f)
    }
}
