//! The units of time: their sizes, their words, and what one of each adds to a duration.
//!
//! A `match` on byte strings compiles to one decision tree, and one on `str` to a comparison with
//! each word in turn. The `match` over all words is split in three, by the sizes of the units,
//! because a single one has too many branches for the prover.

ghost use Rattle.std.specs.Prelude.{◌≡◌, chars, option_map};
ghost use Rattle.humantime.specs.Values.{seconds_per_day};
ghost use Rattle.humantime.specs.Durations.{scale_of_word};
ghost use Rattle.humantime.specs.PrivateFunctions.{scale_from};

pub(crate) const NANOS_PER_MICRO: u64 = 1_000;

pub(crate) const NANOS_PER_MILLI: u64 = 1_000_000;

pub(crate) const NANOS_PER_SECOND: u32 = 1_000_000_000;

pub(crate) const SECONDS_PER_MINUTE: u64 = 60;

pub(crate) const SECONDS_PER_HOUR: u64 = 3_600;

pub(crate) const SECONDS_PER_DAY: u64 = 86_400;

const SECONDS_PER_WEEK: u64 = 604_800;

/// A month of 30.44 days.
pub(crate) const SECONDS_PER_MONTH: u64 = 2_630_016;

/// A year of 365.25 days.
pub(crate) const SECONDS_PER_YEAR: u64 = 31_557_600;

/// A number of nanoseconds or seconds to add to a duration.
#[derive(Clone, Copy, Debug)]
pub(crate) enum Quantity {
    Nanos(u64),
    Seconds(u64),
}

/// The size of a unit.
#[derive(Clone, Copy, Debug)]
pub(crate) struct Scale {
    /// The size of one unit.
    pub one: Quantity,
    /// The same size as a factor for fractions: a fraction times this must be a whole number of
    /// nanoseconds or of seconds. `None` if a fraction must be zero.
    pub for_fractions: Option<Quantity>,
}

/// The scale of a unit of this size. It is a macro, because a reference to a constant expression is
/// `'static`, and a reference to the result of a function is not.
macro_rules! unit {
    // One nanosecond, which has no fractions.
    (nanosecond) => { Some(&Scale {
        one: Quantity::Nanos(1),
        for_fractions: None,
    }) };
    // A size in nanoseconds or in seconds. A fraction of either must be a whole number of
    // nanoseconds.
    (nanos $size:expr) => { Some(&Scale {
        one: Quantity::Nanos($size),
        for_fractions: Some(Quantity::Nanos($size)),
    }) };
    (seconds nanos $size:expr) => { Some(&Scale {
        one: Quantity::Seconds($size),
        for_fractions: Some(Quantity::Nanos($size * NANOS_PER_SECOND as u64)),
    }) };
    // A size in seconds. A fraction must be a whole number of seconds.
    (seconds $size:expr) => { Some(&Scale {
        one: Quantity::Seconds($size),
        for_fractions: Some(Quantity::Seconds($size)),
    }) };
}

/// Returns the scale of a unit by its word, or `None` if there is no such unit.
#[tactic(auto, using(crate::proofs::UnitWords::words_of_units))]
pub(crate) fn scale_of(word: &str) -> Option<&'static Scale>
    ensures { option_map (λ s. s.now) result ≡ scale_of_word (chars word.now) }
{
    match word.as_bytes() {
        b"nanos" | b"nsec" | b"ns" => unit!(nanosecond),
        // The last two are `µs` with U+00B5 and with U+03BC.
        b"usec" | b"us" | b"\xc2\xb5s" | b"\xce\xbcs" => unit!(nanos NANOS_PER_MICRO),
        b"millis" | b"msec" | b"ms" => unit!(nanos NANOS_PER_MILLI),
        _ => scale_from_second(word),
    }
}

/// Returns the scale of a unit of a second or more by its word, or `None` if there is no such unit.
#[tactic(auto, using(crate::proofs::UnitWords::words_of_units))]
fn scale_from_second(word: &str) -> Option<&'static Scale>
    ensures { option_map (λ s. s.now) result ≡ scale_from 1 (chars word.now) }
{
    match word.as_bytes() {
        b"seconds" | b"second" | b"secs" | b"sec" | b"s" => unit!(seconds nanos 1),
        b"minutes" | b"minute" | b"min" | b"mins" | b"m" => unit!(seconds nanos SECONDS_PER_MINUTE),
        b"hours" | b"hour" | b"hr" | b"hrs" | b"h" => unit!(seconds SECONDS_PER_HOUR),
        _ => scale_from_day(word),
    }
}

/// Returns the scale of a unit of a day or more by its word, or `None` if there is no such unit.
#[tactic(auto, using(crate::proofs::UnitWords::words_of_units))]
fn scale_from_day(word: &str) -> Option<&'static Scale>
    ensures { option_map (λ s. s.now) result ≡ scale_from seconds_per_day (chars word.now) }
{
    match word.as_bytes() {
        b"days" | b"day" | b"d" => unit!(seconds SECONDS_PER_DAY),
        b"weeks" | b"week" | b"wk" | b"wks" | b"w" => unit!(seconds SECONDS_PER_WEEK),
        b"months" | b"month" | b"M" => unit!(seconds SECONDS_PER_MONTH),
        b"years" | b"year" | b"yr" | b"yrs" | b"y" => unit!(seconds SECONDS_PER_YEAR),
        _ => None,
    }
}
