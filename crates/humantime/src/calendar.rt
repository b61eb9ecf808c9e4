//! Converts between dates from 1970 to 9999 and numbers of days since 1970-01-01, and counts
//! iterations with [`Turns`].

ghost use Rattle.std.specs.Prelude.{◌≡◌, ◌+◌, ◌-◌, ◌<◌, ◌≤◌, ◌↔◌, IsSome, IfSome, MatchOption};
ghost use Rattle.std.specs.Int.{IsInRange};
ghost use Rattle.humantime.specs.Calendar.{days_in_year, days_in_month, days_of_years, days_of_months, IsDate, day_of};
ghost use Rattle.humantime.specs.TimestampResults;
ghost use Rattle.humantime.specs.TimestampResults.{march_days};

use std::marker::Model;
use std::mem;
use std::snapshot::Snapshot;

/// The number of days from 1970-01-01 to 9999-12-31.
const LAST_DAY: u32 = 2_932_896;

/// The number of days before each month in a common year, starting with January.
const DAYS_BEFORE_MONTH: [u32; 12] = [0, 31, 59, 90, 120, 151, 181, 212, 243, 273, 304, 334];

/// The number of days in each month of a common year, starting with January.
const MONTH_LENGTHS: [u32; 12] = [31, 28, 31, 30, 31, 30, 31, 31, 30, 31, 30, 31];

/// For each month, starting with March: the number of days from 1 March to its first day.
const DAYS_BEFORE_MARCH_MONTH: [u32; 12] = [0, 31, 61, 92, 122, 153, 184, 214, 245, 275, 306, 337];

/// The number of days from 1970-01-01 to 2000-03-01, on which a cycle of 400 years begins.
const MARCH_2000: u32 = 11_017;

/// The number of days in 400 years.
const DAYS_PER_400_YEARS: u32 = 146_097;

/// The number of days in 100 years from 1 March on that do not end with a leap day.
const DAYS_PER_100_YEARS: u32 = 36_524;

/// The number of days in four years from 1 March on that end with a leap day.
const DAYS_PER_4_YEARS: u32 = 1_461;

/// The number of days in a common year.
const DAYS_PER_YEAR: u32 = 365;

/// A count as a unary number: `Start` is 0, and `Next` adds 1. `Next` holds a snapshot of the
/// previous count, which is the field `chain` of [`Turns`], itself a snapshot. Snapshots take no
/// bytes.
#[derive(Drop)]
enum Chain {
    Start,
    Next(Snapshot<Snapshot<Chain>>),
}

/// A count of loop iterations, which starts at 0 and has no upper bound.
///
/// Only contracts see it: at run time it takes no bytes, and counting costs nothing. The loop of
/// [`date_of_day`](crate::date_of_day) counts each of its iterations here, so a contract can state
/// how many a call takes.
///
/// # Examples
///
/// ```
/// use humantime::{Turns, date_of_day};
/// use std::mem;
///
/// let mut turns = Turns::new();
/// assert!(rt; date_of_day(11016, &mut turns).is_some());
/// assert_eq!(rt; mem::size_of::<Turns>(), 0);
/// ```
#[derive(Drop)]
pub struct Turns {
    chain: Snapshot<Chain>,
}

const _: () = prove!(mem::size_of::<Turns>() == 0);

impl Model for Turns {
    ghost use Rattle.std.specs.Prelude.{ℕ};

    ghost Value = { ℕ };

    ghost use Rattle.humantime.specs.Calendar.{turns_of};

    ghost view = { λ t. turns_of t.chain.value };
}

impl Turns {
    /// Creates a count of 0, as in `day_number(date, &mut Turns::new())`.
    ///
    /// # Examples
    ///
    /// ```
    /// use humantime::{Date, Turns, date_of_day};
    ///
    /// let first = date_of_day(0, &mut Turns::new());
    /// assert_eq!(rt; first, Some(Date { year: 1970, month: 1, day: 1 }));
    /// ```
    pub fn new() -> Turns
        ensures { result ≡ 0 }
    {
        let chain = Snapshot::of(&Chain::Start);
        Turns { chain }
    }

    /// Counts one iteration.
    fn tick(&mut self)
        ensures { self.new ≡ self.old + 1 }
    {
        self.chain = Snapshot::of(&Chain::Next(Snapshot::of(&self.chain)));
    }
}

/// A date: a year, a month from 1 (January) to 12, and a day of the month from 1.
///
/// The fields may hold any numbers. [`day_number`] returns `None` for a date that does not exist in
/// 1970 to 9999.
///
/// # Examples
///
/// ```
/// use humantime::{Date, Turns, day_number};
///
/// let leap_day = Date { year: 2000, month: 2, day: 29 };
/// let no_date = Date { year: 2100, month: 2, day: 29 };
/// let mut turns = Turns::new();
/// assert!(rt; day_number(leap_day, &mut turns).is_some());
/// assert!(rt; day_number(no_date, &mut turns).is_none());
/// ```
#[derive(Clone, Copy, PartialEq, Eq, Debug)]
pub struct Date {
    /// The year, from 1970 to 9999 in a date that exists.
    pub year: u32,
    /// The month, from 1 (January) to 12 in a date that exists.
    pub month: u32,
    /// The day of the month, starting at 1.
    pub day: u32,
}

/// Returns the number of days from 1970-01-01 to the first day of `year`, which is 1970 to 9999.
#[inline(always)]
#[tactic(auto, using(crate::proofs::Dates::days_of_years_closed))]
fn days_before_year(year: u32) -> u32
    requires { IsInRange 1970 9999 year }
    ensures { result ≡ days_of_years (year - 1970) }
{
    // `(year - 1969) / 4` is the number of multiples of 4 from 1970 to `year - 1`, because 1968 is
    // one. Likewise 1900 of 100, and 1600 of 400.
    365 * (year - 1970) + (year - 1969) / 4 - (year - 1901) / 100 + (year - 1601) / 400
}

/// Returns 1 in a leap year and 0 in any other.
#[inline(always)]
fn leap_days(year: u32) -> u32
    ensures { result + 365 ≡ days_in_year year }
{
    (year % 4 == 0 && (year % 100 != 0 || year % 400 == 0)) as u32
}

/// Returns the number of days in a month, 28 to 31.
#[inline(always)]
fn month_length(year: u32, month: u32) -> u32
    requires { IsInRange 1 12 month }
    ensures { result ≡ days_in_month year month }
{
    let length = MONTH_LENGTHS[month as usize - 1];
    if month == 2 {
        length + leap_days(year)
    } else {
        length
    }
}

/// Returns the number of days from the first day of `year` to the first day of `month`.
#[inline(always)]
#[tactic(auto, using(crate::proofs::Dates::days_in_table))]
fn days_before_month(year: u32, month: u32) -> u32
    requires { IsInRange 1 12 month }
    ensures { result ≡ days_of_months year (month - 1) }
{
    let days = DAYS_BEFORE_MONTH[month as usize - 1];
    if month > 2 {
        days + leap_days(year)
    } else {
        days
    }
}

/// Returns the number of days from 1970-01-01 to `date`, or `None` if the date does not exist in
/// 1970 to 9999.
///
/// A formula counts the leap days before the year, and a table contains the days before each month.
/// There is no loop, so `turns` is unchanged.
///
/// # Examples
///
/// ```
/// use humantime::{Date, Turns, day_number};
///
/// let mut turns = Turns::new();
/// let leap_day = Date { year: 2000, month: 2, day: 29 };
/// assert_eq!(rt; day_number(leap_day, &mut turns), Some(11016));
/// let no_date = Date { year: 1970, month: 2, day: 30 };
/// assert_eq!(rt; day_number(no_date, &mut turns), None);
/// ```
#[inline(always)]
#[tactic(auto, using(crate::proofs::Dates::days_counted))]
pub fn day_number(date: Date, turns: &mut Turns) -> Option<u32>
    ensures valid { IsSome result ↔ IsDate date }
    ensures day { IfSome result (λ n. n ≡ day_of date) }
    ensures cost { turns.new ≡ turns.old }
{
    // There is no loop, so nothing is counted.
    let _ = turns;
    if date.year < 1970 || date.year > 9999 || date.month < 1 || date.month > 12 {
        return None;
    }
    if date.day < 1 || date.day > month_length(date.year, date.month) {
        return None;
    }
    let days = days_before_year(date.year) + days_before_month(date.year, date.month);
    Some(days + date.day - 1)
}

/// Splits a day, counted from 1970-01-01, into the number of years from 1600-03-01 (below 8400) and
/// the zero-based index of the day in its year (below 366). Years begin on 1 March here, so that a
/// leap day is the last day of its year. 1600-03-01 is 135,080 days before 1970-01-01.
///
/// The last century of a cycle of 400 years, and the last year of a cycle of four, have an extra
/// day. On it the quotient would be 4, so both quotients are capped at 3.
#[inline(always)]
fn march_year(day: u32) -> (u32, u32)
    requires { day ≤ 2_932_896 }
    ensures year { result.0 ≡ TimestampResults.march_year (day + 135_080) }
    ensures day { march_days result.0 + result.1 ≡ day + 135_080 }
{
    // Counted from 1600-03-01, 400 years before 2000-03-01, so that the subtraction does not
    // underflow.
    let from = day + DAYS_PER_400_YEARS - MARCH_2000;
    let cycles = from / DAYS_PER_400_YEARS;
    let in_cycle = from % DAYS_PER_400_YEARS;
    let centuries = (in_cycle / DAYS_PER_100_YEARS).min(3);
    let in_century = in_cycle - centuries * DAYS_PER_100_YEARS;
    let fours = in_century / DAYS_PER_4_YEARS;
    let in_four = in_century % DAYS_PER_4_YEARS;
    let years = (in_four / DAYS_PER_YEAR).min(3);
    let year = 400 * cycles + 100 * centuries + 4 * fours + years;
    (year, in_four - years * DAYS_PER_YEAR)
}

/// Returns the date `day` days after 1970-01-01, or `None` if `day` is above 2932896 (9999-12-31).
///
/// Divisions by the number of days in 400, 100, 4 and 1 years find the year, and a loop over 12
/// months from March on finds the month. Each iteration adds 1 to `turns`, which grows by 12 for a
/// date and stays unchanged for `None`.
///
/// # Examples
///
/// ```
/// use humantime::{Date, Turns, date_of_day};
///
/// let mut turns = Turns::new();
/// let leap_day = Date { year: 2000, month: 2, day: 29 };
/// assert_eq!(rt; date_of_day(11016, &mut turns), Some(leap_day));
/// let last = Date { year: 9999, month: 12, day: 31 };
/// assert_eq!(rt; date_of_day(2_932_896, &mut turns), Some(last));
/// assert_eq!(rt; date_of_day(2_932_897, &mut turns), None);
/// ```
#[inline(always)]
#[tactic(auto, using(crate::proofs::Dates::march_months_in_table))]
pub fn date_of_day(day: u32, turns: &mut Turns) -> Option<Date>
    ensures within { IsSome result ↔ (day ≤ 2_932_896) }
    ensures date { IfSome result (λ d. IsDate d × (day_of d ≡ day)) }
    ensures cost { MatchOption result (turns.new ≡ turns.old) (λ d. turns.new ≡ turns.old + 12) }
{
    if day > LAST_DAY {
        return None;
    }
    let (year, day_of_year) = march_year(day);
    // The months that have begun by this day, March included. A loop without an exit is faster than
    // one that ends at the month.
    let mut begun = 0;
    for month in 0..12_usize {
        turns.tick();
        begun += (day_of_year >= DAYS_BEFORE_MARCH_MONTH[month]) as u32;
    }
    // Months 11 and 12 of a year from March on are January and February of the next calendar year.
    let year = 1600 + year + (begun > 10) as u32;
    let month = (begun + 1) % 12 + 1;
    let day = day_of_year - DAYS_BEFORE_MARCH_MONTH[begun as usize - 1] + 1;
    Some(Date { year, month, day })
}
