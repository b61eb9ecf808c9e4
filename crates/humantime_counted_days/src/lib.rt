//! A body of `day_number` that adds up years and months one by one, as the definition does.
//!
//! It meets the contract of `day_number`, since it counts no iteration. One that counts each meets
//! all but the clause `cost`, as a wrong body in `must-fail` shows.
#![tactic(auto)]

ghost use Rattle.std.specs.Prelude.{◌≡◌, ◌↔◌, IfSome, IsSome};
ghost use Rattle.humantime.specs.Calendar.{days_in_month, days_in_year};
ghost use Rattle.humantime.specs.Prelude.{IsDate, day_of};

use humantime::{Date, Turns};

/// Returns the number of days in a year.
fn year_length(year: u32) -> u32
    ensures { result ≡ days_in_year year }
{
    if year % 4 == 0 && (year % 100 != 0 || year % 400 == 0) {
        366
    } else {
        365
    }
}

/// Returns the number of days in a month.
fn month_length(year: u32, month: u32) -> u32
    ensures { result ≡ days_in_month year month }
{
    match month {
        2 => year_length(year) - 337,
        4 | 6 | 9 | 11 => 30,
        _ => 31,
    }
}

/// Returns the number of days from 1970-01-01 to `date`, or `None` if the date does not exist in
/// 1970 to 9999, as [`humantime::day_number`] does.
#[tactic(auto, using(crate::proofs::CountedDays::counted))]
pub fn counted_day(date: Date, turns: &mut Turns) -> Option<u32>
    ensures valid { IsSome result ↔ IsDate date }
    ensures day { IfSome result (λ n. n ≡ day_of date) }
    ensures cost { turns.new ≡ turns.old }
{
    let _ = turns;
    if date.year < 1970 || date.year > 9999 || date.month < 1 || date.month > 12 {
        return None;
    }
    if date.day < 1 || date.day > month_length(date.year, date.month) {
        return None;
    }
    let mut days = date.day - 1;
    for year in 1970..date.year {
        days += year_length(year);
    }
    for month in 1..date.month {
        days += month_length(date.year, month);
    }
    Some(days)
}
