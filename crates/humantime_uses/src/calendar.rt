//! Callers of the calendar, and of its law.

ghost use Rattle.std.specs.Prelude.{◌≡◌, ◌+◌, ◌≤◌, ◌↔◌, IfSome, IsSome, MatchOption};
ghost use Rattle.humantime.specs.declared.Date.{Date};
ghost use Rattle.humantime.specs.Prelude.{ExactlyOne, IsDate, day_of};

use humantime::laws::one_date;
use humantime::{Date, Turns, date_of_day, day_number};

/// Returns the date `days` days after a date, or `None` after 9999-12-31. Twelve turns are counted
/// for a date, and none for `None`.
pub fn days_after(date: Date, days: u32, turns: &mut Turns) -> Option<Date>
    ensures within { IsSome result ↔ (IsDate date × (day_of date + days ≤ 2_932_896)) }
    ensures later { IfSome result (λ d. IsDate d × (day_of d ≡ day_of date + days)) }
    ensures cost { MatchOption result (turns.new ≡ turns.old) (λ _. turns.new ≡ turns.old + 12) }
{
    let day = day_number(date, turns)?;
    date_of_day(day.checked_add(days)?, turns)
}

/// Returns the date of a day, which is the only one, and the turns that were counted.
pub fn only_date(day: u32) -> (Option<Date>, Turns)
    ensures one { day ≤ 2_932_896 → ExactlyOne (λ (d : Date). IsDate d × (day_of d ≡ day)) }
    ensures some { (d : Date) → IsDate d → day_of d ≡ day → IsSome result.0 }
    ensures cost { MatchOption result.0 (result.1 ≡ 0) (λ _. result.1 ≡ 12) }
{
    one_date(day);
    let mut turns = Turns::new();
    let date = date_of_day(day, &mut turns);
    (date, turns)
}
