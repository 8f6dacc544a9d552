// The calendar: the months' lengths, the date of a season day, the date after one.
ghost use Rattle.std.specs.Prelude.{◌≡◌, ◌≤◌};
ghost use Rattle.season.specs.Calendar.{month_days, month_after, date_is, next_in};
ghost use Rattle.season.specs.Sheet.{Valid, DayOf};
ghost use Rattle.season.specs.Day.{date_of};

use crate::{Date, Season, SeasonDay};

const LENGTHS: [u32; 12] = [31, 28, 31, 30, 31, 30, 31, 31, 30, 31, 30, 31];

// February's days are given; LENGTHS has the other months'.
pub fn month_days(february: u32, month: u32) -> u32
    requires { (1 ≤ month) × (month ≤ 12) }
    ensures { result ≡ month_days february month }
{
    if month == 2 {
        return february;
    }
    let at = (month - 1) as usize;
    LENGTHS[at]
}

fn month_after(month: u32) -> u32
    requires { month ≤ 12 }
    ensures { result ≡ month_after month }
{
    if month < 12 { month + 1 } else { 1 }
}

// The date of a season day: a walk over the months, until the day falls in one.
pub fn date_of(s: Season, day: u32) -> Date
    requires valid { Valid s }
    requires day_of { DayOf s day }
    ensures { result ≡ date_of s day }
{
    let february = s.february;
    let mut month = s.month;
    let mut left = s.first + (day - 1);
    let mut length = month_days(february, month);
    while length < left {
        left = left - length;
        month = month_after(month);
        length = month_days(february, month);
    }
    Date { month, day: left }
}

// The date after, by the day's own numbers.
pub fn date_after(t: SeasonDay) -> Date
    requires { t.month ≤ 12 }
    ensures { result ≡ next_in t.length (date_is t.month t.day) }
{
    if t.day < t.length {
        return Date {
            month: t.month,
            day: t.day + 1,
        };
    }
    Date {
        month: month_after(t.month),
        day: 1,
    }
}
