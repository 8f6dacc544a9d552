// A season day, and from day to day.
// (A struct of season and day with `Valid` and `OnDay` as ghost fields was tried and proved: the plan is as fast, a journal of closings 6 to 11% slower.)
ghost use Rattle.std.specs.Prelude.{◌≡◌, ◌+◌, ◌≤◌};
ghost use Rattle.season.specs.Calendar.{Proper};
ghost use Rattle.season.specs.Sheet.{Ranged, Valid, DayOf};
ghost use Rattle.season.specs.Carried.{growth_per_day, on_date, day_of, needs_after, OnDay};

use crate::dates::{date_after, date_of, month_days};
use crate::day::{effective_rain, slope_of};
use crate::numbers::{quotient, raised, reciprocal_of, usual_reciprocal_of};
use crate::{Date, Season, SeasonDay};

// What the roots grow, times the reciprocal of G.
fn growth_per_day(s: Season) -> u64
    requires { Ranged s }
    ensures { result ≡ growth_per_day s }
{
    s.full.saturating_sub(s.sowing) as u64 * reciprocal_of(s.initial + s.development)
}

// A season day on a date. What the roots grow comes along. The months' numbers are copied first: an index into them does not then hold the
// whole season in memory.
fn on_date(s: Season, number: u32, date: Date, growth: u64) -> SeasonDay
    requires valid { Valid s }
    requires proper { Proper s.february date }
    requires growth_value { growth ≡ growth_per_day s }
    ensures { result ≡ on_date s number date }
{
    let at = (date.month - 1) as usize;
    let length = month_days(s.february, date.month);
    let etos = s.eto;
    let rains = s.rain;
    let eto = etos[at];
    let effective = effective_rain(rains[at]);
    let slope = slope_of(s, number);
    SeasonDay {
        number,
        month: date.month,
        day: date.day,
        length,
        effective,
        left: (length - date.day).min(slope.left),
        top: eto * slope.top + 50 * slope.bottom,
        rise: eto as i32 * slope.rise,
        reciprocal: usual_reciprocal_of(100 * slope.bottom),
        rain_per_day: effective as u64 * usual_reciprocal_of(length),
        growth_per_day: growth,
    }
}

// The first day of a season.
pub fn first_day(s: Season) -> SeasonDay
    requires { Valid s }
    ensures { result ≡ day_of s 1 }
{
    let date = Date {
        month: s.month,
        day: s.first,
    };
    on_date(s, 1, date, growth_per_day(s))
}

// A season day by its number.
pub fn day_of(s: Season, number: u32) -> SeasonDay
    requires valid { Valid s }
    requires day_of { DayOf s number }
    ensures { result ≡ day_of s number }
{
    on_date(s, number, date_of(s, number), growth_per_day(s))
}

// So many days on, in the same month and stage.
pub fn further_on(s: Season, t: SeasonDay, days: u32) -> SeasonDay
    requires valid { Valid s }
    requires on_day { OnDay s t }
    requires days_le_left { days ≤ t.left }
    ensures { result ≡ day_of s (t.number + days) }
{
    SeasonDay {
        number: t.number + days,
        day: t.day + days,
        left: t.left - days,
        top: raised(t.top, t.rise, days),
        ..t
    }
}

// The day after.
pub fn next_day(s: Season, t: SeasonDay) -> SeasonDay
    requires valid { Valid s }
    requires on_day { OnDay s t }
    ensures { result ≡ day_of s (t.number + 1) }
{
    if 0 < t.left {
        return further_on(s, t, 1);
    }
    on_date(s, t.number + 1, date_after(t), t.growth_per_day)
}

// The crop needs of the `days` after t in its month and stage, in all.
pub fn need_after(s: Season, t: SeasonDay, days: u32) -> u32
    requires valid { Valid s }
    requires on_day { OnDay s t }
    requires days_le_left { days ≤ t.left }
    ensures { result ≡ needs_after s t.number days }
{
    if t.rise == 0 {
        return days * quotient(t.top, t.reciprocal);
    }
    let mut top = t.top;
    let mut sum = 0;
    for _ in 0..days {
        top = raised(top, t.rise, 1);
        sum += quotient(top, t.reciprocal);
    }
    sum
}
