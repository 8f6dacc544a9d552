// Document 01, 'A day's numbers'.
ghost use Rattle.std.specs.Prelude.{◌≡◌, ◌≤◌};
ghost use Rattle.season.specs.Sheet.{Ranged, Valid, DayOf};
ghost use Rattle.season.specs.Rules.{effective_rain, rain_to};
ghost use Rattle.season.specs.Carried.{constant, sloping, slope_of, OnDay};
ghost use Rattle.season.specs.Day.{stage_of, kc_of, crop_need, root_on, total_on, ready_on};

use crate::numbers::{quotient, raised};
use crate::{Kc, Season, SeasonDay, Slope, Stage, season_days};

// Day k of a stage of L days with one coefficient.
fn constant_on(kc: u32, days: u32, day: u32) -> Slope
    requires { day ≤ days }
    ensures { result ≡ constant kc days day }
{
    Slope {
        top: kc,
        bottom: 1,
        rise: 0,
        left: days - day,
    }
}

// Day k of a stage of L days that goes from Kp to Kn: Kp × L + k × (Kn − Kp), over L.
fn sloping_on(before: u32, after: u32, days: u32, day: u32) -> Slope
    requires { (before ≤ 200) × (after ≤ 200) × (days ≤ 200) × (day ≤ days) }
    ensures { result ≡ sloping before after days day }
{
    let rise = after as i32 - before as i32;
    Slope {
        top: raised(before * days, rise, day),
        bottom: days,
        rise,
        left: days - day,
    }
}

pub fn stage_of(s: Season, day: u32) -> Stage
    requires { Ranged s }
    ensures { result ≡ stage_of s day }
{
    let sown = s.initial;
    let grown = sown + s.development;
    if day <= sown {
        return Stage::Initial;
    }
    if day <= grown {
        return Stage::Development;
    }
    if day <= grown + s.middle {
        return Stage::Middle;
    }
    Stage::Late
}

// The slope on a day. Past the season there is no stage, and no day to go on to.
pub fn slope_of(s: Season, day: u32) -> Slope
    requires { Ranged s }
    ensures { result ≡ slope_of s day }
{
    if season_days(s) < day {
        return constant_on(0, 0, 0);
    }
    let grown = s.initial + s.development;
    let ripe = grown + s.middle;
    match stage_of(s, day) {
        Stage::Initial => constant_on(s.kcini, s.initial, day),
        Stage::Development => sloping_on(s.kcini, s.kcmid, s.development, day - s.initial),
        Stage::Middle => constant_on(s.kcmid, s.middle, day - grown),
        Stage::Late => sloping_on(s.kcmid, s.kcend, s.late, day - ripe),
    }
}

pub fn kc_of(s: Season, day: u32) -> Kc
    requires valid { Valid s }
    requires day_of { DayOf s day }
    ensures { result ≡ kc_of s day }
{
    let slope = slope_of(s, day);
    Kc {
        top: slope.top,
        bottom: slope.bottom,
    }
}

// C of a season day.
pub fn crop_need(s: Season, t: SeasonDay) -> u32
    requires valid { Valid s }
    requires on_day { OnDay s t }
    ensures { result ≡ crop_need s t.number }
{
    quotient(t.top, t.reciprocal)
}

// T on day 1, which refusal 7 looks at. G is at least 2, so the roots have grown by one part of G.
pub fn first_total(s: Season) -> u32
    requires { Ranged s }
    ensures { result ≡ total_on s 1 }
{
    s.water * (s.sowing + s.full.saturating_sub(s.sowing) / (s.initial + s.development))
}

// Root depth Z on a season day: roots are full grown on day G.
pub fn root_depth(s: Season, t: SeasonDay) -> u32
    requires valid { Valid s }
    requires on_day { OnDay s t }
    ensures { result ≡ root_on s t.number }
{
    if s.initial + s.development <= t.number {
        return s.sowing + s.full.saturating_sub(s.sowing);
    }
    s.sowing + quotient(t.number, t.growth_per_day)
}

// T on a season day.
pub fn total_on(s: Season, t: SeasonDay) -> u32
    requires valid { Valid s }
    requires on_day { OnDay s t }
    ensures { result ≡ total_on s t.number }
{
    s.water * root_depth(s, t)
}

// R on a season day.
pub fn ready_on(s: Season, t: SeasonDay) -> u32
    requires valid { Valid s }
    requires on_day { OnDay s t }
    ensures { result ≡ ready_on s t.number }
{
    s.fraction * total_on(s, t) / 100
}

pub fn effective_rain(q: u32) -> u32
    requires { q ≤ 60000 }
    ensures { result ≡ effective_rain q }
{
    if q <= 25000 {
        q * (62500 - q) / 62500
    } else {
        12500 + q / 10
    }
}

// Of the effective rain of t's month, what is planned on its first d days.
pub fn rain_to(s: Season, t: SeasonDay, d: u32) -> u32
    requires valid { Valid s }
    requires on_day { OnDay s t }
    requires d_bound { d ≤ 31 }
    ensures { result ≡ rain_to t.effective d t.length }
{
    quotient(d, t.rain_per_day)
}
