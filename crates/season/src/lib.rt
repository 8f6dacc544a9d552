// A block's season (document 01): the sheet's numbers, the calendar, a day's numbers, closing a day, net and gross depths.
// Depths are points, hundredths of a millimetre.
#![tactic(auto)]

mod carried;
mod close;
mod dates;
mod day;
mod depths;
mod loss;
mod numbers;

ghost use Rattle.std.specs.Prelude.{◌≡◌, ◌+◌};
ghost use Rattle.season.specs.Sheet.{Ranged, season_days};
ghost use Rattle.season.specs.Day.{AcceptedSeason};

pub use carried::{day_of, first_day, further_on, need_after, next_day};
pub use close::close_day;
pub use dates::month_days;
pub use day::{
    crop_need, effective_rain, first_total, kc_of, rain_to, ready_on, root_depth, stage_of,
    total_on,
};
pub use depths::gross_of;
pub use loss::loss_of;

// The days of the longest season that refusal 5 lets pass.
pub const LONGEST_SEASON: usize = 275;

// The numbers of a sheet, by name: fields 1 and 2 the start, 3 to 6 the stages, 7 to 9 the crop coefficients, 10 to 21 ETo and
// 22 to 33 dependable rain by month, 34 available water A, 35 and 36 root depth Z0 and Zm, 37 depletion fraction p, 38 efficiency E,
// 39 opening depletion, 40 turns, 41 the days of February.
#[derive(Clone, Copy, Debug, PartialEq, Eq)]
pub struct Season {
    pub month: u32,
    pub first: u32,
    pub initial: u32,
    pub development: u32,
    pub middle: u32,
    pub late: u32,
    pub kcini: u32,
    pub kcmid: u32,
    pub kcend: u32,
    pub eto: [u32; 12],
    pub rain: [u32; 12],
    pub water: u32,
    pub sowing: u32,
    pub full: u32,
    pub fraction: u32,
    pub efficiency: u32,
    pub opening: u32,
    pub turns: u32,
    pub february: u32,
}

// A season that refusals 4 to 7 let pass.
#[derive(Clone, Copy, Debug, PartialEq, Eq)]
pub struct Accepted {
    pub season: Season,
    pub ghost accepted: { AcceptedSeason season },
}

// A calendar day: the month and the day of the month, each from 1.
#[derive(Clone, Copy, Debug, PartialEq, Eq)]
pub struct Date {
    pub month: u32,
    pub day: u32,
}

// Kc within one stage: `top` / `bottom` on a day, and `rise` more over the same bottom on each of the `left` days after it.
#[derive(Clone, Copy)]
struct Slope {
    top: u32,
    bottom: u32,
    rise: i32,
    left: u32,
}

// A season day as it is carried from day to day, so that neither a walk over the year nor a division is made for each: its number, its
// date, and its month's length and effective rain. Crop need is `top` / (100 × L), where half a point is in `top`; the `left` days after
// this one are of its month and its stage, and there `top` is `rise` more each day. Then the reciprocal of 100 × L; effective rain
// times the reciprocal of the month's length, and what the roots grow times the reciprocal of G.
#[derive(Clone, Copy, Debug, PartialEq, Eq)]
pub struct SeasonDay {
    pub number: u32,
    pub month: u32,
    pub day: u32,
    pub length: u32,
    pub effective: u32,
    pub left: u32,
    pub top: u32,
    pub rise: i32,
    pub reciprocal: u64,
    pub rain_per_day: u64,
    pub growth_per_day: u64,
}

// A crop coefficient in hundredths, top / bottom, not rounded.
#[derive(Clone, Copy, Debug, PartialEq, Eq)]
pub struct Kc {
    pub top: u32,
    pub bottom: u32,
}

// The stages of a season, in their order.
#[derive(Clone, Copy, Debug, PartialEq, Eq)]
pub enum Stage {
    Initial,
    Development,
    Middle,
    Late,
}

// What closing a day makes: the crop need, crop use, percolation and the new depletion.
#[derive(Clone, Copy, Debug, PartialEq, Eq)]
pub struct DayClose {
    pub need: u32,
    pub used: u32,
    pub percolated: u32,
    pub depletion: u32,
}

// A depth as the crop gets it.
#[derive(Clone, Copy, Debug, PartialEq, Eq)]
pub struct Net(pub u32);

// A depth as it is let in at the gate. Only `gross_of` makes one.
#[derive(Clone, Copy, Debug, PartialEq, Eq)]
pub struct Gross(u32);

// n.
pub fn season_days(s: Season) -> u32
    requires { Ranged s }
    ensures { result ≡ season_days s }
{
    s.initial + s.development + s.middle + s.late
}
