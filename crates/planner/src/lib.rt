// The plan of a season's remaining waterings: document 01, 'The plan'. Depths are points.
#![tactic(auto)]

ghost use Rattle.std.specs.Prelude.{◌≡◌, cond, ◌&&◌, ◌++◌, ◌+◌, ◌-◌, ◌%◌, ◌≤◌, ◌<◌, length, drop, get_or, replicate, eqb, ltb};
ghost use Rattle.season.specs.Sheet.{Valid, DayOf, longest_season};
ghost use Rattle.season.specs.Day.{rain_on};
ghost use Rattle.season.specs.Carried.{OnDay};
ghost use Rattle.planner.specs.Choices.{irrigated};
ghost use Rattle.planner.specs.Plan.{plan};
ghost use Rattle.planner.specs.Outlook.{outlook_on, days_left};
ghost use Rattle.planner.specs.Carried.{turn_in, track_from, pass_day};
ghost use Rattle.planner.specs.Answer.{sum, net_of, settles, answer_to, answer, planned_in};
ghost use Rattle.planner.specs.Bank.{outlook_left, answer_left};

use season::{Gross, Net, Season, SeasonDay};
use verdict::{Reason, Refusal};

// What a plan comes to: how many depths are above 0, their total, and the gross total.
#[derive(Clone, Copy)]
pub struct Totals {
    pub waterings: u32,
    pub net: Net,
    pub gross: Gross,
}

// What a plan starts from: the open day, the water that waits on it, and the turn days that are left. A day counts where fewer than `limit`
// of the valves are used; `used` has their numbers from the open day on, and past its end none are.
#[derive(Clone, Copy)]
struct OpenDay<'a> {
    today: u32,
    waiting: u32,
    used: &'a [u32],
    limit: u32,
}

// What planning reads of a day.
#[derive(Clone, Copy)]
struct DayOutlook {
    water: u32,
    need: u32,
    ready: u32,
    turn: bool,
}

// What the pass over the days carries: the depletion, and what it would be had the latest turn day since the last watering been filled;
// that day, and the depth that fills it. Where there is no such day, or nothing to fill on it, the two are equal.
#[derive(Clone, Copy)]
struct Track {
    depletion: u32,
    filled: u32,
    turn: u32,
    depth: u32,
}

// ---- a planned day

impl OpenDay<'_> {
    // On the open day waiting water stands in place of planned rain.
    fn water_on(self, day: u32, rain: u32) -> u32
        ensures { result ≡ cond (eqb day self.entry.today) self.entry.waiting rain }
    {
        if day == self.today {
            self.waiting
        } else {
            rain
        }
    }

    // How many valves are used on a day.
    fn used_on(self, day: u32) -> u32
        requires { self.today ≤ day }
        ensures { result ≡ get_or self.entry.used.now (day - self.entry.today) 0 }
    {
        let place = (day - self.today) as usize;
        self.used.get(place).copied().unwrap_or(0)
    }

    // Whether a turn day is left. Only a turn day's count is read.
    fn turn_on(self, turns: u32, week: u32, day: u32) -> bool
        requires { (week < 7) × (self.today ≤ day) }
        ensures { result ≡ (turn_in turns week && ltb (get_or self.entry.used.now (day - self.entry.today) 0) self.entry.limit) }
    {
        turn_in(turns, week) && self.used_on(day) < self.limit
    }
}

// What planning reads of a season day, by its planned rain and its day of the week.
fn outlook_on(s: Season, from: OpenDay, t: SeasonDay, rain: u32, week: u32) -> DayOutlook
    requires valid { Valid s }
    requires on_day { OnDay s t }
    requires today_le_number { from.today ≤ t.number }
    requires rain_value { rain ≡ rain_on s t.number }
    requires week_value { week ≡ (t.number - 1) % 7 }
    ensures { result ≡ outlook_on (outlook_left s from.entry.today from.entry.waiting from.entry.used.now from.entry.limit) t.number }
{
    let need = season::crop_need(s, t);
    let ready = season::ready_on(s, t);
    DayOutlook {
        water: from.water_on(t.number, rain),
        need,
        ready,
        turn: from.turn_on(s.turns, week, t.number),
    }
}

// The planned-day rule: the depletion at the end of a day that has `left` once its water is in. No stress, and no ceiling.
fn planned_day(left: u32, need: u32) -> u32
    requires { left + need < 4294967296 }
    ensures { result ≡ left + need }
{
    left + need
}

// Whether a season day is a turn day, by its day of the week: its number less 1, mod 7.
fn turn_in(turns: u32, week: u32) -> bool
    requires { week < 7 }
    ensures { result ≡ turn_in turns week }
{
    (turns >> week) & 1 == 1
}

fn week_after(week: u32) -> u32
    requires { week < 7 }
    ensures { result ≡ (week + 1) % 7 }
{
    if week < 6 { week + 1 } else { 0 }
}

// What is planned in a month before this day of it, where `to` is planned up to the day before: nothing before the first.
fn rain_before(day: u32, to: u32) -> u32
    ensures { result ≡ cond (eqb day 1) 0 to }
{
    if day == 1 { 0 } else { to }
}

// ---- the depths

// The track at the first day: there is nothing to fill.
fn track_from(today: u32, start: u32) -> Track
    ensures { result ≡ track_from today start }
{
    Track {
        depletion: start,
        filled: start,
        turn: today,
        depth: 0,
    }
}

// A day is passed with no watering. A turn day is the one to fill from then on: filled, it has nothing left before it uses its need.
fn pass_day(track: Track, ahead: DayOutlook, day: u32) -> Track
    requires filled_le_depletion { track.filled ≤ track.depletion }
    requires need_bound { track.depletion + ahead.need < 4294967296 }
    ensures { result ≡ pass_day track ahead day }
{
    let left = track.depletion.saturating_sub(ahead.water);
    let depletion = planned_day(left, ahead.need);
    if ahead.turn {
        return Track {
            depletion,
            filled: planned_day(0, ahead.need),
            turn: day,
            depth: left,
        };
    }
    let spared = track.filled.saturating_sub(ahead.water);
    Track {
        depletion,
        filled: planned_day(spared, ahead.need),
        ..track
    }
}

// The depths of the days from `today` on, where zeros stand at first, in one pass. Where a day fails, the latest turn day since the last
// watering is filled, and the pass goes on as if it had been all along; where the day fails then too, no choice holds it, and it is the
// error. The month's planned rain and the day of the week are carried along. The season ends where a month or a stage does, and only
// there is its end tested.
fn draw_depths(s: Season, from: OpenDay, start: u32, depths: &mut [u32]) -> Result<(), u32>
    requires valid { Valid s }
    requires day_of { DayOf s from.today }
    requires start_bound { start ≤ 120000 }
    requires depths_value { depths.old ≡ replicate (days_left s from.today) 0 }
    ensures { settles result depths.new ≡ plan (outlook_left s from.entry.today from.entry.waiting from.entry.used.now from.entry.limit) (days_left s from.entry.today) from.entry.today start }
{
    let last = season::season_days(s);
    // A struct that a call writes stays in memory: t is a copy.
    let first = season::day_of(s, from.today);
    let mut t = first;
    let mut before = season::rain_to(s, t, t.day - 1);
    let mut week = (from.today - 1) % 7;
    let mut track = track_from(from.today, start);
    loop {
        let to = season::rain_to(s, t, t.day);
        let ahead = outlook_on(s, from, t, to - before, week);
        track = pass_day(track, ahead, t.number);
        if ahead.ready < track.depletion {
            if ahead.ready < track.filled {
                return Err(t.number);
            }
            let place = (track.turn - from.today) as usize;
            depths[place] = track.depth;
            track.depletion = track.filled;
        }
        week = week_after(week);
        if 0 < t.left {
            t = season::further_on(s, t, 1);
            before = to;
            continue;
        }
        if last <= t.number {
            return Ok(());
        }
        let next = season::next_day(s, t);
        t = next;
        before = rain_before(t.day, to);
    }
}

// ---- the answer

// How many depths are above 0. (A loop: a filter's count is not compiled to wide instructions.)
fn irrigated_days(depths: &[u32]) -> u32
    requires { length depths.now ≤ longest_season }
    ensures { result ≡ irrigated depths.now }
{
    let mut days = 0;
    for depth in depths {
        if 0 < *depth {
            days += 1;
        }
    }
    days
}

// The total of the depths.
fn net_total(depths: &[u32]) -> Net
    requires { sum depths.now < 4294967296 }
    ensures { result ≡ net_of depths.now }
{
    Net(depths.iter().sum())
}

// The depths to the start of a lent buffer. What stands beyond them stays.
fn copy_depths(depths: &[u32], out: &mut [u32])
    requires { length depths.now ≤ length out.old }
    ensures { out.new ≡ depths.now ++ drop (length depths.now) out.old }
{
    out[..depths.len()].copy_from_slice(depths);
}

// The plan, drawn in `draft`, where zeros stand at first. Only a plan that is made is copied to the lent buffer.
fn answer_from(
    s: Season,
    from: OpenDay,
    depletion: u32,
    draft: &mut [u32],
    depths: &mut [u32],
) -> Result<Totals, Refusal>
    requires valid { Valid s }
    requires day_of { DayOf s from.today }
    requires depletion_bound { depletion ≤ 120000 }
    requires draft_value { draft.old ≡ replicate (days_left s from.today) 0 }
    requires today_in_bounds { days_left s from.today ≤ length depths.old }
    ensures { (planned_in result, depths.new) ≡ answer_to s.efficiency depths.old (plan (outlook_left s from.entry.today from.entry.waiting from.entry.used.now from.entry.limit) (days_left s from.entry.today) from.entry.today depletion) }
{
    if let Err(day) = draw_depths(s, from, depletion, draft) {
        return Err(Refusal {
            reason: Reason::NoChoice,
            value: day as usize,
        });
    }
    let days = irrigated_days(draft);
    let net = net_total(draft);
    let gross = season::gross_of(s.efficiency, net);
    copy_depths(draft, depths);
    Ok(Totals {
        waterings: days,
        net,
        gross,
    })
}

// The plan on the turn days that are left (document 02, T-10): a day counts where fewer than `limit` of the valves are used. `used` has their numbers from
// the open day on; past its end none are.
pub fn plan_left(
    s: Season,
    today: u32,
    depletion: u32,
    waiting: u32,
    used: &[u32],
    limit: u32,
    depths: &mut [u32],
) -> Result<Totals, Refusal>
    requires valid { Valid s }
    requires day_of { DayOf s today }
    requires depletion_bound { depletion ≤ 120000 }
    ensures { (planned_in result, depths.new) ≡ answer_left s today depletion waiting used.now limit depths.old }
{
    let count = (season::season_days(s) + 1 - today) as usize;
    if depths.len() < count {
        return Err(Refusal {
            reason: Reason::BufferShort,
            value: 0,
        });
    }
    let mut draft = [0u32; season::LONGEST_SEASON];
    let from = OpenDay {
        today,
        waiting,
        used,
        limit,
    };
    answer_from(s, from, depletion, &mut draft[..count], depths)
}

// The plan from the open day to the season's end, starting at the ledger's depletion, with the water that waits on the open day.
pub fn make_plan(
    s: Season,
    today: u32,
    depletion: u32,
    waiting: u32,
    depths: &mut [u32],
) -> Result<Totals, Refusal>
    requires valid { Valid s }
    requires day_of { DayOf s today }
    requires depletion_bound { depletion ≤ 120000 }
    ensures { (planned_in result, depths.new) ≡ answer s today depletion waiting depths.old }
{
    let none = [0u32; 1];
    plan_left(s, today, depletion, waiting, &none[..0], 1, depths)
}
