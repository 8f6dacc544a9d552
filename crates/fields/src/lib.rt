// The numbers of a season (document 01): their ranges, their names, and refusals 4 to 7. Fields 10 to 33 are a climate's; the others are a block's,
// sixteen numbers, or seventeen with the days of February (document 02, T-06, T-08).
#![tactic(auto)]

ghost use Rattle.std.specs.Prelude.{◌≤◌, ◌<◌, ◌≡◌, ◌++◌, length, take, drop, MatchOption};
ghost use Rattle.fields.specs.Fields.{february_of, limits, outside, season_of, merged, block_field, block_fields};
ghost use Rattle.fields.specs.Refusals.{climate_at_fault, block_at_fault, climate_verdict, block_verdict};
ghost use Rattle.verdict.specs.Refusals.{verdict_in};
ghost use Rattle.season.specs.Calendar.{month_days};

use season::Season;
use verdict::{OrRefused, Reason, Refusal, refuse_if};

// The lowest and the highest number of a field.
#[derive(Clone, Copy)]
pub struct Limit(u32, u32);

// Of fields 10 to 33.
const CLIMATE: [Limit; 24] = [
    Limit(0, 1500),
    Limit(0, 1500),
    Limit(0, 1500),
    Limit(0, 1500),
    Limit(0, 1500),
    Limit(0, 1500),
    Limit(0, 1500),
    Limit(0, 1500),
    Limit(0, 1500),
    Limit(0, 1500),
    Limit(0, 1500),
    Limit(0, 1500),
    Limit(0, 60000),
    Limit(0, 60000),
    Limit(0, 60000),
    Limit(0, 60000),
    Limit(0, 60000),
    Limit(0, 60000),
    Limit(0, 60000),
    Limit(0, 60000),
    Limit(0, 60000),
    Limit(0, 60000),
    Limit(0, 60000),
    Limit(0, 60000),
];

// Of fields 1 to 9 and 34 to 41. Field 2's highest is the month's length, which `block_limits` puts in.
const BLOCK: [Limit; 17] = [
    Limit(1, 12),
    Limit(1, 31),
    Limit(1, 200),
    Limit(1, 200),
    Limit(1, 200),
    Limit(1, 200),
    Limit(10, 200),
    Limit(10, 200),
    Limit(10, 200),
    Limit(1, 400),
    Limit(10, 300),
    Limit(10, 300),
    Limit(5, 80),
    Limit(1, 100),
    Limit(0, 120000),
    Limit(0, 127),
    Limit(29, 29),
];

// The days of February: 29 where a block's seventeenth number says so, and else 28.
fn february_of(block: &[u32]) -> u32
    ensures { result ≡ february_of (block_fields block.now) }
{
    if block.len() <= 16 {
        return 28;
    }
    if block[16] == 29 { 29 } else { 28 }
}

// ---- refusal 4

// The length of a month. What is no month has a length too, which nothing reads: field 1 is at fault before field 2.
fn month_length(february: u32, month: u32) -> u32
    ensures { result ≡ month_days february month }
{
    if month == 0 {
        return 31;
    }
    if 12 < month {
        return 0;
    }
    season::month_days(february, month)
}

// The limits of a block's numbers, by their places.
fn block_limits(february: u32, month: u32) -> [Limit; 17]
    ensures { result ≡ take 9 (limits february month) ++ drop 33 (limits february month) }
{
    let mut by_place = BLOCK;
    by_place[1] = Limit(1, month_length(february, month));
    by_place
}

fn is_outside(limit: Limit, x: u32) -> bool
    ensures { result ≡ outside limit x }
{
    !(limit.0..=limit.1).contains(&x)
}

// A climate's lowest field outside its limits, by its number. (Of a known count, in both loops: the limits are then no table in memory.)
fn climate_fault(c: &[u32]) -> Option<usize>
    requires { length c.now ≡ 24 }
    ensures { MatchOption result (climate_at_fault c.now ≡ 0) (λ field. (0 < field) × (field ≡ climate_at_fault c.now)) }
{
    let by_place = CLIMATE;
    for k in 0..24 {
        if is_outside(by_place[k], c[k]) {
            return Some(k + 10);
        }
    }
    None
}

// The number of a block's field, by its place.
fn block_field(place: usize) -> usize
    requires { place ≤ 16 }
    ensures { result ≡ block_field place }
{
    if place < 9 { place + 1 } else { place + 25 }
}

// A block's lowest field outside its limits, likewise.
fn block_fault(block: &[u32]) -> Option<usize>
    requires { (16 ≤ length block.now) × (length block.now ≤ 17) }
    ensures { MatchOption result (block_at_fault block.now ≡ 0) (λ field. (0 < field) × (field ≡ block_at_fault block.now)) }
{
    let by_place = block_limits(february_of(block), block[0]);
    for place in 0..16 {
        if is_outside(by_place[place], block[place]) {
            return Some(block_field(place));
        }
    }
    if 16 < block.len() && is_outside(by_place[16], block[16]) {
        return Some(41);
    }
    None
}

// ---- the fields by name

// The season of a climate's numbers and a block's.
pub fn season_of(eto: [u32; 12], rain: [u32; 12], block: &[u32]) -> Season
    requires { 16 ≤ length block.now }
    ensures { result ≡ season_of (merged (eto ++ rain) block.now) }
{
    Season {
        month: block[0],
        first: block[1],
        initial: block[2],
        development: block[3],
        middle: block[4],
        late: block[5],
        kcini: block[6],
        kcmid: block[7],
        kcend: block[8],
        eto,
        rain,
        water: block[9],
        sowing: block[10],
        full: block[11],
        fraction: block[12],
        efficiency: block[13],
        opening: block[14],
        turns: block[15],
        february: february_of(block),
    }
}

// ---- refusals 4 to 7

// A climate's twenty-four numbers: refusal 4.
pub fn judge_climate(c: &[u32]) -> Result<(), Refusal>
    requires { length c.now ≡ 24 }
    ensures { verdict_in result ≡ climate_verdict c.now }
{
    match climate_fault(c) {
        Some(field) => Err(Refusal {
            reason: Reason::FieldOutside,
            value: field,
        }),
        None => Ok(()),
    }
}

// A block's sixteen or seventeen numbers: the first of refusals 4 to 7 that applies. No climate is looked at.
pub fn judge_block(block: &[u32]) -> Result<(), Refusal>
    requires { (16 ≤ length block.now) × (length block.now ≤ 17) }
    ensures { verdict_in result ≡ block_verdict block.now }
{
    if let Some(field) = block_fault(block) {
        return Err(Refusal {
            reason: Reason::FieldOutside,
            value: field,
        });
    }
    let s = season_of([0; 12], [0; 12], block);
    let long = season::LONGEST_SEASON < season::season_days(s) as usize;
    let shrinking = s.full < s.sowing;
    let above_total = season::first_total(s) < s.opening;
    refuse_if(long, Reason::SeasonTooLong, 0)
        .or_refused(shrinking, Reason::RootsShrink, 0)
        .or_refused(above_total, Reason::OpeningAboveTotal, 0)
}
