// The blocks and the histories that are cut, as data. A history's call is its kind, and the amount ten times.
ghost use Rattle.std.specs.Prelude.{◌≡◌, length};

use crate::model;
use crate::model::Block;

// Document 01's small sheet: C is 200, 500, 500, 300; A 100 and Z 20 give T 2,000, and p 50 gives R 1,000.
pub const SMALL: Block = Block {
    days: 4,
    ends: [1, 2, 3],
    need: [200, 500, 500, 300],
    total: 2000,
    ready: 1000,
};

// Document 02's leap sheet where February has 29 days: day 3 is the 29th, and C is 200, 500, 500, 600.
pub const LEAP: Block = Block {
    days: 4,
    ends: [1, 2, 3],
    need: [200, 500, 500, 600],
    total: 2000,
    ready: 1000,
};

// A season of 240 days, 60 a stage, with the same soil, ETo 300 and Kc 100: C is 300 every day.
pub const LONG: Block = Block {
    days: 240,
    ends: [60, 120, 180],
    need: [300, 300, 300, 300],
    total: 2000,
    ready: 1000,
};

// Amounts of one, two and three groups, some with a byte FF, one with FF before another byte; the day's total at 240,000 and past it; amounts out of
// range; an opening of a clean journal; entries after the last day.
pub const ENTRIES: [u32; 25] = [
    3001, 2552, 3, 1200001, 11, 1200002, 163832, 12, 3, 4, 1, 1200011, 1281, 163831, 1272, 3,
    163842, 20000001, 655351, 165111, 3, 3, 51, 4, 2552,
];

// Document 02, T-05: a cut rain, wiped by two openings, the first of them cut, and entered again.
pub const RAIN_AGAIN: [u32; 2] = [3001, 3001];

// Days without water: use under stress.
pub const WITHOUT_WATER: [u32; 6] = [3, 3, 3, 3, 3, 4];

// Areas that end: the entry does not fit.
pub const NARROW: [u32; 9] = [3001, 12, 3, 2551, 11, 3, 4, 1200002, 11];

// Days closed one after another, with a shower every twenty-five calls. The `ensures` gives only the length, which lending the array needs.
pub fn long_history() -> [u32; 136]
    ensures { 136 ≡ length result }
{
    let mut calls = [model::CLOSE; 136];
    for i in [24, 49, 74, 99, 124] {
        calls[i] = SHOWER;
    }
    calls
}

const SHOWER: u32 = 9001;
