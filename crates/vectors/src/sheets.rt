// A climate sheet and a block sheet from a line's numbers, and what the product says of a day of their season.
ghost use Rattle.season.specs.Sheet.{Valid};
ghost use Rattle.season.specs.Carried.{OnDay};

use crate::roles::LOOK;
use crate::text;
use decades::{MOST_NUMBERS, MOST_ROWS};
use planner::Totals;
use season::{Accepted, LONGEST_SEASON, Season, SeasonDay};
use trial::{count, get, put_behind};
use verdict::{Reason, Refusal};

// A pair of sheets by their bytes.
#[derive(Clone, Copy)]
pub struct Sheets<'a> {
    pub climate: &'a [u8],
    pub block: &'a [u8],
}

// Such a pair, and the area of its journal.
#[derive(Clone, Copy)]
pub struct Lent<'a> {
    pub sheets: Sheets<'a>,
    pub area: &'a [u8],
}

// The bytes of a pair of sheets, and how many each has.
#[derive(Clone, Copy)]
pub struct SheetBytes {
    climate: [u8; 73],
    climate_size: u64,
    block: [u8; 52],
    block_size: u64,
}

// A day's numbers: n of its season, Kc in thousandths of a hundredth, the date as month × 100 + day, C, T and R.
#[derive(Clone, Copy)]
pub struct DayNumbers {
    pub days: u32,
    pub kc: u64,
    pub date: u64,
    pub need: u32,
    pub total: u32,
    pub ready: u32,
}

// Writes a number in groups of seven bits, with zeros behind; the place after the groups.
fn put_groups(bytes: &mut [u8], from: usize, n: u32) -> usize {
    let groups = leb128::split(n);
    for (i, b) in groups.bytes.iter().enumerate() {
        put_behind(bytes, from, i, *b);
    }
    from.saturating_add(groups.count as usize)
}

// Writes the fields from the place `first` on, up to `end`, to a place and those behind it; the place after them.
fn put_fields(bytes: &mut [u8], from: usize, fields: &[u32], first: usize, end: usize) -> usize {
    let mut at = from;
    for i in first..end {
        at = put_groups(bytes, at, get(fields, i));
    }
    at
}

// Writes the block sheet of the first forty-one numbers to a place and those behind it; the place after it. A February
// of 28 days is left out.
pub fn put_block(fields: &[u32], bytes: &mut [u8], from: usize) -> usize {
    let at = put_fields(bytes, from, fields, 0, 9);
    let end: usize = if get(fields, 40) == 28 { 40 } else { 41 };
    put_fields(bytes, at, fields, 33, end)
}

// Refusal number × 1000 and the number returned with it; or 0 where there is none.
pub fn code<T: Copy>(answer: Result<T, Refusal>) -> u64 {
    match answer {
        Ok(_) => 0,
        Err(refusal) => refusal_code(refusal),
    }
}

pub fn refusal_code(refusal: Refusal) -> u64 {
    if refusal.value < 1000 {
        refusal.reason.number() as u64 * 1000 + refusal.value as u64
    } else {
        0
    }
}

fn thousandths(top: u32, bottom: u32) -> u64 {
    (top as u64 * 1000).checked_div(bottom as u64).unwrap_or(0)
}

// The numbers of a day, whose Kc is given.
fn numbers_on(s: Season, t: SeasonDay, days: u32, kc: u64) -> DayNumbers
    requires valid { Valid s }
    requires on_day { OnDay s t }
{
    DayNumbers {
        days,
        kc,
        date: t.month as u64 * 100 + t.day as u64,
        need: season::crop_need(s, t),
        total: season::total_on(s, t),
        ready: season::ready_on(s, t),
    }
}

// The numbers of a day of the season, or all 0 where it has no such day.
fn season_day(a: Accepted, day: u32) -> DayNumbers {
    let s = a.season;
    let days = season::season_days(s);
    if !(1..=days).contains(&day) {
        return nothing();
    }
    let kc = season::kc_of(s, day);
    numbers_on(
        s,
        season::day_of(s, day),
        days,
        thousandths(kc.top, kc.bottom),
    )
}

fn nothing() -> DayNumbers {
    DayNumbers {
        days: 0,
        kc: 0,
        date: 0,
        need: 0,
        total: 0,
        ready: 0,
    }
}

fn place(row: u32, column: u32) -> usize {
    if !(1..=MOST_ROWS).contains(&row) || !(1..=6).contains(&column) {
        return MOST_NUMBERS;
    }
    ((row - 1) * 6 + (column - 1)) as usize
}

// The sum of a column of rows.
fn sum_of(rows: &[u32], column: u32) -> u64 {
    let mut sum: u64 = 0;
    for row in 1..=MOST_ROWS {
        sum = sum.saturating_add(get(rows, place(row, column)) as u64);
    }
    sum
}

impl SheetBytes {
    // The sheets of a line's numbers, judged by nobody: also those that reading must refuse, which the product's writers do not make.
    pub fn of_fields(fields: [u32; 41]) -> SheetBytes {
        let mut climate = [0u8; 73];
        let mut block = [0u8; 52];
        let climate_size = put_fields(&mut climate, 0, &fields, 9, 33) as u64;
        let block_size = put_block(&fields, &mut block, 0) as u64;
        SheetBytes {
            climate,
            climate_size,
            block,
            block_size,
        }
    }

    // Two sheets of so many bytes each, which stand behind a line's first six numbers.
    pub fn of_bytes(numbers: &[u32], climate_size: u32, block_size: u32) -> SheetBytes {
        let mut climate = [0u8; 73];
        let mut block = [0u8; 52];
        text::lay_bytes(numbers, 6, &mut climate);
        let from = 6usize.saturating_add(climate_size as usize);
        text::lay_bytes(numbers, from, &mut block);
        SheetBytes {
            climate,
            climate_size: climate_size as u64,
            block,
            block_size: block_size as u64,
        }
    }

    pub fn sheets(&self) -> Sheets<'_> {
        let n = count(self.climate_size, &self.climate);
        let m = count(self.block_size, &self.block);
        Sheets {
            climate: &self.climate[..n],
            block: &self.block[..m],
        }
    }

    // The same, and an area.
    pub fn with_area<'a>(&'a self, area: &'a [u8]) -> Lent<'a> {
        let sheets = self.sheets();
        Lent { sheets, area }
    }
}

impl Sheets<'_> {
    // Refusal number × 1000 and the number returned with it, or 0 for an accepted pair.
    pub fn refusal(self) -> u64 {
        code(sheet::read(self.climate, self.block))
    }

    // The numbers of a day of the season, or all 0 where it has no such day or the pair is refused.
    pub fn day(self, day: u32) -> DayNumbers {
        match sheet::read(self.climate, self.block) {
            Ok(season) => season_day(season, day),
            Err(_) => nothing(),
        }
    }

    // The mean Kc of the days from one to another; 0 past day 999.
    pub fn mean_kc(self, from: u32, to: u32) -> u64 {
        if 1000 <= to {
            return 0;
        }
        let mut sum: u64 = 0;
        let mut count: u64 = 0;
        for day in from..=to {
            sum = sum.saturating_add(self.day(day).kc);
            count = count.saturating_add(1);
        }
        sum.checked_div(count).unwrap_or(0)
    }

    // How many rows the decade table has; its rows go to a lent buffer.
    fn table(self, rows: &mut [u32]) -> usize {
        controller::table(LOOK, self.climate, self.block, rows).unwrap_or(0)
    }

    // How many rows the decade table has.
    pub fn row_count(self) -> usize {
        let mut rows = [0u32; MOST_NUMBERS];
        self.table(&mut rows)
    }

    // The number in a row and a column of the table, each from 1.
    pub fn cell(self, row: u32, column: u32) -> u32 {
        let mut rows = [0u32; MOST_NUMBERS];
        self.table(&mut rows);
        get(&rows, place(row, column))
    }

    // The sum of a column of the table.
    pub fn column_sum(self, column: u32) -> u64 {
        let mut rows = [0u32; MOST_NUMBERS];
        self.table(&mut rows);
        sum_of(&rows, column)
    }

    // The plan on a blank journal; its depths go to a lent buffer.
    fn plan(self, depths: &mut [u32]) -> Result<Totals, Refusal> {
        controller::plan(LOOK, self.climate, self.block, b"", depths)
    }

    // The days before the first that no choice holds, on a blank journal; 0 where there is none.
    pub fn days_held(self) -> u64 {
        let mut depths = [0u32; LONGEST_SEASON];
        match self.plan(&mut depths) {
            Err(
                Refusal {
                    reason: Reason::NoChoice,
                    value,
                },
            ) => value.saturating_sub(1) as u64,
            _ => 0,
        }
    }

    // Of the plan on a blank journal: 1 the refusal's number × 1000 and its day, 2 the waterings, 3 the net total, 4 the
    // gross total.
    pub fn plan_number(self, which: u32) -> u64 {
        let mut depths = [0u32; LONGEST_SEASON];
        match (self.plan(&mut depths), which) {
            (Err(refusal), 1) => refusal_code(refusal),
            (Ok(totals), 2) => totals.waterings as u64,
            (Ok(totals), 3) => totals.net.0 as u64,
            (Ok(totals), 4) => totals.gross.points() as u64,
            _ => 0,
        }
    }

    // The plan's depth on a season day.
    pub fn depth(self, day: u32) -> u64 {
        let mut depths = [0u32; LONGEST_SEASON];
        if day < 1 || self.plan(&mut depths).is_err() {
            return 0;
        }
        get(&depths, (day - 1) as usize) as u64
    }
}
