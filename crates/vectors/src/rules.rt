// What the product answers for a line of numbers. Its first four are the printed figure, the tolerance, the reason and
// the deviation; inputs follow. Where a rule asks about a season, two numbers follow (a day, or a row and a column) and
// then fields of the sheets with their values.
use crate::sheets::{Lent, SheetBytes, Sheets};
use crate::{banks, ledger, probing, roles, writing};
use season::{DayClose, Net};
use trial::{get, put};

// Effective rain of a month, by its rain.
pub const RAIN: u32 = 1;

// Gross depth, by net depth and efficiency.
pub const GROSS: u32 = 2;

// Net depth, by need and rain.
pub const NET: u32 = 3;

// Crop use, by depletion, need, total and ready water.
pub const USE: u32 = 4;

// What a climate sheet and a block sheet answer: 0, or the refusal's number × 1000 and the number returned with it.
pub const REFUSAL: u32 = 5;

// n.
pub const LENGTH: u32 = 6;

// Kc on a day, in thousandths of a hundredth.
pub const KC: u32 = 7;

// C on a day, rounded to a unit.
pub const NEED: u32 = 8;

// T on a day.
pub const TOTAL: u32 = 9;

// R on a day.
pub const READY: u32 = 10;

// The date of a day: month × 100 and day.
pub const DATE: u32 = 11;

// The days before the first that no choice holds.
pub const HELD: u32 = 12;

// A number of the decade table, by row and column.
pub const CELL: u32 = 13;

// The sum of a column of the decade table.
pub const SUM: u32 = 14;

// The rows of the decade table.
pub const ROWS: u32 = 15;

// The mean Kc of the days from one to another.
pub const MEAN_KC: u32 = 16;

// A depth as a part of T on a day, in hundredths of a percent.
pub const PERCENT: u32 = 17;

// A number of the plan on a blank journal.
pub const PLAN: u32 = 18;

// The plan's depth on a day.
pub const DEPTH: u32 = 19;

// What the climate's writer answers in a buffer of so many bytes, or a byte of that buffer.
pub const CLIMATE: u32 = 20;

// The same of the block's writer.
pub const BLOCK: u32 = 21;

// What both writers answer: 0, or the climate's refusal, else the block's.
pub const WRITE: u32 = 22;

// Yield lost, by Ky, need and use.
pub const LOSS: u32 = 23;

// What two probes say, by their kinds and bits.
pub const CONTENT: u32 = 24;

// What two sheets answer, given by their bytes.
pub const BYTES: u32 = 25;

// A number of the days closed by the rule.
pub const BALANCE: u32 = 26;

// A byte of the journal that the calls wrote, or a number of its opening or of its loss.
pub const JOURNAL: u32 = 27;

// A number of what the probes mean beside that journal, by their kinds and bits and a field capacity.
pub const PROBE: u32 = 28;

// A number of what a call answers by a role, on that journal.
pub const ROLE: u32 = 29;

// A number of what bank answers, on blocks with journals of their own.
pub const BANK: u32 = 30;

// Effective rain.
fn rain(q: u32) -> u64 {
    if q <= 60000 {
        season::effective_rain(q) as u64
    } else {
        0
    }
}

fn gross(net: u32, efficiency: u32) -> u64 {
    if !(1..=100).contains(&efficiency) || 40000000 < net {
        return 0;
    }
    season::gross_of(efficiency, Net(net)).points() as u64
}

// Closing a day, or nothing used where the numbers are of no season.
pub fn close(depletion: u32, water: u32, need: u32, total: u32, ready: u32) -> DayClose {
    if depletion <= total && ready < total && total <= 120000 && water <= 240000 && need <= 3000 {
        return season::close_day(depletion, water, need, total, ready);
    }
    DayClose {
        need,
        used: 0,
        percolated: 0,
        depletion,
    }
}

// Yield lost, or 0 where more is used than needed or Ky is out of range.
fn loss(ky: u32, need: u32, used: u32) -> u64 {
    if 200 < ky || need < used {
        return 0;
    }
    season::loss_of(ky, need, used) as u64
}

// n to the nearest whole unit, a half going up. A unit is 1 or an even number.
fn rounded(n: u32, unit: u32) -> u64 {
    if unit == 0 {
        return n as u64;
    }
    let half_up = n as u64 + unit as u64 / 2;
    let rest = half_up % unit as u64;
    if rest <= half_up { half_up - rest } else { 0 }
}

// A part in hundredths of a percent of a total.
fn percent(part: u32, total: u32) -> u64 {
    if total == 0 {
        return 0;
    }
    part as u64 * 10000 / total as u64
}

// Sets fields of the sheets, by the pairs behind a line's first six numbers: a field, counted from 1, and its value.
pub fn set_fields(fields: &mut [u32], numbers: &[u32]) {
    for pair in 0..45 {
        set_field(
            fields,
            get(numbers, 6 + 2 * pair),
            get(numbers, 7 + 2 * pair),
        );
    }
}

pub fn set_field(fields: &mut [u32], field: u32, value: u32) {
    if 0 < field {
        put(fields, (field - 1) as usize, value);
    }
}

// A figure of a season, from its sheets.
fn of_sheets(rule: u32, sheets: Sheets, a: u32, b: u32) -> u64 {
    match rule {
        REFUSAL => sheets.refusal(),
        LENGTH => sheets.day(1).days as u64,
        KC => sheets.day(a).kc,
        NEED => rounded(sheets.day(a).need, b),
        TOTAL => sheets.day(a).total as u64,
        READY => sheets.day(a).ready as u64,
        DATE => sheets.day(a).date,
        HELD => sheets.days_held(),
        CELL => sheets.cell(a, b) as u64,
        SUM => sheets.column_sum(a),
        ROWS => sheets.row_count() as u64,
        MEAN_KC => sheets.mean_kc(a, b),
        PERCENT => percent(b, sheets.day(a).total),
        PLAN => sheets.plan_number(a),
        DEPTH => sheets.depth(a),
        _ => 0,
    }
}

// The numbers that stand, with a line's own fields.
fn own_fields(fields: [u32; 41], numbers: &[u32]) -> [u32; 41] {
    let mut own = fields;
    set_fields(&mut own, numbers);
    own
}

// A figure of a season or of the writers, from forty-one numbers.
fn of_fields(rule: u32, own: [u32; 41], a: u32, b: u32) -> u64 {
    match rule {
        CLIMATE => writing::climate_in_room(roles::LOOK, own, a, b),
        BLOCK => writing::block_in_room(roles::LOOK, own, a, b),
        WRITE => writing::refusal(own),
        _ => of_sheets(rule, SheetBytes::of_fields(own).sheets(), a, b),
    }
}

// The product's answer, by the line's numbers and the sheets that stand.
pub fn answer(rule: u32, numbers: &[u32], fields: [u32; 41]) -> u64 {
    let a = get(numbers, 4);
    let b = get(numbers, 5);
    match rule {
        RAIN => rain(a),
        GROSS => gross(a, b),
        NET => decades::net_of(a, b).0 as u64,
        USE => close(a, 0, b, get(numbers, 6), get(numbers, 7)).used as u64,
        LOSS => loss(a, b, get(numbers, 6)),
        CONTENT => probing::reading(numbers),
        BYTES => SheetBytes::of_bytes(numbers, a, b).sheets().refusal(),
        _ => of_fields(rule, own_fields(fields, numbers), a, b),
    }
}

// The same of the days closed so far: a number of the balance; or a byte of the journal, or a number of its opening, of
// its loss, of the probes or of a call by a role. A bank's blocks have journals of their own.
pub fn answer_after_days(
    rule: u32,
    numbers: &[u32],
    fields: [u32; 41],
    balance: &[u32],
    area: &[u8],
) -> u64 {
    if rule == BALANCE {
        return get(balance, get(numbers, 4) as usize) as u64;
    }
    let bytes = SheetBytes::of_fields(fields);
    let lent = bytes.with_area(area);
    match rule {
        BANK => banks::number_of(lent.sheets.climate, fields, numbers),
        PROBE => probing::number_of(lent, numbers),
        ROLE => roles::number_of(lent, fields, numbers),
        _ => of_journal(lent, get(numbers, 4), get(numbers, 5)),
    }
}

// A byte of the journal, or a number of its opening or of its loss by a Ky.
fn of_journal(lent: Lent, which: u32, n: u32) -> u64 {
    if which == 0 {
        return lent.area.get(n as usize).copied().unwrap_or(0) as u64;
    }
    ledger::number_of(lent, which, n)
}

// A day's line: need, rain and irrigation for the balance; rain and irrigation for the journal.
pub fn run_day(
    rule: u32,
    numbers: &[u32],
    fields: [u32; 41],
    balance: &mut [u32],
    area: &mut [u8],
) {
    let bytes = SheetBytes::of_fields(fields);
    let sheets = bytes.sheets();
    let a = get(numbers, 0);
    let b = get(numbers, 1);
    if rule == BALANCE {
        ledger::close_day(sheets, balance, a, b, get(numbers, 2));
    } else {
        ledger::record_day(sheets, area, a, b);
    }
}
