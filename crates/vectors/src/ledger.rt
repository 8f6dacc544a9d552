// Days closed one after another, from their lines: a line that starts with '+' is a day.
use crate::sheets::{Lent, Sheets};
use crate::{roles, rules, sheets};
use journal::{Ledger, Losses, Opening, Stages, Stores};
use trial::{get, put};
use verdict::Refusal;

// Adds to a number of a balance.
fn add(balance: &mut [u32], at: usize, n: u32) {
    let next = get(balance, at).saturating_add(n);
    put(balance, at, next);
}

// Closes a day by the rule alone, with a need, rain and irrigation of its own, total and ready water the sheets'.
// A balance is: days closed, depletion, used, percolated, rain, irrigation.
pub fn close_day(sheets: Sheets, balance: &mut [u32], need: u32, rain: u32, irrigation: u32) {
    add(balance, 0, 1);
    let t = sheets.day(get(balance, 0));
    let done = rules::close(
        get(balance, 1),
        rain.saturating_add(irrigation),
        need,
        t.total,
        t.ready,
    );
    put(balance, 1, done.depletion);
    add_totals(balance, done.used, done.percolated, rain, irrigation);
}

fn add_totals(balance: &mut [u32], used: u32, percolated: u32, rain: u32, irrigation: u32) {
    add(balance, 2, used);
    add(balance, 3, percolated);
    add(balance, 4, rain);
    add(balance, 5, irrigation);
}

// No call hands back more stores.
const ALL: usize = 4;

// Does the stores of an entry that is accepted.
fn enter(area: &mut [u8], answer: Result<Stores, Refusal>) {
    if let Ok(stores) = answer {
        trial::store(area, stores, ALL);
    }
}

// A day by the calls: rain and irrigation where there is any, and the close.
pub fn record_day(sheets: Sheets, area: &mut [u8], rain: u32, irrigation: u32) {
    let Sheets { climate, block } = sheets;
    if rain != 0 {
        let answer = controller::rain(roles::RECORD, climate, block, area, rain);
        enter(area, answer);
    }
    if irrigation != 0 {
        let answer = controller::irrigation(roles::RECORD, climate, block, area, irrigation);
        enter(area, answer);
    }
    let answer = controller::close(roles::RECORD, climate, block, area);
    enter(area, answer);
}

fn stage_number(p: Stages, which: u32) -> u64 {
    let Stages {
        initial,
        development,
        middle,
        late,
    } = p;
    match which {
        11 => initial.need as u64,
        12 => initial.used as u64,
        13 => development.need as u64,
        14 => development.used as u64,
        15 => middle.need as u64,
        16 => middle.used as u64,
        17 => late.need as u64,
        _ => late.used as u64,
    }
}

fn ledger_number(l: Ledger, which: u32) -> u64 {
    match which {
        1 => l.day as u64,
        2 => l.depletion as u64,
        3 => l.waiting_rain as u64,
        4 => l.waiting_irrigation as u64,
        5 => l.rain as u64,
        6 => l.irrigation as u64,
        7 => l.used as u64,
        8 => l.percolation as u64,
        9 => l.place as u64,
        10 => l.need as u64,
        _ => stage_number(l.stages, which),
    }
}

// A number of the ledger that opening finds: 1 open day, 2 depletion, 3 and 4 waiting rain and irrigation, 5 and 6 season
// rain and irrigation, 7 use, 8 percolation, 9 the place, 10 the season's need, 11 to 18 need and use of the four
// stages. 0 where it refuses.
pub fn number_in(o: Opening, which: u32) -> u64 {
    match o {
        Opening::Clean(l) => ledger_number(l, which),
        Opening::Torn(l, _) => ledger_number(l, which),
        Opening::Refused(_, _) => 0,
    }
}

fn loss_number(p: Losses, which: u32) -> u64 {
    match which {
        20 => p.season as u64,
        21 => p.initial as u64,
        22 => p.development as u64,
        23 => p.middle as u64,
        24 => p.late as u64,
        _ => 0,
    }
}

// A number of what loss answers: 19 whether it refuses, 20 the season's, 21 to 24 the stages'. Where it refuses, all are
// the refusal's number × 1000 and the number returned with it.
pub fn loss_by(role: u32, lent: Lent, which: u32, ky: u32) -> u64 {
    let Sheets { climate, block } = lent.sheets;
    match controller::loss(role, climate, block, lent.area, ky) {
        Ok(p) => loss_number(p, which),
        Err(refusal) => sheets::refusal_code(refusal),
    }
}

// A number of the opening, up to 18, or of the loss by a Ky.
pub fn number_of(lent: Lent, which: u32, ky: u32) -> u64 {
    if which < 19 {
        return number_in(roles::open(roles::MEND, lent).opening, which);
    }
    loss_by(roles::LOOK, lent, which, ky)
}
