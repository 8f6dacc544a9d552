// What a call answers by a role (document 02, T-09): a number of its answer, or of the buffer that it is lent.
use crate::sheets::{Lent, Sheets};
use crate::{ledger, sheets, writing};
use journal::{Opened, Stores};
use probes::Probe;
use trial::{count, get};
use verdict::Refusal;

// Looks; may also enter; is also handed the stores of an opening.
pub const LOOK: u32 = 1;

pub const RECORD: u32 = 2;

pub const MEND: u32 = 3;

// What open answers.
pub fn open(role: u32, lent: Lent) -> Opened {
    let Sheets { climate, block } = lent.sheets;
    controller::open(role, climate, block, lent.area)
}

// Of open: 1 to 18 the ledger's numbers, 19 the count of stores, 20 to 22 their places. Here and below 0 is the refusal's
// number × 1000 and the number returned with it.
fn opened(role: u32, lent: Lent, which: u32) -> u64 {
    let answer = open(role, lent);
    let opening = answer.opening;
    let places = answer.places;
    match which {
        0 => sheets::code(opening.clean()),
        19 => answer.count as u64,
        20 => places[0] as u64,
        21 => places[1] as u64,
        22 => places[2] as u64,
        _ => ledger::number_in(opening, which),
    }
}

// Of an entry call: 1 the start of its stores, 2 their count, 3 to 6 their bytes; all are 0 where the call is refused.
fn recorded(answer: Result<Stores, Refusal>, which: u32) -> u64 {
    if which == 0 {
        return sheets::code(answer);
    }
    let Ok(stores) = answer else {
        return 0;
    };
    let bytes = stores.bytes;
    match which {
        1 => stores.start as u64,
        2 => stores.count as u64,
        3 => bytes[0] as u64,
        4 => bytes[1] as u64,
        5 => bytes[2] as u64,
        _ => bytes[3] as u64,
    }
}

// The code that a call answers; or, where `which` is not 0, that number of its buffer, counted from 1.
fn buffered(code: u64, buffer: &[u32], which: u32) -> u64 {
    if which == 0 {
        return code;
    }
    get(buffer, (which - 1) as usize) as u64
}

// Of plan: a number of a buffer of eight 238s.
fn planned(role: u32, lent: Lent, which: u32) -> u64 {
    let Sheets { climate, block } = lent.sheets;
    let mut depths = [238u32; 8];
    let answer = controller::plan(role, climate, block, lent.area, &mut depths);
    buffered(sheets::code(answer), &depths, which)
}

// The same of table.
fn tabled(role: u32, sheets: Sheets, which: u32) -> u64 {
    let mut rows = [238u32; 8];
    let answer = controller::table(role, sheets.climate, sheets.block, &mut rows);
    buffered(sheets::code(answer), &rows, which)
}

// Of probe, with both probes silent.
fn probed(role: u32, lent: Lent, capacity: u32) -> u64 {
    let Sheets { climate, block } = lent.sheets;
    sheets::code(controller::probe(
        role,
        climate,
        block,
        lent.area,
        Probe::Silent,
        Probe::Silent,
        capacity,
    ))
}

fn answered(lent: Lent, fields: [u32; 41], numbers: &[u32]) -> u64 {
    let Lent { sheets, area } = lent;
    let Sheets { climate, block } = sheets;
    let role = get(numbers, 5);
    let which = get(numbers, 6);
    let n = get(numbers, 9);
    match get(numbers, 4) {
        1 => opened(role, lent, which),
        2 => recorded(controller::rain(role, climate, block, area, n), which),
        3 => recorded(controller::irrigation(role, climate, block, area, n), which),
        4 => recorded(controller::close(role, climate, block, area), which),
        5 => planned(role, lent, which),
        6 => tabled(role, sheets, which),
        7 => ledger::loss_by(role, lent, which, n),
        8 => probed(role, lent, n),
        9 => writing::climate_in_room(role, fields, 25, which),
        _ => writing::block_in_room(role, fields, 16, which),
    }
}

// A line's numbers are the call, the role, which number of the answer, how many bytes the climate sheet and the area have
// and, for the calls that take one, an amount, a Ky or a field capacity.
pub fn number_of(lent: Lent, fields: [u32; 41], numbers: &[u32]) -> u64 {
    let Lent { sheets, area } = lent;
    let Sheets { climate, block } = sheets;
    let n = count(get(numbers, 7) as u64, climate);
    let m = count(get(numbers, 8) as u64, area);
    let cut = Lent {
        sheets: Sheets {
            climate: &climate[..n],
            block,
        },
        area: &area[..m],
    };
    answered(cut, fields, numbers)
}
