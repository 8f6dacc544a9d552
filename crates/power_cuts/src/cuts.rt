// A history of calls with one power cut, beside the model: each call's answer, and the opening and the losses after it, are compared with the
// model's.
use crate::model::{Block, EntryBytes, Totals};
use crate::{compare, loose, model};
use journal::{Opened, Stores};
use std::io;
use std::io::Print;
use verdict::Refusal;

// A pair of sheets by their bytes, and the block by its numbers.
#[derive(Clone, Copy)]
pub struct Sheets<'a> {
    pub climate: &'a [u8],
    pub block: &'a [u8],
    pub numbers: Block,
}

// A cut: the call, how many of its stores are done, and how many of those of the opening behind it; 4 where no opening's are done.
#[derive(Clone, Copy)]
struct Cut {
    call: usize,
    done: usize,
    reopened: usize,
}

// No call hands back more stores.
const ALL: usize = 4;

// A yield response factor, and one that is refused.
const KY: u32 = 125;

const NO_KY: u32 = 0;

// The first number past the roles.
const NO_ROLE: u32 = 4;

// The role that makes a call of a history.
fn role_of(call: u32) -> u32 {
    if model::kind_of(call) == model::OPEN {
        model::MEND
    } else {
        model::RECORD
    }
}

// A history as far as it is played: the journal's area; the model beside it, which is the calls of whole entries, how many they are, and the bytes of a
// torn entry, of which so many are loose; and whether all answers were the same so far.
#[derive(Drop)]
struct Played<'a> {
    sheets: Sheets<'a>,
    area: &'a mut [u8],
    entries: &'a mut [u32],
    count: usize,
    loose: usize,
    bytes: [u8; 4],
    same: bool,
}

impl Played<'_> {
    fn compare(&mut self, same: bool) {
        self.same = self.same && same;
    }

    // The model's ledger.
    fn totals(&self) -> Totals {
        model::worked(self.sheets.numbers, self.entries, self.count)
    }

    fn recorded(&self, role: u32, call: u32) -> Result<Stores, Refusal> {
        let Sheets { climate, block, .. } = self.sheets;
        let amount = model::amount_of(call);
        match model::kind_of(call) {
            model::RAIN => controller::rain(role, climate, block, self.area, amount),
            model::IRRIGATION => controller::irrigation(role, climate, block, self.area, amount),
            _ => controller::close(role, climate, block, self.area),
        }
    }

    // The model after so many stores of an accepted entry.
    fn enter(&mut self, call: u32, w: EntryBytes, done: usize) {
        let bytes = w.bytes;
        self.bytes = bytes;
        if done < w.count {
            self.loose = done;
            return;
        }
        trial::put(self.entries, self.count, call);
        self.count = self.count.saturating_add(1);
        self.loose = 0;
    }

    // Rain, irrigation or close by a role, of whose stores so many are done.
    fn record(&mut self, role: u32, call: u32, done: usize) {
        let t = self.totals();
        let size = self.area.len() as u64;
        let expected = model::refusal(role, self.sheets.numbers, t, self.loose, size, call);
        let w = model::written(model::kind_of(call), model::number_of(t, call));
        let answer = self.recorded(role, call);
        self.compare(compare::same_record(answer, t, expected, w));
        if let Ok(stores) = answer {
            trial::store(self.area, stores, done);
        }
        if expected.is_none() {
            self.enter(call, w, done);
        }
    }

    // The model after so many stores of an opening by role 3: once all loose bytes are FF, none is loose.
    fn wipe(&mut self, done: usize) {
        loose::wipe(&mut self.bytes, self.loose, done);
        if loose::unwiped_count(&self.bytes, self.loose) == 0 {
            self.loose = 0;
        }
    }

    fn opened(&self, role: u32) -> Opened {
        let Sheets { climate, block, .. } = self.sheets;
        controller::open(role, climate, block, self.area)
    }

    fn same_opening(&self, role: u32, answer: Opened, t: Totals) -> bool {
        compare::same_opening(role, answer, t, self.bytes, self.loose)
    }

    // Open by a role, of whose stores so many are done.
    fn open(&mut self, role: u32, done: usize) {
        let answer = self.opened(role);
        let same = self.same_opening(role, answer, self.totals());
        self.compare(same);
        trial::store_opening(self.area, answer, done);
        if role == model::MEND {
            self.wipe(done);
        }
    }

    // Whether the loss to a role is the model's.
    fn same_loss(&self, role: u32, t: Totals, ky: u32) -> bool {
        let Sheets { climate, block, .. } = self.sheets;
        let answer = controller::loss(role, climate, block, self.area, ky);
        compare::same_loss(role, answer, t, self.loose, ky)
    }

    // The opening and the losses after a call; no store is done.
    fn find(&mut self) {
        let t = self.totals();
        let same = self.same_opening(model::MEND, self.opened(model::MEND), t)
            && self.same_loss(model::LOOK, t, KY)
            && self.same_loss(model::LOOK, t, NO_KY)
            && self.same_loss(NO_ROLE, t, NO_KY);
        self.compare(same);
    }

    // A call by a role, of whose stores so many are done.
    fn make(&mut self, role: u32, call: u32, done: usize) {
        if model::kind_of(call) == model::OPEN {
            self.open(role, done);
        } else {
            self.record(role, call, done);
        }
    }

    // A call with so many stores done, and the opening and the losses after it. Before that it is made by numbers that are no role, and by role 1: the
    // area and the model stay.
    fn step(&mut self, call: u32, done: usize) {
        for role in [0, NO_ROLE, 0xffffffff, model::LOOK] {
            self.make(role, call, ALL);
        }
        self.make(role_of(call), call, done);
        self.find();
    }

    // After the cut call: openings by roles 1 and 2, at which the area and the model stay; one by role 3 whose stores are cut too; and a whole one.
    fn recover(&mut self, reopened: usize) {
        self.open(model::LOOK, ALL);
        self.open(model::RECORD, ALL);
        self.find();
        if reopened < ALL {
            self.step(model::OPEN, reopened);
            self.step(model::OPEN, ALL);
        }
    }
}

// A history with one cut, on a blank area of so many bytes: whether all answers are the model's.
fn play(sheets: Sheets, size: u64, history: &[u32], cut: Cut) -> bool {
    let mut area = [255u8; 512];
    let mut entries = [0u32; 136];
    let n = trial::count(size, &area);
    let mut played = Played {
        sheets,
        area: &mut area[..n],
        entries: &mut entries,
        count: 0,
        loose: 0,
        bytes: [0; 4],
        same: true,
    };
    for (i, call) in history.iter().enumerate() {
        if i == cut.call {
            played.step(*call, cut.done);
            played.recover(cut.reopened);
        } else {
            played.step(*call, ALL);
        }
    }
    played.same
}

// Every cut of a call: after 0 to 3 of its stores, and then no opening's stores done, or an opening cut after 0 to 3 of its own.
fn cut_call(
    rt: &impl Print,
    sheets: Sheets,
    size: u64,
    history: &[u32],
    call: usize,
) -> io::Result<bool> {
    for done in 0..4 {
        for reopened in 0..5 {
            let cut = Cut {
                call,
                done,
                reopened,
            };
            if !play(sheets, size, history, cut) {
                print_cut(rt, cut)?;
                return Ok(false);
            }
        }
    }
    Ok(true)
}

fn print_cut(rt: &impl Print, cut: Cut) -> io::Result<()> {
    let Cut {
        call,
        done,
        reopened,
    } = cut;
    println!(rt; "difference: call {call} cut after {done} stores, the opening after {reopened}")
}

// Cuts every call of a history; how many calls were cut, or 0 at the first difference.
pub fn cut_calls(rt: &impl Print, sheets: Sheets, size: u64, history: &[u32]) -> io::Result<u64> {
    for call in 0..history.len() {
        if !cut_call(rt, sheets, size, history, call)? {
            return Ok(0);
        }
    }
    Ok(history.len() as u64)
}
