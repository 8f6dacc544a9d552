// Whether an answer of the product is the model's.
use crate::loose::{Wipes, wipes_of};
use crate::model;
use crate::model::{EntryBytes, Totals};
use journal::{Ledger, Losses, Opened, Opening, StageSums, Stages, Stores};
use verdict::Refusal;

fn same_stores(s: Stores, t: Totals, w: EntryBytes) -> bool {
    s.start as u64 == t.place && s.count == w.count && s.bytes == w.bytes
}

// The refusal's number is the expected one, and a torn journal's place is returned with it.
fn same_refusal(refusal: Refusal, t: Totals, expected: Option<u32>) -> bool {
    let returned = if expected == Some(10) { t.place } else { 0 };
    expected == Some(refusal.reason.number()) && refusal.value as u64 == returned
}

// The call's answer is the model's: stores, or the expected refusal.
pub fn same_record(
    answer: Result<Stores, Refusal>,
    t: Totals,
    expected: Option<u32>,
    w: EntryBytes,
) -> bool {
    match answer {
        Ok(stores) => expected.is_none() && same_stores(stores, t, w),
        Err(refusal) => same_refusal(refusal, t, expected),
    }
}

fn same_sums(s: StageSums, need: u64, used: u64) -> bool {
    s.need as u64 == need && s.used as u64 == used
}

fn same_stages(p: Stages, needs: [u64; 4], uses: [u64; 4]) -> bool {
    same_sums(p.initial, needs[0], uses[0])
        && same_sums(p.development, needs[1], uses[1])
        && same_sums(p.middle, needs[2], uses[2])
        && same_sums(p.late, needs[3], uses[3])
}

fn same_ledger(l: Ledger, t: Totals) -> bool {
    l.day as u64 == t.day
        && l.depletion as u64 == t.depletion
        && l.waiting_rain as u64 == t.waiting_rain
        && l.waiting_irrigation as u64 == t.waiting_irrigation
        && l.rain as u64 == t.rain
        && l.irrigation as u64 == t.irrigation
        && l.used as u64 == t.used
        && l.percolation as u64 == t.percolation
        && l.place as u64 == t.place
        && l.need as u64 == t.need
        && same_stages(l.stages, t.needs, t.uses)
}

// Where no refusal is expected, clean when no byte is loose, else torn at the ledger's place.
fn same_found(o: Opening, t: Totals, expected: Option<u32>, loose: usize) -> bool {
    match o {
        Opening::Clean(l) => expected.is_none() && loose == 0 && same_ledger(l, t),
        Opening::Torn(l, place) => {
            expected.is_none() && loose != 0 && place as u64 == t.place && same_ledger(l, t)
        }
        Opening::Refused(reason, value) => same_refusal(Refusal { reason, value }, t, expected),
    }
}

fn same_wipes(places: [usize; 3], count: usize, w: Wipes) -> bool {
    count == w.count && places.map(|place| place as u64) == w.places
}

// The whole answer to a role: what is found, and the places of the loose bytes that it mends and that are not FF, highest first, 0 past their count.
pub fn same_opening(role: u32, r: Opened, t: Totals, bytes: [u8; 4], loose: usize) -> bool {
    let w = wipes_of(&bytes, model::mended(role, loose), t.place);
    same_found(r.opening, t, model::look_refusal(role), loose) && same_wipes(r.places, r.count, w)
}

fn same_losses(p: Losses, t: Totals, ky: u32) -> bool {
    p.season as u64 == model::loss(ky, t.need, t.used)
        && p.initial as u64 == model::loss(ky, t.needs[0], t.uses[0])
        && p.development as u64 == model::loss(ky, t.needs[1], t.uses[1])
        && p.middle as u64 == model::loss(ky, t.needs[2], t.uses[2])
        && p.late as u64 == model::loss(ky, t.needs[3], t.uses[3])
}

// The model's losses by a Ky, or its refusal.
pub fn same_loss(
    role: u32,
    answer: Result<Losses, Refusal>,
    t: Totals,
    loose: usize,
    ky: u32,
) -> bool {
    let expected = model::loss_refusal(role, loose, ky);
    match answer {
        Ok(p) => expected.is_none() && same_losses(p, t, ky),
        Err(refusal) => same_refusal(refusal, t, expected),
    }
}
