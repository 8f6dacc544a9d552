// The controller's calls for C and Rust (include/balladsky.h), each by a role. It writes its answer's numbers over the first numbers of `out`: document 01's
// number (0 accepted or clean, 10 torn, else the refusal), the number returned with it, then the answer. Numbers beyond the answer stay.
#![tactic(auto)]

ghost use Rattle.std.specs.Prelude.{◌≡◌, ◌≤◌, [], ◌∷◌};
ghost use Rattle.verdict.specs.Refusals.{number_of, verdict_in};
ghost use Rattle.verdict.specs.Refusals as verdicts;
ghost use Rattle.journal.specs.declared.Entry.TheVariants.{Water, Close};
ghost use Rattle.journal.specs.declared.Source.TheVariants.{Rain, Irrigation};
ghost use Rattle.journal.specs.Loss.{loss_numbers};
ghost use Rattle.planner.specs.Answer.{numbers_of, planned_in};
ghost use Rattle.sheet.specs.Writing.{written_in};
ghost use Rattle.sheet.specs.Writing as writer;
ghost use Rattle.measuring.specs.Probing.{probed_numbers};
ghost use Rattle.controller.specs.Roles.{opened_by, recorded_by, loss_by, planned_by, probed_by, banked_by, tabled_by, climate_written_by, block_written_by};
ghost use Rattle.exports.specs.Kinds.{probe_of};
ghost use Rattle.answers.specs.Over.{written_over};
ghost use Rattle.exports.specs.Written.{opened_out, recorded_out, planned_over, banked_over, tabled_over, sheet_over};
ghost use Rattle.exports.specs.Small.{SmallVerdict, SmallPlanned, SmallWritten};

use answers::{
    OUT, put_depletions, put_losses, put_opening, put_refusal, put_size, put_stores, put_totals,
};
use bank::ANSWERS;
use journal::{Entry, Opening, Source};
use planner::Totals;
use probes::Probe;
use verdict::Refusal;

// ---- an answer's numbers

// A refusal: its number, and the number returned with it.
fn put_refused(out: &mut [u32; OUT], r: Refusal)
    requires { r.value ≤ 8192 }
    ensures { out.new ≡ written_over (number_of r.reason ∷ r.value ∷ []) out.old }
{
    put_refusal(out, r.reason.number(), r.value);
}

// A plan by its case. (A function of its own: within the call it slows the pass over the days by a tenth.)
fn put_planned(out: &mut [u32; OUT], p: Result<Totals, Refusal>)
    requires { SmallPlanned (planned_in p) }
    ensures { out.new ≡ written_over (numbers_of (planned_in p)) out.old }
{
    match p {
        Ok(t) => put_totals(out, t.waterings, t.net.0, t.gross.points()),
        Err(r) => put_refused(out, r),
    }
}

// A verdict alone.
fn put_verdict(out: &mut [u32; OUT], v: Result<(), Refusal>)
    requires { SmallVerdict (verdict_in v) }
    ensures { out.new ≡ written_over (verdicts.numbers_of (verdict_in v)) out.old }
{
    match v {
        Ok(()) => put_refusal(out, 0, 0),
        Err(r) => put_refused(out, r),
    }
}

// An entry call.
fn put_entry(role: u32, climate: &[u8], block: &[u8], area: &[u8], e: Entry, out: &mut [u32; OUT])
    ensures { out.new ≡ written_over (recorded_out (recorded_by role climate.now block.now area.now e)) out.old }
{
    match controller::record(role, climate, block, area, e) {
        Ok(stores) => put_stores(out, stores.bytes, stores.start, stores.count),
        Err(r) => put_refused(out, r),
    }
}

// A writer's answer by its case.
fn put_written(out: &mut [u32; OUT], w: Result<usize, Refusal>)
    requires { SmallWritten (written_in w) }
    ensures { out.new ≡ written_over (writer.numbers_of (written_in w)) out.old }
{
    match w {
        Ok(count) => put_size(out, count),
        Err(r) => put_refused(out, r),
    }
}

// A probe by its kind: 1 water content, 2 low supply voltage, any other number silent.
fn probe_of(kind: u32, x: f32) -> Probe
    ensures { result ≡ probe_of kind x }
{
    match kind {
        1 => Probe::Water(x),
        2 => Probe::Low(x),
        _ => Probe::Silent,
    }
}

// ---- the eleven calls

// Clean or torn: open day, depletion, waiting rain, waiting irrigation, season rain, irrigation, use, percolation, place, need, need and use of each
// stage, and how many places to set to FF and three places, highest first, which are 0 for roles 1 and 2. Refusals 20, and 1 to 9.
#[unsafe(no_mangle)]
pub extern "C" fn balladsky_open(
    role: u32,
    climate: &[u8],
    block: &[u8],
    area: &[u8],
    out: &mut [u32; OUT],
)
    ensures { out.new ≡ written_over (opened_out (opened_by role climate.now block.now area.now)) out.old }
{
    let opened = controller::open(role, climate, block, area);
    let places = opened.places;
    match opened.opening {
        Opening::Clean(l) => put_opening(out, 0, 0, l, places, opened.count),
        Opening::Torn(l, place) => put_opening(out, 10, place, l, places, opened.count),
        Opening::Refused(reason, value) => put_refused(out, Refusal { reason, value }),
    }
}

// Start, count, four bytes. Refusals 20, 21, and 1 to 14.
#[unsafe(no_mangle)]
pub extern "C" fn balladsky_rain(
    role: u32,
    climate: &[u8],
    block: &[u8],
    area: &[u8],
    amount: u32,
    out: &mut [u32; OUT],
)
    ensures { out.new ≡ written_over (recorded_out (recorded_by role climate.now block.now area.now (Water Rain amount))) out.old }
{
    put_entry(
        role,
        climate,
        block,
        area,
        Entry::Water(Source::Rain, amount),
        out,
    );
}

// Start, count, four bytes. Refusals 20, 21, and 1 to 14.
#[unsafe(no_mangle)]
pub extern "C" fn balladsky_irrigation(
    role: u32,
    climate: &[u8],
    block: &[u8],
    area: &[u8],
    amount: u32,
    out: &mut [u32; OUT],
)
    ensures { out.new ≡ written_over (recorded_out (recorded_by role climate.now block.now area.now (Water Irrigation amount))) out.old }
{
    put_entry(
        role,
        climate,
        block,
        area,
        Entry::Water(Source::Irrigation, amount),
        out,
    );
}

// Start, count, four bytes. Refusals 20, 21, 1 to 11, and 14.
#[unsafe(no_mangle)]
pub extern "C" fn balladsky_close(
    role: u32,
    climate: &[u8],
    block: &[u8],
    area: &[u8],
    out: &mut [u32; OUT],
)
    ensures { out.new ≡ written_over (recorded_out (recorded_by role climate.now block.now area.now Close)) out.old }
{
    put_entry(role, climate, block, area, Entry::Close, out);
}

// The season's loss, and the four stages'. Refusals 20, 1 to 9, 17 and 10.
#[unsafe(no_mangle)]
pub extern "C" fn balladsky_loss(
    role: u32,
    climate: &[u8],
    block: &[u8],
    area: &[u8],
    ky: u32,
    out: &mut [u32; OUT],
)
    ensures { out.new ≡ written_over (loss_numbers (loss_by role climate.now block.now area.now ky)) out.old }
{
    match controller::loss(role, climate, block, area, ky) {
        Ok(p) => put_losses(out, p),
        Err(r) => put_refused(out, r),
    }
}

// Waterings, net, gross; a depth for each remaining day in the lent buffer. Refusals 20, 1 to 11, 15 and 16.
#[unsafe(no_mangle)]
pub extern "C" fn balladsky_plan(
    role: u32,
    climate: &[u8],
    block: &[u8],
    area: &[u8],
    depths: &mut [u32],
    out: &mut [u32; OUT],
)
    ensures { (out.new, depths.new) ≡ planned_over out.old (planned_by role climate.now block.now area.now depths.old) }
{
    put_planned(out, controller::plan(role, climate, block, area, depths));
}

// The ledger's depletion and the measured one, by each probe's kind and value and a field capacity in ten-thousandths. Refusals 20,
// 1 to 11, 18 and 19.
#[unsafe(no_mangle)]
pub extern "C" fn balladsky_probe(
    role: u32,
    climate: &[u8],
    block: &[u8],
    area: &[u8],
    shallowkind: u32,
    shallow: f32,
    deepkind: u32,
    deep: f32,
    capacity: u32,
    out: &mut [u32; OUT],
)
    ensures { out.new ≡ written_over (probed_numbers (probed_by role climate.now block.now area.now (probe_of shallowkind shallow) (probe_of deepkind deep) capacity)) out.old }
{
    let above = probe_of(shallowkind, shallow);
    let below = probe_of(deepkind, deep);
    match controller::probe(role, climate, block, area, above, below, capacity) {
        Ok(d) => put_depletions(out, d.ledger, d.measured),
        Err(r) => put_refused(out, r),
    }
}

// Nothing beyond the verdict; five numbers a block in `answers`, and depths in the blocks' parts of the lent buffer. Refusals 20; 22; 1 to 4 of the
// climate sheet; block by block 1 to 11 and 15; 23.
#[unsafe(no_mangle)]
pub extern "C" fn balladsky_bank(
    role: u32,
    climate: &[u8],
    blocks: u32,
    limit: u32,
    lengths: &[u32],
    sheets: &[u8],
    areas: &[u8],
    depths: &mut [u32],
    answers: &mut [u32; ANSWERS],
    out: &mut [u32; OUT],
)
    ensures { (out.new, answers.new, depths.new) ≡ banked_over out.old (banked_by role climate.now blocks limit lengths.now sheets.now areas.now depths.old answers.old) }
{
    put_verdict(
        out,
        controller::bank(
            role, climate, blocks, limit, lengths, sheets, areas, depths, answers,
        ),
    );
}

// Rows; six numbers a row in the lent buffer. Refusals 20, 1 to 7, and 15.
#[unsafe(no_mangle)]
pub extern "C" fn balladsky_table(
    role: u32,
    climate: &[u8],
    block: &[u8],
    rows: &mut [u32],
    out: &mut [u32; OUT],
)
    ensures { (out.new, rows.new) ≡ tabled_over out.old (tabled_by role climate.now block.now rows.old) }
{
    match controller::table(role, climate, block, rows) {
        Ok(count) => put_size(out, count),
        Err(r) => put_refused(out, r),
    }
}

// Bytes; the climate sheet in the lent buffer. Refusals 20, 4 and 15.
#[unsafe(no_mangle)]
pub extern "C" fn balladsky_write_climate(
    role: u32,
    fields: &[u32; 24],
    climate: &mut [u8],
    out: &mut [u32; OUT],
)
    ensures { (out.new, climate.new) ≡ sheet_over out.old (climate_written_by role fields.now climate.old) }
{
    put_written(out, controller::write_climate(role, *fields, climate));
}

// Bytes; the block sheet in the lent buffer. Refusals 20, 4 to 7, and 15.
#[unsafe(no_mangle)]
pub extern "C" fn balladsky_write_block(
    role: u32,
    fields: &[u32; 17],
    block: &mut [u8],
    out: &mut [u32; OUT],
)
    ensures { (out.new, block.new) ≡ sheet_over out.old (block_written_by role fields.now block.old) }
{
    put_written(out, controller::write_block(role, *fields, block));
}
