// Up to forty blocks on one pump (document 02, T-10), planned one after another in the order given: a day on which `limit` of the earlier blocks water is
// no turn day for those behind them. All blocks are judged before anything is written. What a block's own refusal is to the bank, and where its parts
// lie, is in specs/.
#![tactic(auto)]

mod judging;
mod lengths;
mod planning;

ghost use Rattle.std.specs.Prelude.{◌≡◌, ◌≤◌, ◌<◌, length};
ghost use Rattle.bank.specs.Blocks.{start_of};
ghost use Rattle.verdict.specs.Refusals.{verdict_in};
ghost use Rattle.sheet.specs.Sheets.{accepted_climate};
ghost use Rattle.bank.specs.Judging.{blocks_in, ReadClimate};
ghost use Rattle.bank.specs.Banks.{progress, banked_on, banked};
ghost use Rattle.bank.specs.Carried.{Counted, bank_in, AllReady, left};

use judging::judge_blocks;
pub use judging::standing;
use lengths::is_wrong;
use planning::plan_blocks;
use sheet::Climate;
use verdict::{Reason, Refusal, refuse_if};

// How many numbers the array of answers has: five for each of forty blocks.
pub const ANSWERS: usize = 200;

// Blocks that refusal 22 leaves: the climate that all have, how many they are, three lengths a block, and their sheets and journals.
#[derive(Clone, Copy)]
struct Blocks<'a> {
    climate: Climate,
    count: usize,
    lengths: &'a [u32],
    sheets: &'a [u8],
    areas: &'a [u8],
}

// What a block's ledger has for its plan.
#[derive(Clone, Copy)]
pub struct Kept {
    pub depletion: u32,
    pub waiting: u32,
}

// What a block's journal says: the first of refusals 8 to 11 and 15 that applies; and its ledger's open day, depletion and waiting water, 0 where the
// journal is no clean one. (The verdict stands beside them: `standing_on` says what the ledger has where 11 or 15 refuse, too.)
#[derive(Clone, Copy)]
pub struct Stand {
    pub verdict: Result<(), Refusal>,
    pub day: u32,
    pub kept: Kept,
}

// What all blocks of a bank have in common: fields 1 and 2, February's days, and the open day.
#[derive(Clone, Copy, PartialEq)]
pub struct Start {
    pub month: u32,
    pub first: u32,
    pub february: u32,
    pub day: u32,
}

// A block that is judged, and not refused.
#[derive(Clone, Copy)]
pub struct Judged {
    pub start: Start,
    pub kept: Kept,
}

// The counts of valves used start at 0. (The array of zeros stands in a function of its own: it is written out in every goal behind it.)
fn plan_from_none(
    b: Blocks<'_>,
    limit: u32,
    today: u32,
    kept: &[Kept],
    depths: &mut [u32],
    answers: &mut [u32; ANSWERS],
)
    requires counted { Counted b.count b.lengths.now }
    requires parts_in_bounds { (start_of b.lengths.now 0 b.count ≤ length b.sheets.now) × (start_of b.lengths.now 2 b.count ≤ length depths.old) }
    requires kept_in_bounds { b.count ≤ length kept.now }
    requires all_ready { AllReady (bank_in (blocks_in b) limit today kept.now) b.lengths.now b.count }
    ensures { (answers.new, depths.new) ≡ left (progress (bank_in (blocks_in b.entry) limit today kept.now) b.entry.lengths.now answers.old depths.old b.entry.count) }
{
    let mut used = [0u32; season::LONGEST_SEASON];
    plan_blocks(b, limit, today, kept, &mut used, depths, answers);
}

// All blocks are judged, and then planned. What judging finds of each is kept for planning, which opens no journal.
fn plan_judged(
    b: Blocks<'_>,
    limit: u32,
    kept: &mut [Kept],
    depths: &mut [u32],
    answers: &mut [u32; ANSWERS],
) -> Result<(), Refusal>
    requires read_climate { ReadClimate (accepted_climate b.climate) }
    requires le_count { (1 ≤ b.count) × (Counted b.count b.lengths.now) }
    requires parts_in_bounds { (start_of b.lengths.now 0 b.count ≤ length b.sheets.now) × (start_of b.lengths.now 1 b.count ≤ length b.areas.now) × (start_of b.lengths.now 2 b.count ≤ length depths.old) }
    requires kept_in_bounds { b.count ≤ length kept.old }
    ensures { (verdict_in result, answers.new, depths.new) ≡ banked_on (blocks_in b.entry) b.entry.count limit depths.old answers.old }
{
    let today = judge_blocks(b, kept)?;
    plan_from_none(b, limit, today, kept, depths, answers);
    Ok(())
}

// Room for what is kept of each block.
fn plan_read(
    b: Blocks<'_>,
    limit: u32,
    depths: &mut [u32],
    answers: &mut [u32; ANSWERS],
) -> Result<(), Refusal>
    requires read_climate { ReadClimate (accepted_climate b.climate) }
    requires le_count { (1 ≤ b.count) × (Counted b.count b.lengths.now) }
    requires parts_in_bounds { (start_of b.lengths.now 0 b.count ≤ length b.sheets.now) × (start_of b.lengths.now 1 b.count ≤ length b.areas.now) × (start_of b.lengths.now 2 b.count ≤ length depths.old) }
    ensures { (verdict_in result, answers.new, depths.new) ≡ banked_on (blocks_in b.entry) b.entry.count limit depths.old answers.old }
{
    let mut kept = [Kept {
        depletion: 0,
        waiting: 0,
    }; 40];
    plan_judged(b, limit, &mut kept, depths, answers)
}

// The bank: a verdict on all, five numbers a block in `answers`, and each plan's depths from the start of the block's part. Refusals 22; 1 to 4 of the
// climate sheet; block by block 1 to 11 and 15; 23.
pub fn plan_bank(
    climate: &[u8],
    blocks: u32,
    limit: u32,
    lengths: &[u32],
    sheets: &[u8],
    areas: &[u8],
    depths: &mut [u32],
    answers: &mut [u32; ANSWERS],
) -> Result<(), Refusal>
    ensures { (verdict_in result, answers.new, depths.new) ≡ banked climate.now blocks limit lengths.now sheets.now areas.now depths.old answers.old }
{
    let wrong = is_wrong(
        blocks,
        limit,
        lengths,
        sheets.len(),
        areas.len(),
        depths.len(),
    );
    refuse_if(wrong, Reason::BankWrong, 0)?;
    let climate = sheet::read_climate(climate)?;
    let b = Blocks {
        climate,
        count: blocks as usize,
        lengths,
        sheets,
        areas,
    };
    plan_read(b, limit, depths, answers)
}
