// The plans of judged blocks, one after another.
ghost use Rattle.std.specs.Prelude.{◌≡◌, [], ◌∷◌, ◌≤◌, ◌<◌, length, take, replicate};
ghost use Rattle.std.proofs.lemmas.List.Edits.{sets};
ghost use Rattle.season.specs.Sheet.{Valid, DayOf, longest_season};
ghost use Rattle.planner.specs.Choices.{irrigated};
ghost use Rattle.planner.specs.Outlook.{days_left};
ghost use Rattle.planner.specs.Answer.{answer_to, planned_in};
ghost use Rattle.planner.specs.Bank.{given};
ghost use Rattle.bank.specs.Blocks.{start_of};
ghost use Rattle.bank.specs.Judging.{blocks_in};
ghost use Rattle.bank.specs.Banks.{five, progress, add_used};
ghost use Rattle.bank.specs.Carried.{Counted, bank_in, AllReady, left, plan_left, days_taken, counts_seen, Counts, SmallDay};

use crate::lengths::part_length;
use crate::{ANSWERS, Blocks, Kept};
use planner::Totals;
use season::Season;
use verdict::Refusal;

// How many valves a depth takes.
fn valves_of(depth: u32) -> u32
    ensures { result ≡ irrigated (depth ∷ []) }
{
    if 0 < depth { 1 } else { 0 }
}

// Counts one valve more on each day that a plan waters. (Every count is stored, so that the loop goes four days at a time. It goes by the depths' index: for
// `used.iter_mut().zip(depths)` nothing says what the zip leaves in `used`.)
fn add_used(used: &mut [u32], depths: &[u32])
    requires counts { Counts used.old }
    requires depths_len_bound { length depths.now ≤ longest_season }
    ensures { used.new ≡ add_used used.old depths.now }
{
    for (i, d) in depths.iter().enumerate() {
        used[i] += valves_of(*d);
    }
}

// How many days of its part a block takes valves from: none where it is refused.
fn days_taken(planned: Result<Totals, Refusal>, days: usize) -> usize
    ensures { result ≡ days_taken (planned_in planned) days }
{
    match planned {
        Ok(_) => days,
        Err(_) => 0,
    }
}

// How many of the counts a block looks at: none where fewer blocks than the limit stand before it, since no day is full then.
fn counts_seen(k: usize, limit: u32, size: usize) -> usize
    ensures { result ≡ counts_seen k limit size }
{
    if k < limit as usize { 0 } else { size }
}

// One block on the turn days left to it, by the first `seen` counts. A plan that is made takes its valves; a refused one leaves the counts and its part.
fn plan_block(
    s: Season,
    today: u32,
    kept: Kept,
    limit: u32,
    seen: usize,
    used: &mut [u32],
    depths: &mut [u32],
) -> Result<Totals, Refusal>
    requires valid { Valid s }
    requires day_of { DayOf s today }
    requires depletion_bound { kept.depletion ≤ 120000 }
    requires today_in_bounds { days_left s today ≤ length depths.old }
    requires counts { Counts used.old }
    requires seen_le_longest_season { seen ≤ longest_season }
    ensures { ((planned_in result, depths.new) ≡ answer_to s.efficiency depths.old (plan_left s today kept.depletion kept.waiting (take seen used.old) limit))
        × (used.new ≡ add_used used.old (given (plan_left s today kept.depletion kept.waiting (take seen used.old) limit))) }
{
    let planned = planner::plan_left(
        s,
        today,
        kept.depletion,
        kept.waiting,
        &used[..seen],
        limit,
        depths,
    );
    let days = (season::season_days(s) + 1 - today) as usize;
    let count = days_taken(planned, days);
    add_used(used, &depths[..count]);
    planned
}

// Five numbers from a place on.
fn put_five(answers: &mut [u32; ANSWERS], at: usize, a: u32, b: u32, c: u32, d: u32, e: u32)
    requires { at ≤ 195 }
    ensures { answers.new ≡ sets answers.old at (a ∷ b ∷ c ∷ d ∷ e ∷ []) }
{
    answers[at] = a;
    answers[at + 1] = b;
    answers[at + 2] = c;
    answers[at + 3] = d;
    answers[at + 4] = e;
}

// A block's answer.
fn put_answer(answers: &mut [u32; ANSWERS], at: usize, planned: Result<Totals, Refusal>)
    requires at_bound { at ≤ 195 }
    requires small_day { SmallDay (planned_in planned) }
    ensures { answers.new ≡ sets answers.old at (five (planned_in planned)) }
{
    match planned {
        Ok(totals) => put_five(
            answers,
            at,
            0,
            0,
            totals.waterings,
            totals.net.0,
            totals.gross.points(),
        ),
        Err(refusal) => put_five(
            answers,
            at,
            refusal.reason.number(),
            refusal.value as u32,
            0,
            0,
            0,
        ),
    }
}

// All blocks, in the order given: each sheet is read again, each plan's answer and depths are put in their places.
pub fn plan_blocks(
    b: Blocks<'_>,
    limit: u32,
    today: u32,
    kept: &[Kept],
    used: &mut [u32],
    depths: &mut [u32],
    answers: &mut [u32; ANSWERS],
)
    requires counted { Counted b.count b.lengths.now }
    requires parts_in_bounds { (start_of b.lengths.now 0 b.count ≤ length b.sheets.now) × (start_of b.lengths.now 2 b.count ≤ length depths.old) }
    requires kept_in_bounds { b.count ≤ length kept.now }
    requires all_ready { AllReady (bank_in (blocks_in b) limit today kept.now) b.lengths.now b.count }
    requires used_value { used.old ≡ replicate longest_season 0 }
    ensures { (answers.new, depths.new) ≡ left (progress (bank_in (blocks_in b.entry) limit today kept.now) b.entry.lengths.now answers.old depths.old b.entry.count) }
{
    let mut sheet_at: usize = 0;
    let mut at: usize = 0;
    for k in 0..b.count {
        let sheet_end = sheet_at + part_length(b.lengths, 0, k);
        let end = at + part_length(b.lengths, 2, k);
        // Judging has read it: only an accepted sheet comes here.
        let season = sheet::read_season(b.climate, &b.sheets[sheet_at..sheet_end]).unwrap();
        let seen = counts_seen(k, limit, used.len());
        let planned = plan_block(
            season,
            today,
            kept[k],
            limit,
            seen,
            used,
            &mut depths[at..end],
        );
        put_answer(answers, 5 * k, planned);
        sheet_at = sheet_end;
        at = end;
    }
}
