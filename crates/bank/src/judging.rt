// What is judged of the blocks before anything is written.
ghost use Rattle.std.specs.Prelude.{◌≡◌, ◌≤◌, IfOk, length};
ghost use Rattle.verdict.specs.Refusals.{number_of, verdict_in};
ghost use Rattle.journal.specs.Opening.{opening};
ghost use Rattle.bank.specs.Blocks.{start_of};
ghost use Rattle.sheet.specs.Sheets.{accepted_climate};
ghost use Rattle.bank.specs.Judging.{no_standing, standing_on, stand_in, judged, only_judged, judging_in, other_start, blocks_in, judged_at, blocks_verdict, ReadClimate};
ghost use Rattle.bank.specs.Carried.{Counted, Noted};

use crate::lengths::part_length;
use crate::{Blocks, Judged, Kept, Stand, Start};
use season::Accepted;
use sheet::Climate;
use verdict::{OrRefused, Reason, Refusal, refuse_if};

// A journal that gives no ledger to plan from.
fn no_standing(refusal: Refusal) -> Stand
    ensures { stand_in result ≡ no_standing (number_of refusal.reason) refusal.value }
{
    Stand {
        verdict: Err(refusal),
        day: 0,
        kept: Kept {
            depletion: 0,
            waiting: 0,
        },
    }
}

// A block's journal, with room for so many depths: the first of refusals 8 to 11 and 15, and what its ledger has for a plan.
pub fn standing(s: Accepted, area: &[u8], room: usize) -> Stand
    ensures { stand_in result ≡ standing_on s.season room (opening s.season area.now) }
{
    match journal::find(s, area).clean() {
        Ok(l) => {
            let days = season::season_days(s.season);
            let closed = days < l.day;
            let left = (days + 1 - l.day) as usize;
            let short = room < left;
            let verdict = refuse_if(closed, Reason::AllDaysClosed, 0).or_refused(
                short,
                Reason::BufferShort,
                0,
            );
            Stand {
                verdict,
                day: l.day,
                kept: Kept {
                    depletion: l.depletion,
                    waiting: l.waiting_rain + l.waiting_irrigation,
                },
            }
        }
        Err(refusal) => no_standing(refusal),
    }
}

// One block: its sheet and its journal are read once each.
fn judge_block(climate: Climate, sheet: &[u8], area: &[u8], room: usize) -> Result<Judged, Refusal>
    requires { ReadClimate (accepted_climate climate) }
    ensures { judging_in result ≡ only_judged (judged (accepted_climate climate) sheet.now area.now room) }
{
    let season = sheet::read_season(climate, sheet)?;
    let stand = standing(Accepted { season }, area, room);
    stand.verdict?;
    Ok(Judged {
        start: Start {
            month: season.month,
            first: season.first,
            february: season.february,
            day: stand.day,
        },
        kept: stand.kept,
    })
}

// Whether two blocks differ in what refusal 23 compares.
fn other_start(a: Start, b: Start) -> bool
    ensures { result ≡ other_start a b }
{
    a != b
}

// All blocks, first block first: its refusal ends the judging. The open day; the depletion and the waiting water of each are kept. A block's start is held
// against the first one's, which is its own where there is none yet.
pub fn judge_blocks(b: Blocks<'_>, kept: &mut [Kept]) -> Result<u32, Refusal>
    requires read_climate { ReadClimate (accepted_climate b.climate) }
    requires le_count { (1 ≤ b.count) × (Counted b.count b.lengths.now) }
    requires parts_in_bounds { (start_of b.lengths.now 0 b.count ≤ length b.sheets.now) × (start_of b.lengths.now 1 b.count ≤ length b.areas.now) }
    requires kept_in_bounds { b.count ≤ length kept.old }
    ensures { (verdict_in result ≡ blocks_verdict (judged_at (blocks_in b.entry)) b.entry.count)
        × IfOk result (λ day. Noted (blocks_in b.entry) b.entry.count day kept.new) }
{
    let mut first: Option<Start> = None;
    let mut differ = false;
    let mut sheet_at: usize = 0;
    let mut area_at: usize = 0;
    for k in 0..b.count {
        let sheet_end = sheet_at + part_length(b.lengths, 0, k);
        let area_end = area_at + part_length(b.lengths, 1, k);
        let room = part_length(b.lengths, 2, k);
        let block = judge_block(
            b.climate,
            &b.sheets[sheet_at..sheet_end],
            &b.areas[area_at..area_end],
            room,
        )?;
        kept[k] = block.kept;
        let start = first.unwrap_or(block.start);
        differ |= other_start(start, block.start);
        first = Some(start);
        sheet_at = sheet_end;
        area_at = area_end;
    }
    refuse_if(differ, Reason::StartsDiffer, 0)?;
    Ok(first.unwrap().day)
}
