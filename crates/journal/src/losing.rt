// Yield lost (request T-03).
ghost use Rattle.std.specs.Prelude.{◌≡◌, ◌≤◌};
ghost use Rattle.season.specs.Loss.{ky_outside};
ghost use Rattle.journal.specs.Sums.{UsedAtMost};
ghost use Rattle.journal.specs.Loss.{loss_by, losses_of, lost_by, lost, lost_in};

use crate::calls::find;
use crate::{Ledger, Losses, Opening, StageSums};
use season::Accepted;
use verdict::{OrRefused, Reason, Refusal, refuse_if};

fn loss_of(ky: u32, p: StageSums) -> u32
    requires { (ky ≤ 200) × (p.used ≤ p.need) }
    ensures { result ≡ loss_by ky p }
{
    season::loss_of(ky, p.need, p.used)
}

// The season's loss and the stages', all by one Ky.
fn losses_of(ky: u32, l: Ledger) -> Losses
    requires { (ky ≤ 200) × UsedAtMost l }
    ensures { result ≡ losses_of ky l }
{
    let whole = StageSums {
        need: l.need,
        used: l.used,
    };
    let p = l.stages;
    let initial = p.initial;
    let development = p.development;
    let middle = p.middle;
    let late = p.late;
    Losses {
        season: loss_of(ky, whole),
        initial: loss_of(ky, initial),
        development: loss_of(ky, development),
        middle: loss_of(ky, middle),
        late: loss_of(ky, late),
    }
}

fn is_outside(ky: u32) -> bool
    ensures { result ≡ ky_outside ky }
{
    !(1..=200).contains(&ky)
}

// By a ledger whose journal is torn at a place, or is not: the first of refusals 17 and 10, or the losses.
fn lost_by(ky: u32, l: Ledger, torn: bool, place: usize) -> Result<Losses, Refusal>
    requires { UsedAtMost l }
    ensures { lost_in result ≡ lost_by ky l torn place }
{
    let outside = is_outside(ky);
    refuse_if(outside, Reason::YieldFactorOutside, 0).or_refused(torn, Reason::Torn, place)?;
    Ok(losses_of(ky, l))
}

// Refusals 8, 9, 17 and 10. It answers with all days closed too.
pub fn loss(s: Accepted, area: &[u8], ky: u32) -> Result<Losses, Refusal>
    ensures { lost_in result ≡ lost s.season area.now ky }
{
    match find(s, area) {
        Opening::Clean(l) => lost_by(ky, l, false, 0),
        Opening::Torn(l, place) => lost_by(ky, l, true, place),
        Opening::Refused(reason, value) => Err(Refusal { reason, value }),
    }
}
