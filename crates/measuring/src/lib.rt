// What a block's soil probes say beside the ledger of its journal (document 02, T-07): the ledger's depletion and the measured one, or the first refusal
// that applies: 8 to 11, 18 and 19. It looks only: there are no stores.
#![tactic(auto)]

ghost use Rattle.std.specs.Prelude.{◌≡◌, ◌||◌, ◌≤◌};
ghost use Rattle.season.specs.Sheet.{Valid, DayOf};
ghost use Rattle.season.specs.Day.{root_on, total_on};
ghost use Rattle.journal.specs.Opening.{opening};
ghost use Rattle.probes.specs.Contents.{is_wrong, is_nothing, content_in, reading_in};
ghost use Rattle.probes.specs.Depletion.{measured};
ghost use Rattle.measuring.specs.Probing.{capacity_outside, probed_from, probed_on, probed_in};

use probes::NoContent;
use season::{Accepted, Season};
use verdict::{OrRefused, Reason, Refusal, refuse_if};

// What probe answers: the ledger's depletion and the measured one.
#[derive(Clone, Copy, Debug, PartialEq, Eq)]
pub struct Depletions {
    pub ledger: u32,
    pub measured: u32,
}

// A field capacity outside 1 to 6,000 ten-thousandths.
fn is_outside(capacity: u32) -> bool
    ensures { result ≡ capacity_outside capacity }
{
    !(1..=6000).contains(&capacity)
}

// Refusal 18: a wrong content, or a field capacity outside its range.
fn is_wrong(reading: Result<u32, NoContent>, capacity: u32) -> bool
    ensures { result ≡ (is_wrong (reading_in reading) || capacity_outside capacity) }
{
    matches!(reading, Err(NoContent::Wrong)) || is_outside(capacity)
}

// Refusal 19: no content.
fn is_nothing(reading: Result<u32, NoContent>) -> bool
    ensures { result ≡ is_nothing (reading_in reading) }
{
    matches!(reading, Err(NoContent::Nothing))
}

// The content, 0 where there is none.
fn content_in(reading: Result<u32, NoContent>) -> u32
    ensures { result ≡ content_in (reading_in reading) }
{
    reading.unwrap_or(0)
}

// Measured depletion on a season day, by its Z and T.
fn measured_on(s: Season, day: u32, capacity: u32, content: u32) -> u32
    requires valid { Valid s }
    requires day_of { DayOf s day }
    requires capacity_bound { capacity ≤ 6000 }
    ensures { result ≡ measured capacity content (root_on s day) (total_on s day) }
{
    let today = season::day_of(s, day);
    let root = season::root_depth(s, today);
    let total = season::total_on(s, today);
    probes::measured_depletion(capacity, content, root, total)
}

// By the open day and its depletion: the first of refusals 11, 18 and 19, or both depletions.
fn probed_from(
    s: Season,
    reading: Result<u32, NoContent>,
    capacity: u32,
    day: u32,
    depletion: u32,
) -> Result<Depletions, Refusal>
    requires valid { Valid s }
    requires le_day { 1 ≤ day }
    ensures { probed_in result ≡ probed_from s (reading_in reading) capacity day depletion }
{
    let closed = season::season_days(s) < day;
    let wrong = is_wrong(reading, capacity);
    let nothing = is_nothing(reading);
    refuse_if(closed, Reason::AllDaysClosed, 0)
        .or_refused(wrong, Reason::ProbeWrong, 0)
        .or_refused(nothing, Reason::NoContent, 0)?;
    let measured = measured_on(s, day, capacity, content_in(reading));
    Ok(Depletions {
        ledger: depletion,
        measured,
    })
}

// What the probes say, beside the ledger of a season's journal.
pub fn probe_season(
    s: Accepted,
    area: &[u8],
    reading: Result<u32, NoContent>,
    capacity: u32,
) -> Result<Depletions, Refusal>
    ensures { probed_in result ≡ probed_on s.season (reading_in reading) capacity (opening s.season area.now) }
{
    let l = journal::find(s, area).clean()?;
    probed_from(s.season, reading, capacity, l.day, l.depletion)
}
