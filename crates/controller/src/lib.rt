// The calls that firmware and the tablet make (documents 01 and 02), on the bytes of a climate sheet and a block sheet, the journal's area and lent
// buffers. Each is made by a role, and gives the first refusal that applies, with document 01's number. Nothing here stores to the area: the stores are
// handed back, and the firmware does them in the order given. A public call judges the role and leaves the rest to a function without one.
#![tactic(auto)]

ghost use Rattle.std.specs.Prelude.{◌≡◌};
ghost use Rattle.verdict.specs.Refusals.{verdict_in};
ghost use Rattle.sheet.specs.Writing.{written_in};
ghost use Rattle.journal.specs.declared.Entry.TheVariants.{Water, Close};
ghost use Rattle.journal.specs.declared.Source.TheVariants.{Rain, Irrigation};
ghost use Rattle.journal.specs.Opening.{opening, opening_in};
ghost use Rattle.journal.specs.Calls.{recorded_in, opened_in};
ghost use Rattle.journal.specs.Loss.{lost_in};
ghost use Rattle.planner.specs.Answer.{planned_in};
ghost use Rattle.decades.specs.Table.{tabled_in};
ghost use Rattle.measuring.specs.Probing.{probed_in};
ghost use Rattle.controller.specs.Calls.{sheet_opened, sheet_recorded, sheet_lost, planned_on, sheet_planned, sheet_probed, sheet_tabled};
ghost use Rattle.controller.specs.Roles.{Says, opened_by, recorded_by, loss_by, planned_by, probed_by, banked_by, tabled_by, climate_written_by, block_written_by};

use bank::ANSWERS;
use journal::{Entry, Losses, Opened, Opening, Source, Stores};
use measuring::Depletions;
use planner::Totals;
use probes::Probe;
use season::Accepted;
use verdict::{Reason, Refusal, refuse_if};

// What the journal holds: clean or torn with its ledger, or a refusal; and the places of a torn part to set to FF, in this order.
fn sheet_opened(climate: &[u8], block: &[u8], area: &[u8]) -> Opened
    ensures { opened_in result ≡ sheet_opened climate.now block.now area.now }
{
    match sheet::read(climate, block) {
        Ok(season) => journal::open(season, area),
        Err(refusal) => journal::without_stores(refusal.into()),
    }
}

// The same without the places: no stores are made.
fn sheet_found(climate: &[u8], block: &[u8], area: &[u8]) -> Opening
    ensures { opening_in result ≡ (sheet_opened climate.now block.now area.now).opening }
{
    match sheet::read(climate, block) {
        Ok(season) => journal::find(season, area),
        Err(refusal) => refusal.into(),
    }
}

// An entry call on the sheets' bytes. (Two arms in place of `?`, which copies the season.)
fn sheet_recorded(climate: &[u8], block: &[u8], area: &[u8], e: Entry) -> Result<Stores, Refusal>
    ensures { recorded_in result ≡ sheet_recorded climate.now block.now area.now e }
{
    match sheet::read(climate, block) {
        Ok(season) => journal::record(season, area, e),
        Err(first) => Err(first),
    }
}

// Yield lost, by a yield response factor. (Two arms in place of `?`: must-fail/loss_place_dropped changes what one hands on.)
fn sheet_lost(climate: &[u8], block: &[u8], area: &[u8], ky: u32) -> Result<Losses, Refusal>
    ensures { lost_in result ≡ sheet_lost climate.now block.now area.now ky }
{
    match sheet::read(climate, block) {
        Ok(season) => journal::loss(season, area, ky),
        Err(refusal) => Err(refusal),
    }
}

// The plan of a season on its journal, from the open day on.
fn plan_season(s: Accepted, area: &[u8], depths: &mut [u32]) -> Result<Totals, Refusal>
    ensures { (planned_in result, depths.new) ≡ planned_on s.season depths.old (opening s.season area.now) }
{
    let l = journal::find(s, area).clean()?;
    if season::season_days(s.season) < l.day {
        return Err(Refusal {
            reason: Reason::AllDaysClosed,
            value: 0,
        });
    }
    planner::make_plan(
        s.season,
        l.day,
        l.depletion,
        l.waiting_rain + l.waiting_irrigation,
        depths,
    )
}

// The plan on the sheets' bytes.
fn sheet_planned(
    climate: &[u8],
    block: &[u8],
    area: &[u8],
    depths: &mut [u32],
) -> Result<Totals, Refusal>
    ensures { (planned_in result, depths.new) ≡ sheet_planned climate.now block.now area.now depths.old }
{
    let season = sheet::read(climate, block)?;
    plan_season(season, area, depths)
}

// What the probes say, on the sheets' bytes. (Two arms in place of `?`, which keeps a copy of the season on the stack.)
fn sheet_probed(
    climate: &[u8],
    block: &[u8],
    area: &[u8],
    shallow: Probe,
    deep: Probe,
    capacity: u32,
) -> Result<Depletions, Refusal>
    ensures { probed_in result ≡ sheet_probed climate.now block.now area.now shallow deep capacity }
{
    match sheet::read(climate, block) {
        Ok(season) => measuring::probe_season(
            season,
            area,
            probes::reading_of(shallow, deep),
            capacity,
        ),
        Err(first) => Err(first),
    }
}

// The decade table, on the sheets' bytes.
fn sheet_tabled(climate: &[u8], block: &[u8], rows: &mut [u32]) -> Result<usize, Refusal>
    ensures { (tabled_in result, rows.new) ≡ sheet_tabled climate.now block.now rows.old }
{
    let accepted = sheet::read(climate, block)?;
    decades::table(accepted.season, rows)
}

// ---- roles

// Who calls: one may look, one may also enter rain, irrigation and closings, one is also handed the mending stores of an opening.
#[derive(Clone, Copy, Debug, PartialEq, Eq)]
enum Role {
    Looks = 1,
    Enters = 2,
    Mends = 3,
}

// Refusal 20: a role outside 1 to 3.
impl TryFrom<u32> for Role {
    type Error = Refusal;

    ghost try_from_gives = { Says };

    #[tactic(auto, unfolding(journal::specs::Roles::look_lines, verdict::specs::Refusals::or_refused))]
    fn try_from(role: u32) -> Result<Role, Refusal> {
        match role {
            1 => Ok(Role::Looks),
            2 => Ok(Role::Enters),
            3 => Ok(Role::Mends),
            _ => Err(Refusal {
                reason: Reason::RoleOutside,
                value: 0,
            }),
        }
    }
}

// ---- the eleven calls

// What the journal holds: clean or torn with its ledger, or a refusal; and, for role 3, the places of a torn part to set to FF, in this order. Refusals 20,
// and 1 to 9.
pub fn open(role: u32, climate: &[u8], block: &[u8], area: &[u8]) -> Opened
    ensures { opened_in result ≡ opened_by role climate.now block.now area.now }
{
    match Role::try_from(role) {
        Ok(role) => if role == Role::Mends {
            sheet_opened(climate, block, area)
        } else {
            journal::without_stores(sheet_found(climate, block, area))
        },
        Err(outside) => journal::without_stores(outside.into()),
    }
}

// An entry call. Refusal 21 is role 1's.
pub fn record(
    role: u32,
    climate: &[u8],
    block: &[u8],
    area: &[u8],
    e: Entry,
) -> Result<Stores, Refusal>
    ensures { recorded_in result ≡ recorded_by role climate.now block.now area.now e }
{
    let role = Role::try_from(role)?;
    refuse_if(role == Role::Looks, Reason::RoleLooksOnly, 0)?;
    sheet_recorded(climate, block, area, e)
}

// Enters rain of the open day. Refusals 20, 21, and 1 to 14.
pub fn rain(
    role: u32,
    climate: &[u8],
    block: &[u8],
    area: &[u8],
    amount: u32,
) -> Result<Stores, Refusal>
    ensures { recorded_in result ≡ recorded_by role climate.now block.now area.now (Water Rain amount) }
{
    let entry = Entry::Water(Source::Rain, amount);
    record(role, climate, block, area, entry)
}

// Enters irrigation of the open day, a net amount. Refusals 20, 21, and 1 to 14.
pub fn irrigation(
    role: u32,
    climate: &[u8],
    block: &[u8],
    area: &[u8],
    amount: u32,
) -> Result<Stores, Refusal>
    ensures { recorded_in result ≡ recorded_by role climate.now block.now area.now (Water Irrigation amount) }
{
    let entry = Entry::Water(Source::Irrigation, amount);
    record(role, climate, block, area, entry)
}

// Closes the open day. Refusals 20, 21, 1 to 11, and 14.
pub fn close(role: u32, climate: &[u8], block: &[u8], area: &[u8]) -> Result<Stores, Refusal>
    ensures { recorded_in result ≡ recorded_by role climate.now block.now area.now Close }
{
    record(role, climate, block, area, Entry::Close)
}

// Yield lost in the season and in each stage, by a yield response factor in hundredths. Refusals 20, 1 to 9, 17 and 10.
pub fn loss(
    role: u32,
    climate: &[u8],
    block: &[u8],
    area: &[u8],
    ky: u32,
) -> Result<Losses, Refusal>
    ensures { lost_in result ≡ loss_by role climate.now block.now area.now ky }
{
    Role::try_from(role)?;
    sheet_lost(climate, block, area, ky)
}

// A depth for each remaining day, from the start of a lent buffer; entries beyond the days stay. Refusals 20, 1 to 11, 15 and 16.
pub fn plan(
    role: u32,
    climate: &[u8],
    block: &[u8],
    area: &[u8],
    depths: &mut [u32],
) -> Result<Totals, Refusal>
    ensures { (planned_in result, depths.new) ≡ planned_by role climate.now block.now area.now depths.old }
{
    Role::try_from(role)?;
    sheet_planned(climate, block, area, depths)
}

// The ledger's depletion, and the one that the block's probes mean by a field capacity in ten-thousandths. It looks only: there are no stores. Refusals
// 20, 1 to 11, 18 and 19.
pub fn probe(
    role: u32,
    climate: &[u8],
    block: &[u8],
    area: &[u8],
    shallow: Probe,
    deep: Probe,
    capacity: u32,
) -> Result<Depletions, Refusal>
    ensures { probed_in result ≡ probed_by role climate.now block.now area.now shallow deep capacity }
{
    Role::try_from(role)?;
    sheet_probed(climate, block, area, shallow, deep, capacity)
}

// Up to forty blocks planned on one pump, which feeds at most `limit` valves on a day (document 02, T-10): five numbers a block in `answers`, and each
// plan's depths from the start of the block's part of `depths`. `lengths` has three numbers a block: its sheet, its journal, its part. Refusals 20; 22;
// 1 to 4 of the climate sheet; block by block 1 to 11 and 15; 23. A block that can't be held is answered 16 in `answers`.
pub fn bank(
    role: u32,
    climate: &[u8],
    blocks: u32,
    limit: u32,
    lengths: &[u32],
    sheets: &[u8],
    areas: &[u8],
    depths: &mut [u32],
    answers: &mut [u32; ANSWERS],
) -> Result<(), Refusal>
    ensures { (verdict_in result, answers.new, depths.new) ≡ banked_by role climate.now blocks limit lengths.now sheets.now areas.now depths.old answers.old }
{
    Role::try_from(role)?;
    bank::plan_bank(
        climate, blocks, limit, lengths, sheets, areas, depths, answers,
    )
}

// The decade table, six numbers a row, from the start of a lent buffer; numbers beyond the rows stay. Refusals 20, 1 to 7, and 15.
pub fn table(role: u32, climate: &[u8], block: &[u8], rows: &mut [u32]) -> Result<usize, Refusal>
    ensures { (tabled_in result, rows.new) ≡ tabled_by role climate.now block.now rows.old }
{
    Role::try_from(role)?;
    sheet_tabled(climate, block, rows)
}

// The climate sheet of twenty-four numbers, from the start of a lent buffer; bytes beyond it stay. Refusals 20, 4 and 15.
pub fn write_climate(role: u32, fields: [u32; 24], climate: &mut [u8]) -> Result<usize, Refusal>
    ensures { (written_in result, climate.new) ≡ climate_written_by role fields climate.old }
{
    Role::try_from(role)?;
    sheet::write_climate(fields, climate)
}

// The block sheet of the tablet's seventeen numbers, likewise. Refusals 20, 4 to 7, and 15.
pub fn write_block(role: u32, fields: [u32; 17], block: &mut [u8]) -> Result<usize, Refusal>
    ensures { (written_in result, block.new) ≡ block_written_by role fields block.old }
{
    Role::try_from(role)?;
    sheet::write_block(fields, block)
}
