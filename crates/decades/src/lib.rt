// The decade table of a season (document 01, 'Decade table').
#![tactic(auto)]

ghost use Rattle.std.specs.Prelude.{◌≡◌, cond, ◌++◌, ◌+◌, ◌-◌, ◌*◌, ◌≤◌, leb, length, drop};
ghost use Rattle.std.proofs.lemmas.List.Edits.{sets};
ghost use Rattle.season.specs.Sheet.{Valid};
ghost use Rattle.season.specs.Rules.{rain_to};
ghost use Rattle.season.specs.Carried.{OnDay};
ghost use Rattle.season.specs.Depths.{net_is};
ghost use Rattle.decades.specs.Table.{decade_of, same_decade, six, row_count, table, tabled, tabled_in};
ghost use Rattle.decades.specs.OpenRow.{row_of, decade_end, days_alike};

use season::{Net, Season, SeasonDay};
use verdict::{Reason, Refusal};

// The rows of the longest table.
pub const MOST_ROWS: u32 = 29;

// Its numbers: a buffer of so many has room for every table.
pub const MOST_NUMBERS: usize = 6 * MOST_ROWS as usize;

// A row, but for net and gross, which follow from it.
#[derive(Clone, Copy)]
struct Row {
    month: u32,
    decade: u32,
    need: u32,
    rain: u32,
}

// A number for each decade of a month.
fn by_decade(day: u32, first: u32, second: u32, third: u32) -> u32
    ensures { result ≡ cond (leb day 10) first (cond (leb day 20) second third) }
{
    match day {
        ..=10 => first,
        11..=20 => second,
        _ => third,
    }
}

fn decade_of(day: u32) -> u32
    ensures { result ≡ decade_of day }
{
    by_decade(day, 1, 2, 3)
}

fn same_decade(a: SeasonDay, b: SeasonDay) -> bool
    ensures { result ≡ same_decade a.month (decade_of a.day) b.month (decade_of b.day) }
{
    a.month == b.month && decade_of(a.day) == decade_of(b.day)
}

// The decade of the year, three a month.
fn decade_number(month: u32, day: u32) -> u32
    requires { month ≤ 12 }
    ensures { result ≡ 3 * month + decade_of day }
{
    3 * month + decade_of(day)
}

// A number in the order of the dates of a year.
fn date_number(month: u32, day: u32) -> u32
    requires { (month ≤ 12) × (day ≤ 31) }
    ensures { result ≡ 32 * month + day }
{
    32 * month + day
}

// How many rows the table has: one for each decade from the first day's to the last day's. A year has 36, and a season, shorter than a
// year, goes over the year's end where its last day comes before its first in the year.
fn row_count(s: Season) -> usize
    requires { Valid s }
    ensures { result ≡ row_count s }
{
    let last = season::day_of(s, season::season_days(s));
    let from = decade_number(s.month, s.first);
    let to = decade_number(last.month, last.day);
    if date_number(last.month, last.day) < date_number(s.month, s.first) {
        return (to + 37 - from) as usize;
    }
    (to + 1 - from) as usize
}

// The last day of a day's decade, in a month of 31 days.
fn decade_end(day: u32) -> u32
    ensures { result ≡ decade_end day }
{
    by_decade(day, 10, 20, 31)
}

// How many of the days after t are of its month, stage and decade.
fn days_alike(t: SeasonDay) -> u32
    ensures { result ≡ days_alike t }
{
    t.left.min(decade_end(t.day).saturating_sub(t.day))
}

// What is planned of the month's rain before a day.
fn rain_before(s: Season, t: SeasonDay) -> u32
    requires valid { Valid s }
    requires on_day { OnDay s t }
    ensures { result ≡ rain_to t.effective (t.day - 1) t.length }
{
    season::rain_to(s, t, t.day - 1)
}

// The row that ends with day t: the sum of its needs, and the planned rain of the month up to t but for what came before the row.
fn row_of(s: Season, t: SeasonDay, need: u32, before: u32) -> Row
    requires valid { Valid s }
    requires on_day { OnDay s t }
    requires before_bound { before ≤ rain_to t.effective t.day t.length }
    ensures { result ≡ row_of t need before }
{
    let decade = decade_of(t.day);
    let rain = season::rain_to(s, t, t.day) - before;
    Row {
        month: t.month,
        decade,
        need,
        rain,
    }
}

// The net depth of a row: its need less its planned rain, 0 where rain is more.
pub fn net_of(need: u32, rain: u32) -> Net
    ensures { result ≡ net_is (need - rain) }
{
    Net(need.saturating_sub(rain))
}

// Writes a row's six numbers from a place on.
fn put_row(out: &mut [u32], at: usize, efficiency: u32, row: Row)
    requires at_in_bounds { at + 6 ≤ length out.old }
    requires le_efficiency { (1 ≤ efficiency) × (efficiency ≤ 100) × (row.need ≤ 40000000) }
    ensures { out.new ≡ sets out.old at (six efficiency row) }
{
    let net = net_of(row.need, row.rain);
    let gross = season::gross_of(efficiency, net).points();
    let numbers = [row.month, row.decade, row.need, row.rain, net.0, gross];
    out[at..at + 6].copy_from_slice(&numbers);
}

// The rows, from the start of a buffer that has room for them: one pass over the days, by stretches of one month, stage and decade.
// Numbers beyond the rows stay.
fn fill_rows(s: Season, out: &mut [u32])
    requires valid { Valid s }
    requires s_in_bounds { row_count s * 6 ≤ length out.old }
    ensures { out.new ≡ table s ++ drop (row_count s * 6) out.old }
{
    let n = season::season_days(s);
    // t is a copy: a struct that a call writes stays in memory.
    let start = season::day_of(s, 1);
    let mut t = start;
    let mut need = season::crop_need(s, t);
    let mut before = rain_before(s, t);
    let mut at: usize = 0;
    loop {
        let days = days_alike(t);
        need += season::need_after(s, t, days);
        let last = season::further_on(s, t, days);
        if n <= last.number {
            put_row(out, at, s.efficiency, row_of(s, last, need, before));
            return;
        }
        // The day after. Within a month and a stage there are sums only, made in place: a struct handed to a call stays in memory.
        if 0 < last.left {
            t = season::further_on(s, last, 1);
        } else {
            let next = season::next_day(s, last);
            t = next;
        }
        let first = season::crop_need(s, t);
        if same_decade(last, t) {
            need += first;
        } else {
            put_row(out, at, s.efficiency, row_of(s, last, need, before));
            at += 6;
            need = first;
            before = rain_before(s, t);
        }
    }
}

// The decade table, six numbers a row, from the start of a lent buffer; refusal 15, before a number is written.
pub fn table(s: Season, out: &mut [u32]) -> Result<usize, Refusal>
    requires { Valid s }
    ensures { (tabled_in result, out.new) ≡ tabled s out.old }
{
    let count = row_count(s);
    if out.len() < count * 6 {
        return Err(Refusal {
            reason: Reason::BufferShort,
            value: 0,
        });
    }
    fill_rows(s, out);
    Ok(count)
}
