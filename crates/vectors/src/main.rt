// Runs the printed tables of the sources and document 01's rules through the product and compares each figure at its
// precision.
//
// A line of a group's data is a figure: the printed figure, the tolerance (half its last digit, more where the inputs
// are themselves rounded), the reason why it differs (0: it agrees), the deviation, the inputs; a label behind ';'. The
// deviation is how far the printed figure is from what document 01's rule gives, by a separate reading of it; 0 where
// there is no reason. A figure with a reason must be off by more than the tolerance and by at most the deviation.
// A line that starts with '=' has the sheets that stand for the lines behind it, the forty numbers of a climate sheet and
// a block sheet by their fields, and then up to four bytes that the journal starts with; one that starts with '+' is a
// day; one that starts with '#' says where the figures are printed. February has 28 days there, and no forty-first number
// is written, unless a figure's inputs set field 41.
#![tactic(auto)]

mod banks;
mod ledger;
mod probing;
mod roles;
mod rules;
mod sheets;
mod text;
mod writing;

use std::io::Print;
use std::rt::Files;
use std::{fs, io};
use trial::{get, put};

// How many figures were compared, how many of them differ for a known reason, and how many are not as they should be.
#[derive(Clone, Copy)]
struct Tally {
    figures: u64,
    known: u64,
    wrong: u64,
}

// What a line was: no figure, one that agrees, one that differs as its reason says, or a mismatch.
#[derive(Clone, Copy)]
enum Outcome {
    Nothing,
    Agrees,
    Differs,
    Mismatch,
}

fn tally_of(figures: u64, known: u64, wrong: u64) -> Tally {
    Tally {
        figures,
        known,
        wrong,
    }
}

// The count of one line.
fn counted(o: Outcome) -> Tally {
    match o {
        Outcome::Nothing => tally_of(0, 0, 0),
        Outcome::Agrees => tally_of(1, 0, 0),
        Outcome::Differs => tally_of(1, 1, 0),
        Outcome::Mismatch => tally_of(1, 0, 1),
    }
}

impl Tally {
    fn and(self, t: Tally) -> Tally {
        Tally {
            figures: self.figures.saturating_add(t.figures),
            known: self.known.saturating_add(t.known),
            wrong: self.wrong.saturating_add(t.wrong),
        }
    }

    fn print(self, rt: &impl Print, what: &str) -> io::Result<()> {
        let Tally {
            figures,
            known,
            wrong,
        } = self;
        println!(rt;
            "{what}: {figures} figures compared, {known} differ for a known reason, {wrong} mismatches"
        )
    }

    // Runs a group and prints its count; the count of all so far.
    fn run<R: Files + Print>(self, rt: &R, path: &str, rule: u32) -> io::Result<Tally> {
        self.run_again(rt, path, rule, path)
    }

    // The same under another name, for a group that is asked a second question.
    fn run_again<R: Files + Print>(
        self,
        rt: &R,
        path: &str,
        rule: u32,
        name: &str,
    ) -> io::Result<Tally> {
        let group = read_group(rt, path, rule)?;
        group.print(rt, name)?;
        Ok(self.and(group))
    }
}

fn print_mismatch(rt: &impl Print, line: &[u8], numbers: &[u32], got: u64) -> io::Result<()> {
    print!(rt; "mismatch")?;
    text::print_label(rt, line)?;
    print!(rt; ": expected {}", get(numbers, 0))?;
    if get(numbers, 2) != 0 {
        // How far off a figure with a reason has to be.
        print!(rt;
            " off by more than {} and at most {}",
            get(numbers, 1),
            get(numbers, 3)
        )?;
    }
    println!(rt; ", got {got}")
}

// Whether a figure is off as its line says.
fn as_stated(numbers: &[u32], off: u64) -> bool {
    let tolerance = get(numbers, 1) as u64;
    let deviation = get(numbers, 3) as u64;
    if get(numbers, 2) == 0 {
        return off <= tolerance && deviation == 0;
    }
    tolerance < off && off <= deviation
}

// Compares the figure of a line with the product's answer.
fn compared(rt: &impl Print, line: &[u8], numbers: &[u32], got: u64) -> io::Result<Outcome> {
    if !as_stated(numbers, got.abs_diff(get(numbers, 0) as u64)) {
        print_mismatch(rt, line, numbers, got)?;
        return Ok(Outcome::Mismatch);
    }
    if get(numbers, 2) == 0 {
        return Ok(Outcome::Agrees);
    }
    Ok(Outcome::Differs)
}

// A line of figures or of a day, by a rule.
fn run_numbers(
    rt: &impl Print,
    line: &[u8],
    rule: u32,
    fields: [u32; 41],
    balance: &mut [u32; 6],
    area: &mut [u8; 1024],
) -> io::Result<Outcome> {
    let mut numbers = [0u32; 96];
    text::read_numbers(line, &mut numbers);
    if starts_with(line, b'+') {
        rules::run_day(rule, &numbers, fields, balance, area);
        return Ok(Outcome::Nothing);
    }
    if rule < rules::BALANCE {
        return compared(rt, line, &numbers, rules::answer(rule, &numbers, fields));
    }
    let got = rules::answer_after_days(rule, &numbers, fields, balance, area);
    compared(rt, line, &numbers, got)
}

fn starts_with(line: &[u8], b: u8) -> bool {
    line.first() == Some(&b)
}

// The journal that a line of sheets asks for: blank but for the bytes that stand there.
fn lay_journal(line: &[u8], area: &mut [u8; 1024]) {
    let mut numbers = [255u32; 44];
    text::read_numbers(line, &mut numbers);
    *area = [255; 1024];
    text::lay_bytes(&numbers, 40, &mut area[..4]);
}

// A line that starts with '=' has new sheets, on which no day is closed.
fn run_line(
    rt: &impl Print,
    line: &[u8],
    rule: u32,
    fields: &mut [u32; 41],
    balance: &mut [u32; 6],
    area: &mut [u8; 1024],
) -> io::Result<Outcome> {
    if line.is_empty() || starts_with(line, b'#') {
        return Ok(Outcome::Nothing);
    }
    if starts_with(line, b'=') {
        text::read_numbers(line, fields);
        put(fields, 40, 28);
        *balance = [0; 6];
        lay_journal(line, area);
        return Ok(Outcome::Nothing);
    }
    run_numbers(rt, line, rule, *fields, balance, area)
}

fn run_text(rt: &impl Print, data: &[u8], rule: u32) -> io::Result<Tally> {
    let mut fields = [0u32; 41];
    let mut balance = [0u32; 6];
    let mut area = [255u8; 1024];
    let mut all = tally_of(0, 0, 0);
    for line in data.split(|&b| b == b'\n') {
        let outcome = run_line(rt, line, rule, &mut fields, &mut balance, &mut area)?;
        all = all.and(counted(outcome));
    }
    Ok(all)
}

// The figures of a file, by a rule.
fn read_group<R: Files + Print>(rt: &R, path: &str, rule: u32) -> io::Result<Tally> {
    let mut file = fs::open(rt, path)?;
    let mut data = [0u8; 65536];
    let n = trial::read_full(&mut file, &mut data)?;
    run_text(rt, &data[..n], rule)
}

// Printed figures: the rules on numbers alone.
fn run_rules<R: Files + Print>(rt: &R, before: Tally) -> io::Result<Tally> {
    let all = before
        .run(rt, "effective_rain", rules::RAIN)?
        .run(rt, "gross", rules::GROSS)?
        .run(rt, "net", rules::NET)?
        .run(rt, "stress", rules::USE)?
        .run(rt, "yield_response", rules::LOSS)?;
    Ok(all)
}

// Printed figures: a season's days and their numbers.
fn run_days<R: Files + Print>(rt: &R, before: Tally) -> io::Result<Tally> {
    let all = before
        .run(rt, "lengths", rules::LENGTH)?
        .run(rt, "dates", rules::DATE)?
        .run(rt, "kc", rules::KC)?
        .run(rt, "mean_kc", rules::MEAN_KC)?
        .run(rt, "crop_need", rules::NEED)?
        .run(rt, "total_water", rules::TOTAL)?
        .run(rt, "percents", rules::PERCENT)?
        .run(rt, "ready_water", rules::READY)?;
    Ok(all)
}

// Printed figures: decade tables and intervals between waterings.
fn run_seasons<R: Files + Print>(rt: &R, before: Tally) -> io::Result<Tally> {
    let all = before
        .run(rt, "decade_rows", rules::ROWS)?
        .run(rt, "decade_cells", rules::CELL)?
        .run(rt, "month_sums", rules::SUM)?
        .run(rt, "intervals", rules::HELD)?;
    Ok(all)
}

// Printed figures whose bounds were set from the deviations seen.
fn run_bounded<R: Files + Print>(rt: &R, before: Tally) -> io::Result<Tally> {
    let all = before
        .run(rt, "decade_sums", rules::SUM)?
        .run(rt, "daily_balances", rules::BALANCE)?;
    Ok(all)
}

// Document 01's rules by a separate reading of them: what no source prints.
fn run_exact_rules<R: Files + Print>(rt: &R, before: Tally) -> io::Result<Tally> {
    let all = before
        .run(rt, "rule_rain", rules::RAIN)?
        .run(rt, "rule_ready", rules::READY)?
        .run(rt, "rule_gross", rules::GROSS)?
        .run(rt, "rule_use", rules::USE)?
        .run(rt, "rule_loss", rules::LOSS)?
        .run(rt, "rule_contents", rules::CONTENT)?
        .run(rt, "rule_refusals", rules::REFUSAL)?
        .run_again(
            rt,
            "rule_refusals",
            rules::WRITE,
            "rule_refusals, of the writers",
        )?
        .run(rt, "rule_bytes", rules::BYTES)?
        .run(rt, "rule_climate_writing", rules::CLIMATE)?
        .run(rt, "rule_block_writing", rules::BLOCK)?
        .run(rt, "rule_dates", rules::DATE)?
        .run(rt, "rule_journal", rules::JOURNAL)?
        .run(rt, "rule_losses", rules::JOURNAL)?
        .run(rt, "rule_probes", rules::PROBE)?
        .run(rt, "rule_roles", rules::ROLE)?
        .run(rt, "rule_bank", rules::BANK)?;
    Ok(all)
}

// Document 01's rules by a separate reading of them: whole seasons.
fn run_exact_seasons<R: Files + Print>(rt: &R, before: Tally) -> io::Result<Tally> {
    let all = before
        .run(rt, "season_climates", rules::CLIMATE)?
        .run(rt, "season_blocks", rules::BLOCK)?
        .run(rt, "season_rows", rules::ROWS)?
        .run(rt, "season_tables", rules::CELL)?
        .run(rt, "season_plans", rules::PLAN)?
        .run(rt, "season_depths", rules::DEPTH)?
        .run(rt, "season_journals", rules::JOURNAL)?
        .run(rt, "season_losses", rules::JOURNAL)?;
    Ok(all)
}

fn main(rt: HostRuntime) -> io::Result<()> {
    let rt = &rt;
    let none = tally_of(0, 0, 0);
    let printed = run_seasons(rt, run_days(rt, run_rules(rt, none)?)?)?;
    printed.print(rt, "printed, at the printed precision")?;
    let bounded = run_bounded(rt, none)?;
    bounded.print(rt, "printed, within bounds set from the deviations seen")?;
    let sheets = none
        .run(rt, "refusals", rules::REFUSAL)?
        .run_again(rt, "refusals", rules::WRITE, "refusals, of the writers")?
        .run(rt, "ky", rules::JOURNAL)?;
    sheets.print(
        rt,
        "printed sheets and Ky, accepted or refused by the documents' rules",
    )?;
    let exact = run_exact_seasons(rt, run_exact_rules(rt, none)?)?;
    exact.print(rt, "document 01's rules by a separate reading")?;
    printed.and(bounded).and(sheets).and(exact).print(rt, "all")
}
