// Histories of calls, the power cut after every single store of every call: each call's answer, and the opening and the losses after it, are
// compared with the model's. Role 2 enters and role 3 opens; a call by another role leaves the journal, and the model says so.
#![tactic(auto)]

mod compare;
mod cuts;
mod histories;
mod loose;
mod model;

use cuts::Sheets;
use std::io;
use std::io::Print;

// Prints how many calls of a history were cut; whether there was no difference.
fn report(rt: &impl Print, calls: u64, what: &str) -> io::Result<bool> {
    if calls == 0 {
        return Ok(false);
    }
    println!(rt; "{calls} calls cut: {what}")?;
    Ok(true)
}

// A history on the small pair of sheets.
fn cut_small(rt: &impl Print, size: u64, history: &[u32], what: &str) -> io::Result<bool> {
    let climate =
        b"\xf4\x03\x00\x00\x00\x00\x00\x00\x00\x00\x00\x00\x00\x00\x00\x00\x00\x00\x00\x00\x00\x00\x00\x00\x00";
    let block = b"\x01\x09\x01\x01\x01\x01\x28\x64\x3c\x64\x14\x14\x32\x4b\x00\x7f";
    let calls = cuts::cut_calls(
        rt,
        Sheets {
            climate,
            block,
            numbers: histories::SMALL,
        },
        size,
        history,
    )?;
    report(rt, calls, what)
}

fn cut_entries(rt: &impl Print) -> io::Result<bool> {
    let history = histories::ENTRIES;
    cut_small(rt, 64, &history, "entries of every size")
}

fn cut_rain_again(rt: &impl Print) -> io::Result<bool> {
    let history = histories::RAIN_AGAIN;
    cut_small(rt, 64, &history, "the same rain again")
}

fn cut_without_water(rt: &impl Print) -> io::Result<bool> {
    let history = histories::WITHOUT_WATER;
    cut_small(rt, 64, &history, "days without water")
}

// Seventeen numbers in the block sheet: February has 29 days.
fn cut_leap(rt: &impl Print) -> io::Result<bool> {
    let climate =
        b"\x00\xf4\x03\xe8\x07\x00\x00\x00\x00\x00\x00\x00\x00\x00\x00\x90\x4e\x90\x4e\x00\x00\x00\x00\x00\x00\x00\x00\x00";
    let block = b"\x02\x1b\x01\x01\x01\x01\x28\x64\x3c\x64\x14\x14\x32\x4b\x00\x7f\x1d";
    let history = histories::WITHOUT_WATER;
    let calls = cuts::cut_calls(
        rt,
        Sheets {
            climate,
            block,
            numbers: histories::LEAP,
        },
        64,
        &history,
    )?;
    report(rt, calls, "days without water, over the leap day")
}

fn cut_narrow(rt: &impl Print, size: u64, what: &str) -> io::Result<bool> {
    let history = histories::NARROW;
    cut_small(rt, size, &history, what)
}

// Days 1 to 131: a close of day 128 or later has three bytes.
fn cut_long(rt: &impl Print) -> io::Result<bool> {
    let climate =
        b"\xac\x02\xac\x02\xac\x02\xac\x02\xac\x02\xac\x02\xac\x02\xac\x02\xac\x02\xac\x02\xac\x02\xac\x02\x00\x00\x00\x00\x00\x00\x00\x00\x00\x00\x00\x00";
    let block = b"\x01\x01\x3c\x3c\x3c\x3c\x64\x64\x64\x64\x14\x14\x32\x4b\x00\x7f";
    let history = histories::long_history();
    let calls = cuts::cut_calls(
        rt,
        Sheets {
            climate,
            block,
            numbers: histories::LONG,
        },
        512,
        &history,
    )?;
    report(rt, calls, "131 days, past the 127th")
}

// Stops at the first difference.
fn main(rt: HostRuntime) -> io::Result<()> {
    if cut_entries(&rt)?
        && cut_rain_again(&rt)?
        && cut_without_water(&rt)?
        && cut_leap(&rt)?
        && cut_narrow(&rt, 7, "an area of 7 bytes")?
        && cut_narrow(&rt, 6, "an area of 6 bytes")?
        && cut_narrow(&rt, 0, "an area of no bytes")?
        && cut_long(&rt)?
    {
        println!(rt;
            "each after 0 to 3 stores, opened by roles 1 and 2, with no opening's stores done or an opening by role 3 cut after 0 to 3: no difference"
        )?;
    }
    Ok(())
}
