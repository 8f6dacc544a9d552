// What bank answers (document 02, T-10): its verdict, or a number of `answers` or `depths`, which are all 8 and all 7
// before the call.
use crate::{rules, sheets, text, writing};
use bank::ANSWERS;
use trial::{count, get, put_behind};

// Sets numbers of a block, by the threes behind a line's first fourteen numbers: the block, counted from 1, which number,
// counted from 1, and its value.
fn set_own(own: &mut [u32], numbers: &[u32], block: u32) {
    for three in 0..27 {
        let field = if get(numbers, 14 + 3 * three) == block {
            get(numbers, 15 + 3 * three)
        } else {
            0
        };
        rules::set_field(own, field, get(numbers, 16 + 3 * three));
    }
}

// A block's numbers: its fields, 42 to 44 the lengths of its sheet, its journal and its part, 45 to 52 the journal's
// bytes. Those that a line does not set: the fields that stand, 16, 8 and 5, FF.
fn own_numbers(fields: [u32; 41], numbers: &[u32], block: u32) -> [u32; 52] {
    let mut own = [255u32; 52];
    own[41] = 16;
    own[42] = 8;
    own[43] = 5;
    writing::copy(&fields, 0, &mut own, 0, 41);
    set_own(&mut own, numbers, block);
    own
}

fn put_journal(own: &[u32], areas: &mut [u8], from: usize) {
    for i in 0..8 {
        put_behind(areas, from, i, text::byte(get(own, 44 + i)));
    }
}

// Lays forty-one blocks end to end, however many the call is told of.
fn lay_blocks(
    fields: [u32; 41],
    numbers: &[u32],
    lengths: &mut [u32],
    sheets: &mut [u8],
    areas: &mut [u8],
) {
    let mut sheet_at: usize = 0;
    let mut area_at: usize = 0;
    for k in 0..41u32 {
        let own = own_numbers(fields, numbers, k + 1);
        writing::copy(&own, 41, lengths, 3 * k as usize, 3);
        sheets::put_block(&own, sheets, sheet_at);
        put_journal(&own, areas, area_at);
        sheet_at = sheet_at.saturating_add(get(&own, 41) as usize);
        area_at = area_at.saturating_add(get(&own, 42) as usize);
    }
}

// How many numbers are no longer what all were.
fn changed(numbers: &[u32], was: u32) -> u64 {
    numbers.iter().filter(|n| **n != was).count() as u64
}

// 0 the verdict: 0, or the refusal's number × 1000 and the number returned with it; 1 and 2 the number at a place of
// `answers` and of `depths`; 3 how many numbers of both the call changed.
fn asked(
    climate: &[u8],
    numbers: &[u32],
    lengths: &[u32],
    sheets: &[u8],
    areas: &[u8],
    depths: &mut [u32],
    answers: &mut [u32; ANSWERS],
) -> u64 {
    let answer = controller::bank(
        get(numbers, 6),
        climate,
        get(numbers, 8),
        get(numbers, 9),
        lengths,
        sheets,
        areas,
        depths,
        answers,
    );
    let place = get(numbers, 5) as usize;
    match get(numbers, 4) {
        0 => sheets::code(answer),
        1 => get(answers, place) as u64,
        2 => get(depths, place) as u64,
        _ => changed(answers, 8).saturating_add(changed(depths, 7)),
    }
}

// A line's numbers are which number is asked and its place, the role, how many bytes the climate sheet has, the count of
// blocks, the limit, how much there is of lengths, sheets, areas and depths; and then what is a block's own.
pub fn number_of(climate: &[u8], fields: [u32; 41], numbers: &[u32]) -> u64 {
    let mut lengths = [0u32; 123];
    let mut sheets = [0xEEu8; 660];
    let mut areas = [0xEEu8; 330];
    let mut depths = [7u32; 210];
    let mut answers = [8u32; ANSWERS];
    lay_blocks(fields, numbers, &mut lengths, &mut sheets, &mut areas);
    let c = count(get(numbers, 7) as u64, climate);
    let l = count(get(numbers, 10) as u64, &lengths);
    let s = count(get(numbers, 11) as u64, &sheets);
    let a = count(get(numbers, 12) as u64, &areas);
    let d = count(get(numbers, 13) as u64, &depths);
    asked(
        &climate[..c],
        numbers,
        &lengths[..l],
        &sheets[..s],
        &areas[..a],
        &mut depths[..d],
        &mut answers,
    )
}
