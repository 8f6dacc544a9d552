// What the product's writers make of a line's forty-one numbers: a climate sheet and a block sheet.
use crate::roles::LOOK;
use crate::sheets;
use trial::{get, put};
use verdict::Refusal;

// Copies so many numbers from a place on to a place and those behind it.
pub fn copy(from: &[u32], first: usize, to: &mut [u32], at: usize, count: usize) {
    for i in 0..count {
        let n = get(from, first.saturating_add(i));
        put(to, at.saturating_add(i), n);
    }
}

// Fields 10 to 33.
fn climate_of(fields: [u32; 41]) -> [u32; 24] {
    let mut climate = [0u32; 24];
    copy(&fields, 9, &mut climate, 0, 24);
    climate
}

// Fields 1 to 9 and 34 to 41.
fn block_of(fields: [u32; 41]) -> [u32; 17] {
    let mut block = [0u32; 17];
    copy(&fields, 0, &mut block, 0, 9);
    copy(&fields, 33, &mut block, 9, 8);
    block
}

// How many bytes a writer made, or the refusal's number × 1000 and the number returned with it.
fn code(made: Result<usize, Refusal>) -> u64 {
    match made {
        Ok(count) => count as u64,
        Err(refusal) => sheets::refusal_code(refusal),
    }
}

// A byte of a buffer, counted from 1; 0 past the end.
fn byte_at(buffer: &[u8], which: u32) -> u64 {
    let at = which.saturating_sub(1) as usize;
    buffer.get(at).copied().unwrap_or(0) as u64
}

// The same of the climate's writer in a lent buffer; or, where `which` is not 0, that byte of the buffer, counted from 1.
fn climate_in(role: u32, fields: [u32; 41], buffer: &mut [u8], which: u32) -> u64 {
    let made = code(controller::write_climate(role, climate_of(fields), buffer));
    if which == 0 {
        return made;
    }
    byte_at(buffer, which)
}

// The same of the block's.
fn block_in(role: u32, fields: [u32; 41], buffer: &mut [u8], which: u32) -> u64 {
    let made = code(controller::write_block(role, block_of(fields), buffer));
    if which == 0 {
        return made;
    }
    byte_at(buffer, which)
}

// The same of the climate's in a buffer of so many bytes EE, at most 73.
pub fn climate_in_room(role: u32, fields: [u32; 41], room: u32, which: u32) -> u64 {
    let mut buffer = [0xEEu8; 73];
    let n = trial::count(room as u64, &buffer);
    climate_in(role, fields, &mut buffer[..n], which)
}

// The same of the block's, at most 52.
pub fn block_in_room(role: u32, fields: [u32; 41], room: u32, which: u32) -> u64 {
    let mut buffer = [0xEEu8; 52];
    let n = trial::count(room as u64, &buffer);
    block_in(role, fields, &mut buffer[..n], which)
}

// 0 where both sheets are made, or the climate's refusal, else the block's: its number × 1000 and the number returned.
pub fn refusal(fields: [u32; 41]) -> u64 {
    let climate = climate_in_room(LOOK, fields, 73, 0);
    if 1000 <= climate {
        return climate;
    }
    let block = block_in_room(LOOK, fields, 52, 0);
    if 1000 <= block { block } else { 0 }
}
