// The two sheets of a season (document 02, T-08), read by document 01's rules: a climate sheet has twenty-four numbers one after another, a block
// sheet sixteen, or seventeen with the days of February (T-06); refusals 1 to 7. And both writers (T-02).
#![tactic(auto)]

ghost use Rattle.std.specs.Prelude.{◌+◌, ◌-◌, ◌≤◌, ◌≡◌, [], ◌++◌, length, take, drop, IfOk};
ghost use Rattle.std.proofs.lemmas.List.Edits.{sets};
ghost use Rattle.leb128.specs.Groups.{encode};
ghost use Rattle.verdict.specs.Refusals.{verdict_in};
ghost use Rattle.fields.specs.Refusals.{block_lines};
ghost use Rattle.sheet.specs.Numbers.{numbers_in, written};
ghost use Rattle.sheet.specs.Reading.{numbers_by, count_of};
ghost use Rattle.sheet.specs.Sheets.{then_refused, climate_by, climate_of, block_with, sheets_of, climate_end, accepted_climate, climate_in, season_in, sheet_in};
ghost use Rattle.sheet.specs.Writing.{sheet_fields, bytes_written, climate_written, fields_written, block_written, written_in};

use leb128::{Decoded, NoNumber};
use season::{Accepted, Season};
use verdict::{Reason, Refusal};

// The numbers of an accepted climate sheet, ETo and dependable rain by month.
#[derive(Clone, Copy)]
pub struct Climate {
    pub eto: [u32; 12],
    pub rain: [u32; 12],
}

// Bytes that every climate sheet fits in, and every block sheet.
pub const MOST_CLIMATE: usize = 60;

pub const MOST_BLOCK: usize = 27;

// ---- refusals 1 to 3

// Puts the numbers of a sheet into a lent buffer, as many as that has; or gives the first of refusals 1 to 3 that applies.
fn read_all(sheet: &[u8], fields: &mut [u32]) -> Result<usize, Refusal>
    ensures { numbers_by (length fields.old) fields.new result ≡ numbers_in (length fields.old) 0 sheet.now }
{
    let mut at: usize = 0;
    for field in fields.iter_mut() {
        match leb128::read_at(sheet, at) {
            Ok(Decoded { number, length }) => {
                *field = number;
                at += length;
            }
            Err(NoNumber::Short) => return Err(Refusal {
                reason: Reason::EndsEarly,
                value: sheet.len(),
            }),
            Err(NoNumber::Bad(offset)) => return Err(Refusal {
                reason: Reason::BadNumber,
                value: at + offset,
            }),
        }
    }
    if at < sheet.len() {
        return Err(Refusal {
            reason: Reason::BytesFollow,
            value: at,
        });
    }
    Ok(fields.len())
}

// The same, but that the sheet may end after a least count of numbers; and how many it has. One loop for all of them. (It and `read_all` read a number by
// two functions: a second call of either would keep it from being inlined.)
fn read_numbers(sheet: &[u8], least: usize, fields: &mut [u32]) -> Result<usize, Refusal>
    requires { least ≤ length fields.old }
    ensures { (numbers_by least fields.new result ≡ numbers_in least (length fields.old - least) sheet.now)
        × (count_of result ≤ length fields.old) }
{
    let mut at: usize = 0;
    for (k, field) in fields.iter_mut().enumerate() {
        match leb128::read(&sheet[at..]) {
            Ok(Decoded { number, length }) => {
                *field = number;
                at += length;
            }
            Err(NoNumber::Short) => {
                if k == least && sheet.len() <= at {
                    return Ok(k);
                }
                return Err(Refusal {
                    reason: Reason::EndsEarly,
                    value: sheet.len(),
                });
            }
            Err(NoNumber::Bad(place)) => return Err(Refusal {
                reason: Reason::BadNumber,
                value: at + place,
            }),
        }
    }
    if at < sheet.len() {
        return Err(Refusal {
            reason: Reason::BytesFollow,
            value: at,
        });
    }
    Ok(fields.len())
}

// ---- the climate sheet

// Twelve numbers from a place on.
fn months(c: &[u32], at: usize) -> [u32; 12]
    requires { at + 12 ≤ length c.now }
    ensures { result ≡ take 12 (drop at c.now) }
{
    let mut dozen = [0u32; 12];
    dozen.copy_from_slice(&c[at..at + 12]);
    dozen
}

// A climate sheet's numbers into a lent array; or the first of refusals 1 to 4 that applies.
fn fill_climate(sheet: &[u8], c: &mut [u32; 24]) -> Result<(), Refusal>
    ensures { climate_by c.new (verdict_in result) ≡ climate_of sheet.now }
{
    read_all(sheet, c)?;
    fields::judge_climate(c)
}

// A climate sheet: its numbers, or the first of refusals 1 to 4 that applies.
pub fn read_climate(sheet: &[u8]) -> Result<Climate, Refusal>
    ensures { climate_in result ≡ climate_of sheet.now }
{
    let mut c = [0u32; 24];
    fill_climate(sheet, &mut c)?;
    Ok(Climate {
        eto: months(&c, 0),
        rain: months(&c, 12),
    })
}

// ---- the block sheet

// A block sheet's numbers into a lent buffer, and how many it has; or the first of refusals 1 to 7 that applies to the block sheet.
fn fill_block(sheet: &[u8], block: &mut [u32]) -> Result<usize, Refusal>
    requires { (16 ≤ length block.old) × (length block.old ≤ 17) }
    ensures verdict { verdict_in result ≡ then_refused block_lines (numbers_in 16 (length block.old - 16) sheet.now) }
    ensures numbers { IfOk result (λ count. (16 ≤ count) × (count ≤ length block.old) × (take count block.new ≡ (numbers_in 16 (length block.old - 16) sheet.now).fields)) }
{
    let numbers = read_numbers(sheet, 16, block)?;
    fields::judge_block(&block[..numbers])?;
    Ok(numbers)
}

// The season of a climate and a block sheet, or the first of refusals 1 to 7 that applies to the block sheet.
pub fn read_season(climate: Climate, sheet: &[u8]) -> Result<Season, Refusal>
    ensures { season_in result ≡ block_with (accepted_climate climate) sheet.now }
{
    let mut block = [0u32; 17];
    let count = fill_block(sheet, &mut block)?;
    Ok(fields::season_of(climate.eto, climate.rain, &block[..count]))
}

// The season of what reading a climate sheet answered and a block sheet; or the climate's refusal, or the first of refusals 1 to 7 that applies to the
// block.
pub fn read_block(climate: Result<Climate, Refusal>, sheet: &[u8]) -> Result<Season, Refusal>
    ensures { season_in result ≡ block_with (climate_in climate) sheet.now }
{
    read_season(climate?, sheet)
}

// The season of a climate sheet and a block sheet, or the first of refusals 1 to 7 that applies. (It goes by the sheets' numbers: a `Result` of a climate
// or of a season is copied at each `?`.)
pub fn read(climate: &[u8], block: &[u8]) -> Result<Accepted, Refusal>
    ensures { sheet_in result ≡ sheets_of climate.now block.now }
{
    let mut c = [0u32; 24];
    fill_climate(climate, &mut c)?;
    let mut b = [0u32; 17];
    let count = fill_block(block, &mut b)?;
    let season = fields::season_of(months(&c, 0), months(&c, 12), &b[..count]);
    Ok(Accepted { season })
}

// Where the climate sheet ends in an input that holds a block sheet behind it: behind its twenty-fourth number, or at the input's end where those
// are not whole.
pub fn climate_end(input: &[u8]) -> usize
    ensures { result ≡ climate_end input.now }
{
    let mut numbers = [0u32; 24];
    match read_all(input, &mut numbers) {
        Ok(_) => input.len(),
        Err(refusal) => if refusal.reason == Reason::BytesFollow {
            refusal.value
        } else {
            input.len()
        },
    }
}

// ---- the writer

// Puts a number's bytes into a buffer from a place on; the place after them. (In place: leb128's `split` makes an array, to be copied.)
fn put_number(bytes: &mut [u8], at: usize, n: u32) -> usize
    requires { at + length (encode n) ≤ length bytes.old }
    ensures { (result ≡ at + length (encode n)) × (bytes.new ≡ sets bytes.old at (encode n)) }
{
    let mut rest = n;
    let mut i = at;
    while rest >= 0x80 {
        let next = i + 1;
        bytes[i] = ((rest & 0x7f) | 0x80) as u8;
        rest = rest >> 7;
        i = next;
    }
    bytes[i] = rest as u8;
    i + 1
}

// Puts numbers one after another into a buffer, from its start; how many bytes they take.
fn put_numbers(bytes: &mut [u8], numbers: &[u32]) -> usize
    requires { length (written numbers.now) ≤ length bytes.old }
    ensures { (result ≡ length (written numbers.now)) × (bytes.new ≡ sets bytes.old 0 (written numbers.now)) }
{
    let mut at: usize = 0;
    for n in numbers {
        at = put_number(bytes, at, *n);
    }
    at
}

// The bytes of some numbers, from the start of a lent buffer; what stands beyond them stays. Refusal 15 before a byte is stored there: a buffer
// that they always fit in is written in place, and for any other the bytes are made in an array first.
fn write_numbers(numbers: &[u32], most: usize, sheet: &mut [u8]) -> Result<usize, Refusal>
    requires { (length (written numbers.now) ≤ most) × (most ≤ 60) }
    ensures { (written_in result, sheet.new) ≡ bytes_written [] (written numbers.now) sheet.old }
{
    if most <= sheet.len() {
        return Ok(put_numbers(sheet, numbers));
    }
    let mut made = [0u8; MOST_CLIMATE];
    let count = put_numbers(&mut made, numbers);
    if sheet.len() < count {
        return Err(Refusal {
            reason: Reason::BufferShort,
            value: 0,
        });
    }
    sheet[..count].copy_from_slice(&made[..count]);
    Ok(count)
}

// The climate sheet of twenty-four numbers. Refusals 4 and 15.
pub fn write_climate(fields: [u32; 24], sheet: &mut [u8]) -> Result<usize, Refusal>
    ensures { (written_in result, sheet.new) ≡ climate_written fields sheet.old }
{
    fields::judge_climate(&fields)?;
    write_numbers(&fields, MOST_CLIMATE, sheet)
}

// The block sheet of sixteen or seventeen numbers. Refusals 4 to 7, and 15.
fn write_fields(fields: &[u32], sheet: &mut [u8]) -> Result<usize, Refusal>
    requires { (16 ≤ length fields.now) × (length fields.now ≤ 17) }
    ensures { (written_in result, sheet.new) ≡ fields_written fields.now sheet.old }
{
    fields::judge_block(fields)?;
    write_numbers(fields, MOST_BLOCK, sheet)
}

// How many of the tablet's seventeen numbers a block sheet has: a February of 28 days is left out.
fn sheet_count(fields: [u32; 17]) -> usize
    ensures { result ≡ length (sheet_fields fields) }
{
    if fields[16] == 28 { 16 } else { 17 }
}

// The block sheet of the tablet's seventeen numbers.
pub fn write_block(fields: [u32; 17], sheet: &mut [u8]) -> Result<usize, Refusal>
    ensures { (written_in result, sheet.new) ≡ block_written fields sheet.old }
{
    let count = sheet_count(fields);
    write_fields(&fields[..count], sheet)
}
