// The decade table as text: fields parted by one space, each line ended by byte 0A, no header.
#![tactic(auto)]

ghost use Rattle.std.specs.Prelude.{◌≡◌, ◌+◌, ◌*◌, ◌≤◌, length, take};
ghost use Rattle.std.proofs.lemmas.List.Edits.{sets};
ghost use Rattle.printed.specs.Text.{decimal, cell, ending, cells, printed_to};

// Writes n's decimal digits from place at on; the place after them.
fn put_decimal(text: &mut [u8], at: usize, n: u64) -> usize
    requires { at + length (decimal n) ≤ length text.old }
    ensures { (result ≡ at + length (decimal n)) × (text.new ≡ sets text.old at (decimal n)) }
{
    if n < 10 {
        text[at] = 48 + n as u8;
        return at + 1;
    }
    let next = put_decimal(text, at, n / 10);
    text[next] = 48 + (n % 10) as u8;
    next + 1
}

// Writes a number and the byte that ends it.
fn put_cell(text: &mut [u8], at: usize, n: u64, end: u8) -> usize
    requires { at + length (cell n end) ≤ length text.old }
    ensures { (result ≡ at + length (cell n end)) × (text.new ≡ sets text.old at (cell n end)) }
{
    let next = put_decimal(text, at, n);
    text[next] = end;
    next + 1
}

// The byte that ends the number at place i of a table: a row has six.
fn ending_of(i: usize) -> u8
    ensures { result ≡ ending i }
{
    if i % 6 == 5 { 10 } else { 32 }
}

// Writes the first count numbers of a table, from the text's start; how many bytes.
fn put_cells(text: &mut [u8], rows: &[u32], count: usize) -> usize
    requires { (count ≤ length rows.now) × (count * 11 ≤ length text.old) }
    ensures { (result ≡ length (cells 0 (take count rows.now)))
        × (text.new ≡ sets text.old 0 (cells 0 (take count rows.now)))
        × (result ≤ count * 11) }
{
    let mut at: usize = 0;
    for (i, n) in rows[..count].iter().enumerate() {
        at = put_cell(text, at, *n as u64, ending_of(i));
    }
    at
}

// What the program prints of its input, a climate sheet and then a block sheet, from the start of a lent text; how many bytes. What stands beyond stays. The
// program looks: role 1. Every input's text fits in 4,096 bytes; to a text of fewer none is written. (The second `ensures` follows from the first: with it a
// caller lends the bytes with no proof.)
pub fn print_table(input: &[u8], text: &mut [u8]) -> usize
    ensures text_after { (result, text.new) ≡ printed_to input.now text.old }
    ensures upper_bound { (result ≤ length text.new) × (result ≡ length (take result text.new)) }
{
    if text.len() < 4096 {
        return 0;
    }
    let mut rows = [0u32; decades::MOST_NUMBERS];
    let at = sheet::climate_end(input);
    match controller::table(1, &input[..at], &input[at..], &mut rows) {
        Ok(count) => put_cells(text, &rows, count * 6),
        Err(refusal) => {
            let next = put_cell(text, 0, refusal.reason.number() as u64, 32);
            put_cell(text, next, refusal.value as u64, 10)
        }
    }
}
