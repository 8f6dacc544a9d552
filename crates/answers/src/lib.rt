// An answer's numbers, written over the first numbers of the caller's array: document 01's number (0 accepted or clean, 10 torn, else the refusal), the number
// returned with it, then the answer. Numbers beyond the answer stay.
#![tactic(auto)]

ghost use Rattle.std.specs.Prelude.{◌≡◌, [], ◌∷◌, ◌++◌, ◌≤◌, get_or};
ghost use Rattle.journal.specs.Entries.{ledger_numbers};
ghost use Rattle.journal.specs.Loss.{loss_numbers, Parts};
ghost use Rattle.answers.specs.Over.{written_over};

use journal::{Ledger, Losses, Stages};

// How many numbers `out` has: those of the longest answer, an opening's.
pub const OUT: usize = 24;

// A refusal: its number, and the number returned with it.
pub fn put_refusal(out: &mut [u32; OUT], number: u32, value: usize)
    requires { value ≤ 8192 }
    ensures { out.new ≡ written_over (number ∷ value ∷ []) out.old }
{
    out[..2].copy_from_slice(&[number, value as u32]);
}

// Clean or torn, over the whole array: two numbers, the ledger's, then the count of an opening's stores and their three places.
pub fn put_opening(
    out: &mut [u32; OUT],
    number: u32,
    value: usize,
    l: Ledger,
    places: [usize; 3],
    count: usize,
)
    requires { (value ≤ 8192) × (l.place ≤ 8192) × (count ≤ 8192) × (get_or places 0 0 ≤ 8192) × (get_or places 1 0 ≤ 8192) × (get_or places 2 0 ≤ 8192) }
    ensures { out.new ≡ written_over (number ∷ value ∷ (ledger_numbers l ++ (count ∷ get_or places 0 0 ∷ get_or places 1 0 ∷ get_or places 2 0 ∷ []))) out.old }
{
    let Stages {
        initial,
        development,
        middle,
        late,
    } = l.stages;
    *out = [
        number,
        value as u32,
        l.day,
        l.depletion,
        l.waiting_rain,
        l.waiting_irrigation,
        l.rain,
        l.irrigation,
        l.used,
        l.percolation,
        l.place as u32,
        l.need,
        initial.need,
        initial.used,
        development.need,
        development.used,
        middle.need,
        middle.used,
        late.need,
        late.used,
        count as u32,
        places[0] as u32,
        places[1] as u32,
        places[2] as u32,
    ];
}

// Losses: the season's and the four stages'.
pub fn put_losses(out: &mut [u32; OUT], p: Losses)
    ensures { out.new ≡ written_over (loss_numbers (Parts p)) out.old }
{
    out[..7].copy_from_slice(&[0, 0, p.season, p.initial, p.development, p.middle, p.late]);
}

// An accepted entry: the start, the count and four bytes. (Number by number: eight copied at once go through the stack.)
pub fn put_stores(out: &mut [u32; OUT], bytes: [u8; 4], start: usize, count: usize)
    requires { (start ≤ 8192) × (count ≤ 8192) }
    ensures { out.new ≡ written_over (0 ∷ 0 ∷ start ∷ count ∷ get_or bytes 0 0 ∷ get_or bytes 1 0 ∷ get_or bytes 2 0 ∷ get_or bytes 3 0 ∷ []) out.old }
{
    out[0] = 0;
    out[1] = 0;
    out[2] = start as u32;
    out[3] = count as u32;
    out[4] = bytes[0] as u32;
    out[5] = bytes[1] as u32;
    out[6] = bytes[2] as u32;
    out[7] = bytes[3] as u32;
}

// A plan that is made: its totals.
pub fn put_totals(out: &mut [u32; OUT], waterings: u32, net: u32, gross: u32)
    ensures { out.new ≡ written_over (0 ∷ 0 ∷ waterings ∷ net ∷ gross ∷ []) out.old }
{
    out[..5].copy_from_slice(&[0, 0, waterings, net, gross]);
}

// Two depletions: the ledger's and the measured one.
pub fn put_depletions(out: &mut [u32; OUT], ledger: u32, measured: u32)
    ensures { out.new ≡ written_over (0 ∷ 0 ∷ ledger ∷ measured ∷ []) out.old }
{
    out[..4].copy_from_slice(&[0, 0, ledger, measured]);
}

// A table or a sheet that is made: how many rows or bytes.
pub fn put_size(out: &mut [u32; OUT], size: usize)
    requires { size ≤ 8192 }
    ensures { out.new ≡ written_over (0 ∷ 0 ∷ size ∷ []) out.old }
{
    out[..3].copy_from_slice(&[0, 0, size as u32]);
}
