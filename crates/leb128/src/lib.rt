// Numbers in groups of seven bits (document 01, 'The season sheet'): lowest group first, with 0x80 added to each byte but the last.
// A number is read only if it takes as few groups as it can, and three bytes at most.
#![tactic(auto)]

ghost use Rattle.std.specs.Prelude.{◌≡◌, [], ◌∷◌, drop};
ghost use Rattle.leb128.specs.Groups.{group_count};
ghost use Rattle.leb128.specs.Forms.{groups_of, joined_of, decode, number_in};

// The number at the start of a slice, and how many bytes it takes.
#[derive(Clone, Copy, Debug, PartialEq, Eq)]
pub struct Decoded {
    pub number: u32,
    pub length: usize,
}

// Why there is none: the slice ends inside the number, or the place of the first byte that no number has there.
#[derive(Clone, Copy, Debug, PartialEq, Eq)]
pub enum NoNumber {
    Short,
    Bad(usize),
}

// The bytes of a number, of which there are `count`, with zeros behind them. (At most five, by value: there is no heap.)
#[derive(Clone, Copy)]
pub struct Groups {
    pub bytes: [u8; 5],
    pub count: u32,
}

// How many groups `n` takes: as many as its highest one bit needs, and 0 takes one.
pub fn group_count(n: u32) -> u32
    ensures { result ≡ group_count n }
{
    if n == 0 {
        1
    } else {
        (38 - u32::leading_zeros(n)) / 7
    }
}

// The groups of `n`, split off by masks and shifts. (The loop ends by what is left of n: a `for` over the places would test that too.)
pub fn split(n: u32) -> Groups
    ensures { result ≡ groups_of n }
{
    let count = group_count(n);
    let mut bytes = [0u8; 5];
    let mut rest = n;
    let mut i: usize = 0;
    while rest >= 0x80 {
        bytes[i] = ((rest & 0x7f) | 0x80) as u8;
        rest = rest >> 7;
        i += 1;
    }
    bytes[i] = rest as u8;
    Groups { bytes, count }
}

// The number that the groups of three bytes make, lowest first, joined by shifts and masks.
pub fn joined(a: u8, b: u8, c: u8) -> u32
    ensures { result ≡ joined_of a b c }
{
    ((a & 0x7f) as u32) | (((b & 0x7f) as u32) << 7) | (((c & 0x7f) as u32) << 14)
}

// The number at the start of three bytes. It has three groups at most, so each count is written out.
fn read_three(a: u8, b: u8, c: u8) -> Result<Decoded, NoNumber>
    ensures { number_in result ≡ decode (a ∷ b ∷ c ∷ []) }
{
    if a < 0x80 {
        return Ok(Decoded {
            number: a as u32,
            length: 1,
        });
    }
    if (0 < b) & (b < 0x80) {
        return Ok(Decoded {
            number: joined(a, b, 0),
            length: 2,
        });
    }
    if b == 0 {
        return Err(NoNumber::Bad(1));
    }
    if (0 < c) & (c < 0x80) {
        return Ok(Decoded {
            number: joined(a, b, c),
            length: 3,
        });
    }
    Err(NoNumber::Bad(2))
}

// The number at the start of `s`.
pub fn read(s: &[u8]) -> Result<Decoded, NoNumber>
    ensures { number_in result ≡ decode s.now }
{
    match s {
        [] => Err(NoNumber::Short),
        [first, ..] if *first < 0x80 => Ok(Decoded {
            number: *first as u32,
            length: 1,
        }),
        [_] => Err(NoNumber::Short),
        [first, second, ..] if (0 < *second) & (*second < 0x80) => Ok(Decoded {
            number: joined(*first, *second, 0),
            length: 2,
        }),
        [_, second, ..] if *second == 0 => Err(NoNumber::Bad(1)),
        [_, _] => Err(NoNumber::Short),
        [first, second, third, ..] => read_three(*first, *second, *third),
    }
}

// The number at a place of `s`; past the end there is none. Where three bytes stand there, no length is looked at again between them.
pub fn read_at(s: &[u8], at: usize) -> Result<Decoded, NoNumber>
    ensures { number_in result ≡ decode (drop at s.now) }
{
    match s.get(at..) {
        Some([a, b, c, ..]) => read_three(*a, *b, *c),
        Some(rest) => read(rest),
        None => Err(NoNumber::Short),
    }
}
