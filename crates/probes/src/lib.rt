// Soil probes (document 02, T-07): what a block's shallow and deep probe say of the water content, and the depletion that it means.
// Contents are ten-thousandths of the soil's volume.
#![tactic(auto)]

ghost use Rattle.std.specs.Prelude.{◌≡◌, true, ◌≤◌};
ghost use Rattle.probes.specs.Contents.{is_content, ten_thousandths, content_of, pair_of, single_of, reading_of, reading_in};
ghost use Rattle.probes.specs.Depletion.{measured};

// A probe answers a water content, its supply voltage where the battery is low, or nothing.
#[derive(Clone, Copy, Debug, PartialEq)]
pub enum Probe {
    Water(f32),
    Low(f32),
    Silent,
}

// Both probes' contents.
#[derive(Clone, Copy, Debug, PartialEq)]
pub struct Pair {
    pub shallow: f32,
    pub deep: f32,
}

// Why the probes say no content: one is no number from 0 to 1 (refusal 18); there is none (refusal 19).
#[derive(Clone, Copy, Debug, PartialEq, Eq)]
pub enum NoContent {
    Wrong,
    Nothing,
}

// ---- a content

// A content in ten-thousandths, from its bits: its value is `digits` × 2^(field − 150). Below a field of 87 it is less than 2^-40, and so no
// ten-thousandth; there a subnormal's missing leading digit makes no difference, and no shift reaches 64.
fn ten_thousandths(x: f32) -> u32
    requires { is_content x ≡ true }
    ensures { result ≡ ten_thousandths x }
{
    let bits = x.to_bits();
    let field = (bits & 0x7fff_ffff) >> 23;
    if field < 87 {
        return 0;
    }
    let digits = (bits & 0x7f_ffff) | 0x80_0000;
    let top = digits as u64 * 10000;
    (top >> (150 - field)) as u32
}

// Whether a content is a number from 0 to 1. No comparison holds of a NaN; -0.0 equals 0.0.
fn is_content(x: f32) -> bool
    ensures { result ≡ is_content x }
{
    0.0 <= x && x <= 1.0
}

fn content_of(x: f32) -> Result<u32, NoContent>
    ensures { reading_in result ≡ content_of x }
{
    if is_content(x) {
        return Ok(ten_thousandths(x));
    }
    Err(NoContent::Wrong)
}

// ---- both probes

// The floor of the mean of two contents.
fn pair_of(p: Pair) -> Result<u32, NoContent>
    ensures { reading_in result ≡ pair_of p }
{
    if is_content(p.shallow) && is_content(p.deep) {
        return Ok((ten_thousandths(p.shallow) + ten_thousandths(p.deep)) / 2);
    }
    Err(NoContent::Wrong)
}

// One probe. A low or a silent one has no content.
fn single_of(p: Probe) -> Result<u32, NoContent>
    ensures { reading_in result ≡ single_of p }
{
    match p {
        Probe::Water(x) => content_of(x),
        Probe::Low(_) | Probe::Silent => Err(NoContent::Nothing),
    }
}

// Both contents, or the one there is. (A match of the pair was tried, and the proof did not close.)
pub fn reading_of(shallow: Probe, deep: Probe) -> Result<u32, NoContent>
    ensures { reading_in result ≡ reading_of shallow deep }
{
    match shallow {
        Probe::Water(x) => match deep {
            Probe::Water(y) => pair_of(Pair {
                shallow: x,
                deep: y,
            }),
            Probe::Low(_) | Probe::Silent => content_of(x),
        },
        Probe::Low(_) | Probe::Silent => single_of(deep),
    }
}

// ---- the depletion

// Measured depletion, by the field capacity, the content, the day's root depth Z and total water T.
pub fn measured_depletion(capacity: u32, content: u32, root: u32, total: u32) -> u32
    requires { (capacity ≤ 6000) × (root ≤ 300) }
    ensures { result ≡ measured capacity content root total }
{
    (capacity.saturating_sub(content) * root / 10).min(total)
}
