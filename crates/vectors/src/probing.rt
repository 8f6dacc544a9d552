// What the product answers of soil probes, by the bits of their values.
use crate::sheets::{Lent, Sheets};
use crate::{roles, sheets};
use measuring::Depletions;
use probes::{NoContent, Probe};
use trial::get;

// A float by the upper and the lower sixteen bits of its pattern. A proved program makes no NaN of bits: each NaN's
// pattern stands for 0.0 / 0.0.
fn float_of(upper: u32, lower: u32) -> f32 {
    let bits = (upper & 0xffff) << 16 | lower & 0xffff;
    if bits & 0x7fff_ffff <= 0x7f80_0000 {
        return f32::from_bits(bits);
    }
    0.0 / 0.0
}

// A probe by its kind: 1 a water content, 2 a low supply voltage, else silent.
fn probe_of(kind: u32, upper: u32, lower: u32) -> Probe {
    let x = float_of(upper, lower);
    match kind {
        1 => Probe::Water(x),
        2 => Probe::Low(x),
        _ => Probe::Silent,
    }
}

// What two probes say: a content in ten-thousandths, or the refusal's number × 1000.
pub fn reading(numbers: &[u32]) -> u64 {
    let shallow = probe_of(get(numbers, 4), get(numbers, 5), get(numbers, 6));
    let deep = probe_of(get(numbers, 7), get(numbers, 8), get(numbers, 9));
    match probes::reading_of(shallow, deep) {
        Ok(content) => content as u64,
        Err(NoContent::Wrong) => 18000,
        Err(NoContent::Nothing) => 19000,
    }
}

// A number of what probe answers: 0 whether it refuses, 1 the ledger's depletion, 2 the measured one. Where it refuses,
// all are the refusal's number × 1000 and the number returned with it.
pub fn number_of(lent: Lent, numbers: &[u32]) -> u64 {
    let Sheets { climate, block } = lent.sheets;
    let shallow = probe_of(get(numbers, 5), get(numbers, 6), get(numbers, 7));
    let deep = probe_of(get(numbers, 8), get(numbers, 9), get(numbers, 10));
    let capacity = get(numbers, 11);
    match controller::probe(
        roles::LOOK,
        climate,
        block,
        lent.area,
        shallow,
        deep,
        capacity,
    ) {
        Ok(depletions) => depletion(get(numbers, 4), depletions),
        Err(refusal) => sheets::refusal_code(refusal),
    }
}

fn depletion(which: u32, depletions: Depletions) -> u64 {
    match which {
        1 => depletions.ledger as u64,
        2 => depletions.measured as u64,
        _ => 0,
    }
}
