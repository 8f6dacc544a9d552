// Refusal 22: how many blocks, the limit, and the lengths.
ghost use Rattle.std.specs.Prelude.{◌≡◌, ◌+◌, ◌*◌, ◌≤◌, ◌<◌, ltb, length};
ghost use Rattle.bank.specs.Blocks.{length_of, start_of, outside, bank_wrong};
ghost use Rattle.bank.specs.Carried.{Counted};

fn is_outside(n: u32) -> bool
    ensures { result ≡ outside n }
{
    !(1..=40).contains(&n)
}

// The length of a block's part in a column.
pub fn part_length(lengths: &[u32], column: usize, k: usize) -> usize
    requires { (column ≤ 2) × (k < 40) × (3 * k + column < length lengths.now) }
    ensures { result ≡ length_of lengths.now column k }
{
    lengths[3 * k + column] as usize
}

// Whether the parts of a column pass the end of a buffer of so many elements. Each length is held against what is left, and nothing is summed.
fn lengths_pass(lengths: &[u32], column: usize, blocks: usize, size: usize) -> bool
    requires column_bound { column ≤ 2 }
    requires counted { Counted blocks lengths.now }
    ensures { result ≡ ltb size (start_of lengths.now column blocks) }
{
    let mut left = size;
    for k in 0..blocks {
        let length = part_length(lengths, column, k);
        if left < length {
            return true;
        }
        left -= length;
    }
    false
}

// Refusal 22.
#[tactic(auto, unfolding(crate::specs::Blocks::bank_wrong))]
pub fn is_wrong(
    blocks: u32,
    limit: u32,
    lengths: &[u32],
    sheets: usize,
    areas: usize,
    depths: usize,
) -> bool
    ensures { result ≡ bank_wrong blocks limit lengths.now sheets areas depths }
{
    let count = blocks as usize;
    is_outside(blocks)
        || is_outside(limit)
        || lengths.len() < 3 * count
        || lengths_pass(lengths, 0, count, sheets)
        || lengths_pass(lengths, 1, count, areas)
        || lengths_pass(lengths, 2, count, depths)
}
