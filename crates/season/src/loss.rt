// Request T-03: yield lost to stress.
ghost use Rattle.std.specs.Prelude.{◌≡◌, ◌≤◌};
ghost use Rattle.season.specs.Loss.{loss_of};

// The loss in ten-thousandths by a yield response factor in hundredths, where so much of the need was used. The product is of 64 bits, and the
// quotient is held to 10,000 before it is narrowed.
pub fn loss_of(ky: u32, need: u32, used: u32) -> u32
    requires { (ky ≤ 200) × (used ≤ need) }
    ensures { result ≡ loss_of ky need used }
{
    if need == 0 {
        return 0;
    }
    let loss = 100 * ky as u64 * (need - used) as u64 / need as u64;
    if 10000 < loss {
        return 10000;
    }
    loss as u32
}
