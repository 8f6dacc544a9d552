// Numbers: a quotient by a reciprocal, and a top that rises by a difference.
ghost use Rattle.std.specs.Prelude.{◌≡◌, ◌*◌, ◌<◌};
ghost use Rattle.season.specs.Carried.{reciprocal, scaled, raised, Raising};

// 2^44.
const SCALE: u64 = 17592186044416;

// The reciprocal of d on that scale: a product with it stands in place of a division by d.
pub fn reciprocal_of(d: u32) -> u64
    requires { 0 < d }
    ensures { result ≡ reciprocal d }
{
    SCALE / d as u64 + 1
}

// The same. A month of 30 or 31 days, and the 100 of a stage with one coefficient, make most days: their reciprocals are
// constants, since a division of 64 bits is slow on many processors.
pub fn usual_reciprocal_of(d: u32) -> u64
    requires { 0 < d }
    ensures { result ≡ reciprocal d }
{
    if d == 31 {
        return 567489872401;
    }
    if d == 30 {
        return 586406201481;
    }
    if d == 100 {
        return 175921860445;
    }
    reciprocal_of(d)
}

// x / d by the reciprocal of d, and x × y / d by y times it (`by_reciprocal`, proofs/Reciprocal.antt).
pub fn quotient(x: u32, reciprocal: u64) -> u32
    requires { x * reciprocal < 18446744073709551616 }
    ensures { result ≡ scaled x reciprocal }
{
    (x as u64 * reciprocal / SCALE) as u32
}

// `top` after so many days of `rise`: the difference may be negative, the sum is not.
pub fn raised(top: u32, rise: i32, days: u32) -> u32
    requires { Raising top rise days }
    ensures { result ≡ raised top rise days }
{
    (top as i32 + days as i32 * rise) as u32
}
