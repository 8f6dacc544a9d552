// Document 01, 'The plan' and 'Decade table': net depths and gross depths are separate quantities.
ghost use Rattle.std.specs.Prelude.{◌≡◌, ◌≤◌};
ghost use Rattle.season.specs.Depths.{gross_of};

use crate::{Gross, Net};

// The efficiency rule, ceil(net × 100 / E): the only way from a net depth to a gross one.
pub fn gross_of(efficiency: u32, net: Net) -> Gross
    requires { (1 ≤ efficiency) × (efficiency ≤ 100) × (net.0 ≤ 40000000) }
    ensures { result ≡ gross_of efficiency net }
{
    Gross((net.0 * 100 + (efficiency - 1)) / efficiency)
}

impl Gross {
    pub fn points(self) -> u32
        ensures { result ≡ self.0 }
    {
        self.0
    }
}
