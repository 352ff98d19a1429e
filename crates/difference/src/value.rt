// From the mean to the standardizing value. Document 01, "Standardizing value and difference".
ghost use Rattle.std.specs.Prelude.{◌≡◌};
ghost use Rattle.difference.specs.Difference.{value_of};

use crate::coefficient::Coefficient;
use crate::mean::Mean;
use crate::powers::power;
use crate::root::root;

// What a constant in the table of standardizing values is multiplied by, in ten-thousandths.
const CONSTANT: u32 = 10_000;

impl Mean {
    // The standardizing value, in ten-millionths of a percent.
    pub fn value(self) -> u32
        ensures { result ≡ value_of self.product self.analyte self.hundredths }
    {
        match self.coefficient() {
            Coefficient::Constant(k) => k * CONSTANT,
            Coefficient::P(k) => k * power((self.hundredths + 5) / 10),
            Coefficient::Q(k) => k * root(self.hundredths),
        }
    }
}
