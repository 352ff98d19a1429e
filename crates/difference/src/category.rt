// The analyte categories, each with its constants.
ghost use Rattle.std.specs.Prelude.{◌≡◌};
ghost use Rattle.difference.specs.Contribution.{constants_of};

use crate::constants::{Constants, FOOD, RESIDUE};

// What an accreditation was granted for: food chemistry, or residues of one compound, by its number.
#[derive(Clone, Copy)]
pub enum Category {
    Food,
    Residue(u8),
}

impl Category {
    pub fn constants(self) -> Constants
        ensures { result ≡ constants_of self }
    {
        match self {
            Category::Food => FOOD,
            Category::Residue(_) => RESIDUE,
        }
    }
}
