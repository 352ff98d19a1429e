// The coefficient of the standardizing value. Document 01, "Standardizing value and difference".
ghost use Rattle.std.specs.Prelude.{◌≡◌};
ghost use Rattle.difference.specs.Difference.{coefficient_of};

use crate::analyte::Analyte;
use crate::mean::Mean;
use field::class::Class;

// A coefficient in thousandths, by what it is multiplied by: 1, the protein power p, or the power q of fat and salt.
#[derive(Clone, Copy)]
pub enum Coefficient {
    Constant(u32),
    P(u32),
    Q(u32),
}

// Thousandths by analyte. Fat and salt have others in some ranges of the mean.
struct Thousandths {
    moisture: u32,
    protein: u32,
    fat: u32,
    salt: u32,
}

// By class, whose number is the place.
const COEFFICIENTS: [Thousandths; 4] = [
    // cured pork and canned ham
    Thousandths {
        moisture: 500,
        protein: 60,
        fat: 300,
        salt: 127,
    },
    // ground beef
    Thousandths {
        moisture: 710,
        protein: 60,
        fat: 350,
        salt: 127,
    },
    // other meat
    Thousandths {
        moisture: 570,
        protein: 60,
        fat: 300,
        salt: 127,
    },
    // poultry
    Thousandths {
        moisture: 570,
        protein: 60,
        fat: 300,
        salt: 127,
    },
];
// Fat below 12.5 percent, but for ground beef.
const LEAN: u32 = 260;
// Salt from 4 percent on in dry salami or pepperoni.
const DRY: u32 = 220;

impl Mean {
    // The coefficient and which power applies.
    #[tactic(auto, unfolding(crate::specs::Difference::coefficient_for, crate::specs::Difference::fat, crate::specs::Difference::salt))]
    pub fn coefficient(self) -> Coefficient
        ensures { result ≡ coefficient_of self.product self.analyte self.hundredths }
    {
        let class = Class::of(self.product);
        let k = &COEFFICIENTS[class as usize];
        match self.analyte {
            Analyte::Moisture => Coefficient::Constant(k.moisture),
            Analyte::Protein => Coefficient::P(k.protein),
            Analyte::Fat => match class {
                Class::GroundBeef => Coefficient::Q(k.fat),
                _ => match self.hundredths {
                    0..=1249 => Coefficient::Q(LEAN),
                    _ => Coefficient::Q(k.fat),
                },
            },
            Analyte::Salt => match self.hundredths {
                0..=99 => Coefficient::Constant(k.salt),
                100..=399 => Coefficient::Q(k.salt),
                _ => {
                    if self.product >> 7 != 0 {
                        Coefficient::Constant(DRY)
                    } else {
                        Coefficient::Q(k.salt)
                    }
                }
            },
        }
    }
}
