// The comparison mean of an analyte that a valid line can have. Document 01, "Refused", row 6.
ghost use Rattle.std.specs.Prelude.{◌≡◌};
ghost use Rattle.std.proofs.Props.{props};
ghost use Rattle.field.specs.Class.{class_of};
ghost use Rattle.difference.specs.Standardize.{least_mean, bad_mean};
ghost use Rattle.difference.specs.bounds.Means.{GoodMean};

use crate::analyte::Analyte;
use field::class::Class;
use field::{LEAST_BEEF_FAT, LEAST_PROTEIN, MOST};

// Of an analyte in a product, in hundredths of a percent.
#[derive(Clone, Copy)]
pub struct Mean {
    pub product: u8,
    pub analyte: Analyte,
    pub hundredths: u16,
    ghost good: { GoodMean (class_of product) analyte hundredths } by { Prim.hlevel props },
}

// The least mean of an analyte that a valid line of the class has.
#[tactic(auto, unfolding(crate::specs::Standardize::least_mean))]
fn least_mean(class: Class, analyte: Analyte) -> u16
    ensures { result ≡ least_mean class analyte }
{
    match analyte {
        Analyte::Protein => LEAST_PROTEIN,
        Analyte::Fat => match class {
            Class::GroundBeef => LEAST_BEEF_FAT,
            _ => 1,
        },
        Analyte::Moisture | Analyte::Salt => 0,
    }
}

// Row 6 for one mean.
#[tactic(auto, unfolding(crate::specs::Standardize::bad_mean))]
pub fn bad_mean(class: Class, analyte: Analyte, mean: u16) -> bool
    ensures { result ≡ bad_mean class analyte mean }
{
    (mean < least_mean(class, analyte)) | (mean > MOST)
}
