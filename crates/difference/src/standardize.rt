// One reading on its own: its standardizing value, its difference and what it contributes.
ghost use Rattle.std.specs.Prelude.{◌≡◌};
ghost use Rattle.difference.specs.Standardize.{figures_of, standardized_for, standardized_of};

use crate::analyte::Analyte;
use crate::constants::FOOD;
use crate::contribution::Contributions;
use crate::difference::Difference;
use crate::distance::standardized;
use crate::mean::{Mean, bad_mean};
use field::class::Class;
use field::{MOST, product_row};
use rows::refusal::Refusal;

// What a reading comes to: the value in ten-millionths of a percent, the difference, and what it contributes
// to its analyte's four charts.
#[derive(Clone, Copy)]
pub struct Figures {
    pub value: u32,
    pub difference: Difference,
    pub contributions: Contributions,
}

impl Mean {
    // What a reading comes to.
    #[tactic(auto, using(crate::proofs::ValueLaws::value_positive))]
    fn figures(self, reading: u16) -> Figures
        ensures { result ≡ figures_of self.product self.analyte self.hundredths reading }
    {
        let value = self.value();
        let difference = standardized(reading, self.hundredths, value);
        Figures {
            value,
            difference,
            contributions: FOOD.contribute(difference),
        }
    }
}

// One reading of an analyte, by rows 5 to 7 of the table of refusals. What lasts of product, analyte and mean
// is a `Mean`; one struct of them and the reading would be made for this call, and taken apart in it.
#[tactic(auto, unfolding(crate::specs::Standardize::standardized_for), using(crate::proofs::MeanLaws::good_mean))]
pub fn standardize_for(
    product: u8,
    analyte: Analyte,
    mean: u16,
    reading: u16,
) -> Result<Figures, Refusal>
    ensures { result ≡ standardized_for product analyte mean reading }
{
    if product_row(product) {
        return Err(Refusal::Product);
    }
    if bad_mean(Class::of(product), analyte, mean) {
        return Err(Refusal::Mean);
    }
    if reading > MOST {
        return Err(Refusal::Reading);
    }
    let mean = Mean {
        product,
        analyte,
        hundredths: mean,
    };
    Ok(mean.figures(reading))
}

// The same of an analyte by its number: any byte, since row 5 answers for those that no analyte has.
pub fn standardize(product: u8, analyte: u8, mean: u16, reading: u16) -> Result<Figures, Refusal>
    ensures { result ≡ standardized_of product analyte mean reading }
{
    standardize_for(product, Analyte::try_from(analyte)?, mean, reading)
}
