// The analytes of food chemistry.
ghost use Rattle.std.specs.Prelude.{◌≡◌};
ghost use Rattle.difference.specs.Analyte.{analyte_of};

use rows::refusal::Refusal;

#[derive(Clone, Copy)]
pub enum Analyte {
    Moisture,
    Protein,
    Fat,
    Salt,
}

// By its number. One that no line has counts as row 5.
#[tactic(auto, unfolding(crate::specs::Analyte::analyte_of))]
impl TryFrom<u8> for Analyte {
    type Error = Refusal;

    ghost try_from_gives = { λ number answer. answer ≡ analyte_of number };

    fn try_from(number: u8) -> Result<Analyte, Refusal> {
        match number {
            0 => Ok(Analyte::Moisture),
            1 => Ok(Analyte::Protein),
            2 => Ok(Analyte::Fat),
            3 => Ok(Analyte::Salt),
            _ => Err(Refusal::Product),
        }
    }
}
