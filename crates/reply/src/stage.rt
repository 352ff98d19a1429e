// The stages of a unit. Document 01, "Stages".
ghost use Rattle.std.specs.Prelude.{◌≡◌};
ghost use Rattle.reply.specs.Stage.{stage_byte};

use rows::numbered::Numbered;

// An applicant in the first set and in the second, accredited, on probation, and closed.
#[derive(Clone, Copy, Debug, PartialEq, Eq)]
pub enum Stage {
    Applicant = 0,
    Second = 1,
    Accredited = 2,
    Probation = 3,
    Closed = 4,
}

// The byte that the status shows.
impl From<Stage> for u8 {
    ghost from_gives = { λ stage byte. byte ≡ stage_byte stage };

    fn from(stage: Stage) -> u8 {
        stage as u8
    }
}

impl Numbered for Stage {
    ghost number = { stage_byte };

    fn number(self) -> u8 {
        u8::from(self)
    }
}
