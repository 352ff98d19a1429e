#![tactic(auto)]

// Study sets: the sums of an analyte, and whether they pass. Document 01, "Stages".
ghost use Rattle.std.specs.Prelude.{◌≡◌};
ghost use Rattle.study.specs.Study.{passes_of};

// Of the differences d: the sum, the sum of the squares, and the sum of the measures. None yet are all 0.
#[derive(Clone, Copy, Default)]
pub struct Sums {
    pub s: i32,
    pub q: u32,
    pub g: u32,
}

// The lines of a set.
pub const LINES: u8 = 36;

// The spread weighs so much against the square of what the sum leaves.
const SPREAD_WEIGHT: u64 = 2601;

const ROOM_WEIGHT: u64 = 3500;

// What five times the sum, the spread and the measures may come to.
const BIAS: u64 = 1314;

const SPREAD: u64 = 166_635;

const DEVIATION: u32 = 18_000;

impl Sums {
    // Whether an analyte passes a full set. The square of the sum, which the spread subtracts, is added on the other side.
    #[tactic(auto, unfolding(crate::specs::Study::passes_of))]
    pub fn passes(self) -> bool
        ensures { result ≡ passes_of self }
    {
        let size = self.s.unsigned_abs() as u64;
        let Some(room) = BIAS.checked_sub(5 * size) else {
            return false;
        };
        let square = size * size;
        let spread = LINES as u64 * self.q as u64;
        SPREAD_WEIGHT * spread <= ROOM_WEIGHT * (room * room) + SPREAD_WEIGHT * square
            && spread <= SPREAD + square
            && self.g < DEVIATION
    }
}
