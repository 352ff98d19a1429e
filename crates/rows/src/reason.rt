// What can stand for a refusal: its name, or its number.

ghost use Rattle.std.specs.Prelude.{◌≡◌};
ghost use Rattle.rows.specs.Refusal.{number_of};
ghost use Rattle.rows.specs.declared.refusal.Refusal as R;

use crate::refusal::Refusal;

pub trait Reason: Copy {
    ghost reason: { R.Refusal → Self };

    fn reason(refusal: Refusal) -> Self
        ensures { result ≡ reason refusal };
}

impl Reason for Refusal {
    ghost reason = { λ refusal. refusal };

    fn reason(refusal: Refusal) -> Refusal {
        refusal
    }
}

impl Reason for u8 {
    ghost reason = { number_of };

    fn reason(refusal: Refusal) -> u8 {
        u8::from(refusal)
    }
}
