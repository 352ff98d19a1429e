// The class of a product. Document 01, "The line".
ghost use Rattle.std.specs.Prelude.{◌≡◌};
ghost use Rattle.field.specs.Class.{class_of};

// Dry salami and pepperoni are of other meat.
#[derive(Clone, Copy, PartialEq, Eq)]
pub enum Class {
    CuredPork,
    GroundBeef,
    OtherMeat,
    Poultry,
}

impl Class {
    // Bits 0 and 1 of the product, whatever the others. No `From`: a product is more than its class.
    #[tactic(auto, unfolding(crate::specs::Class::class_of))]
    pub fn of(product: u8) -> Class
        ensures { result ≡ class_of product }
    {
        match product & 3 {
            0 => Class::CuredPork,
            1 => Class::GroundBeef,
            2 => Class::OtherMeat,
            _ => Class::Poultry,
        }
    }
}
