// A quotient to the nearest whole. Document 01, "Standardizing value and difference".
ghost use Rattle.std.specs.Prelude.{◌≡◌, ◌<◌, ◌^◌};
ghost use Rattle.difference.specs.Difference.{nearest};

// a / b to the nearest whole, halves up.
pub fn nearest(a: u64, b: u64) -> u64
    requires { (a < 2 ^ 62) × (0 < b) × (b < 2 ^ 62) }
    ensures { result ≡ nearest a b }
{
    (2 * a + b) / (2 * b)
}
