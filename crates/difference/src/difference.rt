// The standardized difference, in tenths. Document 01, "Standardizing value and difference".
#[derive(Clone, Copy, Default)]
pub struct Difference {
    pub tenths: i32,
}
