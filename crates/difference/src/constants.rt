// The analyte categories' numbers.

// The most analytes that a category has.
pub const ANALYTES: usize = 4;

// The charts of an analyte.
pub const EACH: u8 = 4;

// The charts of as many analytes.
pub const CHARTS: usize = EACH as usize * ANALYTES;

// What an analyte category goes by: how many analytes it has, and for the charts P and N of systematic
// difference the turning points, the shift and the limit, in tenths.
#[derive(Clone, Copy)]
pub struct Constants {
    pub analytes: u8,
    pub high: u8,
    pub low: u8,
    pub shift: u8,
    pub limit: u8,
}

// Food chemistry.
pub const FOOD: Constants = Constants {
    analytes: 4,
    high: 24,
    low: 16,
    shift: 4,
    limit: 52,
};

// Residues: one compound.
pub const RESIDUE: Constants = Constants {
    analytes: 1,
    high: 25,
    low: 15,
    shift: 5,
    limit: 48,
};
