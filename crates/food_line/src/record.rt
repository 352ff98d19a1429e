// What a line holds.

use field::Means;

// A reading of the analyser: a percent, nothing found, or lost.
#[derive(Clone, Copy)]
pub enum Reading {
    Percent(f32),
    NothingFound,
    Lost,
}

// The readings of the four analytes, as received.
#[derive(Clone, Copy)]
pub struct Readings {
    pub moisture: Reading,
    pub protein: Reading,
    pub fat: Reading,
    pub salt: Reading,
}

// The analyser record of one check sample. Its kind and product are bytes, and no enums: `write` takes a
// record of any, and refuses it by rows 3 and 5.
#[derive(Clone, Copy)]
pub struct Record {
    pub kind: u8,
    pub year: u16,
    pub month: u8,
    pub days: u8,
    pub product: u8,
    pub means: Means,
    pub readings: Readings,
}
