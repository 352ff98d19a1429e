// What a residue line holds.

// The record of one check sample of a compound. Its kind and compound are bytes, and no enums: `write`
// takes a record of any, and refuses it by rows 3 and 14.
#[derive(Clone, Copy)]
pub struct Record {
    pub kind: u8,
    pub year: u16,
    pub month: u8,
    pub days: u8,
    pub compound: u8,
    pub comparison: i16,
    // The result's log, in thousandths; none where it is lost.
    pub result: Option<i16>,
    pub count: u8,
}
