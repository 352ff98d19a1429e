#![tactic(auto)]

// One reading, or one result of residues, on its own: its standardizing value, its difference, and what it contributes to the charts. The categories.
pub mod analyte;
pub mod category;
mod coefficient;
pub mod constants;
pub mod contribution;
pub mod difference;
mod distance;
mod mean;
mod nearest;
mod powers;
pub mod residue;
mod root;
pub mod standardize;
mod value;
