// The first row of a table that fits: document 01, "Refused".

#![tactic(auto)]

pub mod numbered;
pub mod reason;
pub mod refusal;

ghost use Rattle.std.specs.Prelude.{◌≡◌};
ghost use Rattle.rows.specs.Rows.{first_row};

use refusal::Refusal;

// A row of a table: what stands for its refusal, its name or its number, and whether it fits.
#[derive(Clone, Copy)]
pub struct Row<R = Refusal> {
    pub refusal: R,
    pub fits: bool,
}

impl Row {
    // The row of a refusal, and whether it fits.
    pub fn new(refusal: Refusal, fits: bool) -> Row
        ensures { result ≡ record { refusal = refusal; fits = fits } }
    {
        Row { refusal, fits }
    }
}

// Nothing where no row fits, or what stands for the refusal of the first that does.
pub fn first_of_by<R: Copy>(rows: &[Row<R>]) -> Result<(), R>
    ensures { result ≡ first_row rows.now }
{
    for row in rows {
        if row.fits {
            return Err(row.refusal);
        }
    }
    Ok(())
}

// The same of rows by name, so that a call need not say what stands for a refusal.
pub fn first_of(rows: &[Row]) -> Result<(), Refusal>
    ensures { result ≡ first_row rows.now }
{
    first_of_by(rows)
}

#[cfg(test)]
mod tests {
    use super::*;

    // No row is there to say what stands for a refusal.
    #[test]
    fn none_of_no_rows(rt: HostRuntime) {
        assert!(rt; first_of(&[]).is_ok());
    }

    #[test]
    fn first_of_two_that_fit(rt: HostRuntime) {
        let rows = [
            Row::new(Refusal::Kind, false),
            Row::new(Refusal::Mean, true),
            Row::new(Refusal::Date, true),
        ];
        assert_eq!(rt; first_of(&rows), Err(Refusal::Mean));
    }
}
