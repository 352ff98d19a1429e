// The constants of a category, with what is known of every category's.

ghost use Rattle.std.specs.Prelude.{◌≡◌, ◌≤◌};
ghost use Rattle.difference.specs.Contribution.{ANALYTES as MOST_ANALYTES, constants_of};

use difference::category::Category;
use difference::constants::Constants;

// Constants whose analytes have room: no category has more than four.
#[derive(Clone, Copy)]
pub struct Known {
    pub constants: Constants,
    pub ghost few: { constants.analytes ≤ MOST_ANALYTES },
}

impl Known {
    // The constants of a category.
    pub fn of(category: Category) -> Known
        ensures { result.constants ≡ constants_of category }
    {
        Known {
            constants: category.constants(),
        }
    }
}
