// The checks 1 to 4, and those of a map.
ghost use Rattle.model.specs.Checks.{in_order};
ghost use Rattle.answers.specs.Openings.{opening_checks, Settles};

use crate::broken::broken_rule;
use crate::{Reason, Refused};

// Passes where these checks pass, else the refusal. Whether 3 and 4 pass the caller says: true, if it has no marks or no
// journal.
pub fn opening(n: u32, table: &[u32], marks: bool, journal: bool) -> Result<(), Refused>
    ensures { Settles result (in_order (opening_checks marks journal n table.now)) }
{
    if !reading::dim_fits(n) {
        return Err(Reason::WrongDimension.into());
    }
    if !reading::table_fits(table) {
        return Err(Reason::WrongTableLength.into());
    }
    if !marks {
        return Err(Reason::WrongMarksLength.into());
    }
    if !journal {
        return Err(Reason::WrongJournal.into());
    }
    match reading::least_breaking(n, table) {
        Some(least) => Err(broken_rule(n, table, least)),
        None => Ok(()),
    }
}
