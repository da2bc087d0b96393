// The checks that unsew begins with.
ghost use Rattle.model.specs.Checks.{in_order};
ghost use Rattle.answers.specs.Openings.{side_checks, Settles};

use crate::all::opening;
use crate::{Reason, Refused};

// Passes where the checks up to 7 pass for the side of d by link i, else the refusal. Whether 4 passes the caller says.
pub fn opening_side(n: u32, table: &[u32], journal: bool, i: u32, d: u32) -> Result<(), Refused>
    ensures { Settles result (in_order (side_checks journal n table.now i d)) }
{
    opening(n, table, true, journal)?;
    if i > n {
        return Err(Reason::OutOfRange.into());
    }
    if !reading::live(table, d) {
        return Err(Reason::NotLive.into());
    }
    Ok(())
}
