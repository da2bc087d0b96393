// The checks that sheet, remove, split and insert begin with.
ghost use Rattle.std.specs.Prelude.{◌≡◌, true};
ghost use Rattle.model.specs.Map.{is_map};
ghost use Rattle.model.specs.Checks.{pass, in_order, dim_ok, table_ok, block_ok};
ghost use Rattle.answers.specs.Openings.{layer_checks, wall_checks, Settles};

use crate::all::opening;
use crate::{Reason, Refused};

// Passes where check 8 passes for a map, else the refusal.
fn blocks(n: u32, table: &[u32]) -> Result<(), Refused>
    requires { (dim_ok n ≡ pass) × (table_ok table.now ≡ pass) × (is_map n table.now ≡ true) }
    ensures { Settles result (block_ok n table.now) }
{
    match block_test::least_wrong(n, table) {
        Some(wrong) => Err(Refused {
            reason: Reason::NoBlockMap,
            place: wrong,
            count: 0,
        }),
        None => Ok(()),
    }
}

// Passes where the checks up to 8 pass for the layer of d, else the refusal. Whether 3 and 4 pass the caller says.
pub fn opening_layer(
    n: u32,
    table: &[u32],
    marks: bool,
    journal: bool,
    d: u32,
) -> Result<(), Refused>
    ensures { Settles result (in_order (layer_checks marks journal n table.now d)) }
{
    opening(n, table, marks, journal)?;
    if !reading::live(table, d) {
        return Err(Reason::NotLive.into());
    }
    blocks(n, table)
}

// The same for a call that has no dart.
pub fn opening_wall(n: u32, table: &[u32], marks: bool, journal: bool) -> Result<(), Refused>
    ensures { Settles result (in_order (wall_checks marks journal n table.now)) }
{
    opening(n, table, marks, journal)?;
    blocks(n, table)
}
