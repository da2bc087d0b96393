// The block test: the least slot in a wrong cell. Each cell is tested once.
#![tactic(auto)]

ghost use Rattle.std.specs.Prelude.{◌≡◌, true, ℕ, ◌<◌, ◌≤◌, length, get_or};
ghost use Rattle.model.specs.Table.{slots};
ghost use Rattle.model.specs.Map.{is_map};
ghost use Rattle.model.specs.Cell.{cell_size, cell_of, good_cell, in_wrong_cell, least_wrong, is_block};
ghost use Rattle.model.specs.Checks.{pass, dim_ok, table_ok};
ghost use Rattle.model.specs.Meaning.Maps.{MapTable};
ghost use Rattle.reading.specs.Found.{found_below};
ghost use Rattle.cells.specs.Listing.{MapDart};
ghost use Rattle.block_test.specs.Seen.{seen_with, SeenGood};

use cells::cell;
use good_cells::is_good;
use reading::{LARGE, MIDDLE, SMALL, UNUSED, link_in, slots};

// Marks the darts as seen.
fn mark(seen: &mut [u8], darts: &[u32])
    requires { (k : ℕ) → k < length darts.now → get_or darts.now k 0 < length seen.old }
    ensures { seen.new ≡ seen_with seen.old darts.now }
{
    for &x in darts {
        seen[x as usize] = 1;
    }
}

// Whether the cell of d is good. If so, its darts are marked as seen.
fn visit<const N: u32, const SIZE: usize>(table: &[u32], seen: &mut [u8], d: u32) -> bool
    requires { (MapDart N table.now d) × (SeenGood N table.now seen.old) × (SIZE ≡ cell_size N) }
    ensures value { result ≡ good_cell N table.now (cell_of N table.now d) }
    ensures seen_good { SeenGood N table.now seen.new }
{
    let cell = cell::<N, SIZE>(table, d);
    if !is_good::<N, SIZE>(table, d, cell) {
        return false;
    }
    mark(seen, &cell);
    true
}

// Whether the slot d is a dart of a wrong cell. No seen dart is; a good cell that is met is marked as seen. In a map a slot
// is unused if its link 0 is 4294967295.
fn in_wrong_cell(n: u32, table: &[u32], seen: &mut [u8], d: u32) -> bool
    requires { (MapTable n table.now) × (SeenGood n table.now seen.old) × (d < slots table.now) }
    ensures value { result ≡ in_wrong_cell n table.now d }
    ensures seen_good { SeenGood n table.now seen.new }
{
    if seen[d as usize] != 0 {
        return false;
    }
    if link_in(table, 0, d) == UNUSED {
        return false;
    }
    if n == 2 {
        return !visit::<2, 8>(table, seen, d);
    }
    !visit::<3, 48>(table, seen, d)
}

// The least live slot in a wrong cell, if there is one. Each cell is tested once; no slot is marked as seen before.
fn first_wrong(n: u32, table: &[u32], seen: &mut [u8]) -> Option<u32>
    requires n_value { (dim_ok n ≡ pass) × (table_ok table.now ≡ pass) × (is_map n table.now ≡ true) }
    requires table_in_bounds { (slots table.now ≤ length seen.old) × ((k : ℕ) → k < length seen.old → get_or seen.old k 0 ≡ 0) }
    ensures { result ≡ found_below (slots table.now) (least_wrong n table.now) }
{
    // a loop: the closure of `find` would change the marks that it is handed, and no proof goes through a chain with such a closure
    for d in 0..slots(table) {
        if in_wrong_cell(n, table, seen, d) {
            return Some(d);
        }
    }
    None
}

// The same of a larger table, of at most so many slots. Each size has a stack frame of its own, which smaller tables do not pay for.
#[inline(never)]
fn least_wrong_with<const SLOTS: usize>(n: u32, table: &[u32]) -> Option<u32>
    requires checked { (dim_ok n ≡ pass) × (table_ok table.now ≡ pass) × (is_map n table.now ≡ true) }
    requires room { (slots table.now ≤ SLOTS) × (SLOTS ≤ 65536) }
    ensures { result ≡ found_below (slots table.now) (least_wrong n table.now) }
{
    let mut seen = [0u8; SLOTS];
    first_wrong(n, table, &mut seen)
}

// The least live slot in a wrong cell, if there is one.
pub fn least_wrong(n: u32, table: &[u32]) -> Option<u32>
    requires { (dim_ok n ≡ pass) × (table_ok table.now ≡ pass) × (is_map n table.now ≡ true) }
    ensures { result ≡ found_below (slots table.now) (least_wrong n table.now) }
{
    let size = slots(table) as usize;
    if size <= SMALL {
        // not least_wrong_with::<SMALL>, whose frame takes 16 bytes of stack more than the header gives
        let mut seen = [0u8; SMALL];
        return first_wrong(n, table, &mut seen);
    }
    if size <= MIDDLE {
        least_wrong_with::<MIDDLE>(n, table)
    } else {
        least_wrong_with::<LARGE>(n, table)
    }
}

// Whether the map is a block map.
pub fn is_block(n: u32, table: &[u32]) -> bool
    requires { (dim_ok n ≡ pass) × (table_ok table.now ≡ pass) × (is_map n table.now ≡ true) }
    ensures { result ≡ is_block n table.now }
{
    least_wrong(n, table).is_none()
}
