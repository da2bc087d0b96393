// orbit: what is reached from a dart by the links of a mask.
#![tactic(auto)]

ghost use Rattle.std.specs.Prelude.{◌≡◌, [], ◌≤◌, length};
ghost use Rattle.model.specs.Orbit.{orbit_place};
ghost use Rattle.model.specs.Table.{slots};
ghost use Rattle.model.specs.Checks.{must, pass, in_order, dim_ok, mask_ok, orbit_checks};
ghost use Rattle.model.specs.Calls.{orbit_call};
ghost use Rattle.answers.specs.Answers.{outcome};

use answers::{Answer, Done, Reason};
use reading::{LARGE, MIDDLE, SMALL};

// Whether check 6 passes.
fn mask_fits(n: u32, mask: u32) -> bool
    requires { dim_ok n ≡ pass }
    ensures { must result 6 ≡ mask_ok n mask }
{
    mask < 2 << n
}

// "If the mask has exactly n ones, the place is 1 + the missing index, else 0."
fn orbit_place(n: u32, mask: u32) -> u32
    requires { (dim_ok n ≡ pass) × (mask_ok n mask ≡ pass) }
    ensures { result ≡ orbit_place n mask }
{
    if u32::count_ones(mask) == n {
        u32::trailing_zeros(!mask) + 1
    } else {
        0
    }
}

// orbit, where its checks pass and the queue has a word for each slot.
fn orbit_in(n: u32, table: &[u32], marks: &mut [u8], queue: &mut [u16], mask: u32, d: u32) -> Answer
    requires d_value { in_order (orbit_checks n table.now marks.old mask d) ≡ pass }
    requires table_in_bounds { slots table.now ≤ length queue.old }
    ensures { outcome result table.now marks.new []
        ≡ orbit_call n table.now marks.old mask d }
{
    let size = reach::orbit(n, table, marks, queue, mask, d);
    Ok(Done {
        place: orbit_place(n, mask),
        count: size,
    })
}

// The same with a queue of so many words. Each size has a stack frame of its own, which smaller tables and refusals do not pay for.
#[inline(never)]
fn orbit_with<const WORDS: usize>(
    n: u32,
    table: &[u32],
    marks: &mut [u8],
    mask: u32,
    d: u32,
) -> Answer
    requires d_value { in_order (orbit_checks n table.now marks.old mask d) ≡ pass }
    requires room { (slots table.now ≤ WORDS) × (WORDS ≤ 65536) }
    ensures { outcome result table.now marks.new []
        ≡ orbit_call n table.now marks.old mask d }
{
    let mut queue = [0u16; WORDS];
    orbit_in(n, table, marks, &mut queue, mask, d)
}

// "Marks: 1 reached, 0 otherwise. Count: darts reached." A small table does not pay for a large queue.
pub fn orbit(n: u32, table: &[u32], marks: &mut [u8], mask: u32, d: u32) -> Answer
    ensures { outcome result table.now marks.new []
        ≡ orbit_call n table.now marks.old mask d }
{
    answers::opening(n, table, reading::marks_fit(table, marks), true)?;
    if !mask_fits(n, mask) {
        return Err(Reason::OutOfRange.into());
    }
    if !reading::live(table, d) {
        return Err(Reason::NotLive.into());
    }
    if table.len() <= 4 * SMALL {
        return orbit_with::<SMALL>(n, table, marks, mask, d);
    }
    if table.len() <= 4 * MIDDLE {
        return orbit_with::<MIDDLE>(n, table, marks, mask, d);
    }
    orbit_with::<LARGE>(n, table, marks, mask, d)
}
