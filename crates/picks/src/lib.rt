// The sheet of a dart of a block map, over a queue that the caller lends. A dart that is met enters with the first places of its cell; each
// dart is taken off in turn, and its link n is met. Then the queue lists the sheet, and the other darts of its cells are marked along it.
#![tactic(auto)]

ghost use Rattle.std.specs.Prelude.{◌≡◌, ℕ, ◌+◌, ◌<◌, ◌≤◌, length, get_or, replicate};
ghost use Rattle.model.specs.Lists.{count};
ghost use Rattle.model.specs.Table.{slots};
ghost use Rattle.model.specs.Sheet.{sheet, sheet_marks};
ghost use Rattle.model.specs.Meaning.Maps.{Dim};
ghost use Rattle.model.specs.Meaning.Places.{place};
ghost use Rattle.model.specs.Meaning.Sheets.{BlockDart, half};
ghost use Rattle.picks.specs.Enter.{Dart, across, side_at, beside_at, Entered, Enters};
ghost use Rattle.picks.specs.Queued.{group, Queued, Listed};
ghost use Rattle.picks.specs.Beside.{Beside, Group, GroupBeside};

use reading::link_in;
use sheets::mark_other;

// How many darts entered the queue, and how many were taken off.
#[derive(Clone, Copy)]
pub struct Found {
    pub entered: u32,
    pub taken: u32,
}

// ---- darts that enter

// The opposite edge 1.0.1 of x.
fn across(table: &[u32], x: u32) -> u32
    requires { Dart table.now x }
    ensures { result ≡ across table.now x }
{
    let y = link_in(table, 1, x);
    let z = link_in(table, 0, y);
    link_in(table, 1, z)
}

// x gets the mark 1 and becomes the word of the queue at `at`.
fn enter(marks: &mut [u8], queue: &mut [u32], at: usize, x: u32)
    requires { (x < length marks.old) × (at < length queue.old) }
    ensures { Entered marks.old queue.old at 1 (λ _. x) marks.new queue.new }
{
    marks[x as usize] = 1;
    queue[at] = x;
}

// The edge of x and the opposite one enter.
fn enter_side(table: &[u32], marks: &mut [u8], queue: &mut [u32], at: usize, x: u32)
    requires { (Dart table.now x) × (length marks.old ≡ slots table.now) × (at + 4 ≤ length queue.old) }
    ensures { Entered marks.old queue.old at 4 (side_at table.now x) marks.new
        queue.new }
{
    let y = link_in(table, 0, x);
    let z = across(table, x);
    let u = link_in(table, 0, z);
    enter(marks, queue, at, x);
    enter(marks, queue, at + 1, y);
    enter(marks, queue, at + 2, z);
    enter(marks, queue, at + 3, u);
}

// What link 2 leads to from the eight words at `at` enters behind them.
fn enter_beside(table: &[u32], marks: &mut [u8], queue: &mut [u32], at: usize)
    requires by_index { (j : ℕ) → j < 8 → Dart table.now (get_or queue.old (at + j) 0) }
    requires marks_len { (length marks.old ≡ slots table.now) × (at + 16 ≤ length queue.old) }
    ensures { Entered marks.old queue.old (at + 8) 8
        (beside_at table.now queue.old at) marks.new queue.new }
{
    // k stays a number: the word that is read and the one that is written stand in one slice
    for k in 0..8 {
        let x = link_in(table, 2, queue[at + k]);
        enter(marks, queue, at + 8 + k, x);
    }
}

// The first places of the cell of g enter; where the queue's words end then. In the first order link 0 leads along x, 1.0.1 along y and
// 2.1.0.1.2 along z; link 2 leads to the second order.
fn enter_cell(
    n: u32,
    table: &[u32],
    marks: &mut [u8],
    queue: &mut [u32],
    at: usize,
    g: u32,
) -> usize
    requires { Enters n table.now marks.old queue.old at g }
    ensures { (result ≡ at + half n) × (Entered marks.old queue.old at (half n)
        (place n table.now g) marks.new queue.new) }
{
    enter_side(table, marks, queue, at, g);
    if n == 2 {
        return at + 4;
    }
    let y = link_in(table, 2, g);
    let z = across(table, y);
    let far = link_in(table, 2, z);
    enter_side(table, marks, queue, at + 4, far);
    enter_beside(table, marks, queue, at);
    at + 16
}

// The sheet of d where no mark is set: marks 1 at its darts, which the queue lists, each once. First d is met, then link n of each dart that is
// taken off. (As there is one call of enter_cell, it is copied in here, which matters: a sheet in 2D is a chain of cells.)
fn flood(n: u32, table: &[u32], marks: &mut [u8], queue: &mut [u32], d: u32) -> Found
    requires { (BlockDart n table.now d) × (marks.old ≡ replicate (slots table.now) 0) × (length queue.old ≡ slots table.now) }
    ensures marks_after { (marks.new ≡ sheet n table.now d) × (Queued n table.now d queue.new result.entered) }
    ensures entered_value { (result.entered ≡ count 1 (sheet n table.now d)) × (result.taken ≡ count 1 (sheet n table.now d)) }
{
    let mut tail: usize = 0;
    let mut taken: usize = 0;
    let mut y = d;
    loop {
        if marks[y as usize] == 0 {
            tail = enter_cell(n, table, marks, queue, tail, y);
        }
        if taken == tail {
            return Found {
                entered: tail as u32,
                taken: taken as u32,
            };
        }
        let x = queue[taken];
        taken += 1;
        y = link_in(table, n as usize, x);
    }
}

// ---- the other darts of the cells

// Marks x.1 and, n = 3, x.1.2: the darts of its cell that a sheet need not hold with x.
fn mark_beside(n: u32, table: &[u32], marks: &mut [u8], x: u32)
    requires { (BlockDart n table.now x) × (length marks.old ≡ slots table.now) }
    ensures { Beside n table.now marks.old x marks.new }
{
    let y = link_in(table, 1, x);
    mark_other(n, table, marks, y);
    if n == 3 {
        let z = link_in(table, 2, y);
        mark_other(n, table, marks, z);
    }
}

// How many words a group has.
fn group(n: u32) -> usize
    requires { Dim n }
    ensures { result ≡ group n }
{
    if n == 3 { 8 } else { 4 }
}

// Marks beside the darts of the group at `from`. The sheet holds link 1 of all of them or of none: where it does, nothing is left to mark.
fn mark_group(n: u32, table: &[u32], marks: &mut [u8], queue: &[u32], from: usize)
    requires { Group n table.now marks.old queue.now from }
    ensures { GroupBeside n table.now marks.old queue.now from marks.new }
{
    let y = link_in(table, 1, queue[from]);
    let unmet = marks[y as usize] != 1;
    if unmet {
        for &x in &queue[from..from + group(n)] {
            mark_beside(n, table, marks, x);
        }
    }
}

// The marks of the sheet that is marked and queued, group by group.
fn mark_rest(n: u32, table: &[u32], marks: &mut [u8], queue: &[u32], count: u32)
    requires { Listed n table.now marks.old queue.now count }
    ensures { marks.new ≡ sheet_marks n table.now marks.old }
{
    for k in (0..count as usize).step_by(group(n)) {
        mark_group(n, table, marks, queue, k);
    }
}

// sheet d, in a block map: the marks as the model says, and the size of S as the darts that entered and those that were taken off.
pub fn pick(n: u32, table: &[u32], marks: &mut [u8], queue: &mut [u32], d: u32) -> Found
    requires { (BlockDart n table.now d) × (length marks.old ≡ slots table.now) × (length queue.old ≡ slots table.now) }
    ensures marks_after { marks.new ≡ sheet_marks n table.now (sheet n table.now d) }
    ensures entered_value { (result.entered ≡ count 1 (sheet n table.now d)) × (result.taken ≡ count 1 (sheet n table.now d)) }
{
    scans::clear(marks);
    let found = flood(n, table, marks, queue, d);
    mark_rest(n, table, marks, queue, found.entered);
    found
}
