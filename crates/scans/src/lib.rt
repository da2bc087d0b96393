// Passes over all slots: marks cleared, marks of 0 passed over 32 at a time or by groups, the darts with the mark 1 and the lowest unused slots listed.
#![tactic(auto)]

ghost use Rattle.std.specs.Prelude.{◌≡◌, true, ◌+◌, ◌<◌, ◌≤◌, min, length, take, replicate};
ghost use Rattle.model.specs.Lists.{ones};
ghost use Rattle.model.specs.Table.{slots, unused_slots};
ghost use Rattle.model.specs.Checks.{pass, table_ok};
ghost use Rattle.reading.specs.Told.{Told};
ghost use Rattle.scans.specs.Clear.{Clear, Skips, Grouped};
ghost use Rattle.scans.specs.Lowest.{Lists};

use reading::{GROUP, UNUSED, link_in, slots};

// ---- marks

// All marks 0.
pub fn clear(marks: &mut [u8])
    ensures { marks.new ≡ replicate (length marks.old) 0 }
{
    marks.fill(0);
}

// Whether the 32 marks from x on are 0.
fn block_clear(marks: &[u8], x: usize) -> bool
    requires { x + 32 ≤ length marks.now }
    ensures { result ≡ true → Clear marks.now x (x + 32) }
{
    let mut any: u8 = 0;
    for &mark in &marks[x..x + 32] {
        any |= mark;
    }
    any == 0
}

// Past the blocks of 32 marks from x on that are 0. A pass over the marks begins with it.
pub fn skip_blocks(marks: &[u8], x: usize) -> usize
    requires { x ≤ length marks.now }
    ensures { Skips marks.now x result }
{
    let mut y = x;
    while 32 <= marks.len() - y {
        if !block_clear(marks, y) {
            return y;
        }
        y += 32;
    }
    y
}

// The same where a block of 32 begins at x, else x: a pass goes on with it, by a test that is cheap.
pub fn skip_clear(marks: &[u8], x: usize) -> usize
    requires { x ≤ length marks.now }
    ensures { Skips marks.now x result }
{
    if x % 32 == 0 {
        skip_blocks(marks, x)
    } else {
        x
    }
}

// ---- marks with groups

// Past the groups from g on whose mark is 0.
fn skip_groups(groups: &[u8], g: usize) -> usize
    requires { g ≤ length groups.now }
    ensures { Skips groups.now g result }
{
    let mut h = skip_blocks(groups, g);
    while h < groups.len() {
        if groups[h] != 0 {
            return h;
        }
        h = skip_clear(groups, h + 1);
    }
    h
}

// Past the groups and the blocks of 32 marks from x on that are 0. A pass over marks with groups costs what the groups with a mark cost.
pub fn skip_grouped(marks: &[u8], groups: &[u8], x: usize) -> usize
    requires { (Grouped marks.now groups.now) × (x ≤ length marks.now) }
    ensures { Skips marks.now x result }
{
    let mut y = x;
    loop {
        if y % GROUP == 0 {
            y = GROUP * skip_groups(groups, y / GROUP);
        }
        if marks.len() - y < 32 {
            return y;
        }
        if !block_clear(marks, y) {
            return y;
        }
        y += 32;
    }
}

// ---- lists

// Lists the slots with the mark 1, rising; how many they are.
pub fn list_ones(marks: &[u8], words: &mut [u16]) -> u32
    requires { (length marks.now ≤ 65536) × (length marks.now ≤ length words.old) }
    ensures { Lists (ones marks.now) result words.old words.new }
{
    let mut r: u32 = 0;
    let mut x = skip_blocks(marks, 0);
    while x < marks.len() {
        if marks[x] == 1 {
            words[r as usize] = x as u16;
            r += 1;
        }
        x = skip_clear(marks, x + 1);
    }
    r
}

// Lists the lowest unused slots of a map, rising, at most `want` of them; how many they are.
pub fn list_unused(table: &[u32], words: &mut [u16], want: u32) -> u32
    requires table_value { (table_ok table.now ≡ pass) × (Told table.now) }
    requires table_in_bounds { min want (slots table.now) ≤ length words.old }
    ensures { Lists (take want (unused_slots table.now)) result words.old words.new }
{
    if want == 0 {
        return 0;
    }
    let end = slots(table);
    let mut r: u32 = 0;
    for x in 0..end {
        if link_in(table, 0, x) == UNUSED {
            words[r as usize] = x as u16;
            r += 1;
            if r == want {
                break;
            }
        }
    }
    r
}
