// The sheet of a dart of a block map, cell by cell: each cell that it meets is listed from a dart of it and marked whole, and the sheet
// goes on over the sides that it crosses.
#![tactic(auto)]

ghost use Rattle.std.specs.Prelude.{◌≡◌, ◌+◌, ◌*◌, ◌<◌, ◌≤◌, length, replicate};
ghost use Rattle.model.specs.Lists.{count};
ghost use Rattle.model.specs.Table.{slots, link};
ghost use Rattle.model.specs.Cell.{cell_size};
ghost use Rattle.model.specs.Sheet.{sheet, sheet_marks};
ghost use Rattle.model.specs.Meaning.Maps.{Dim};
ghost use Rattle.model.specs.Meaning.Sheets.{BlockDart, half};
ghost use Rattle.cells.specs.Listing.{Listing, places};
ghost use Rattle.sheets.specs.Spread.{sides, side_start, Fresh, Firsts, Touched, Other, Rest, Put, Waiting, Ready, Spread, Begins};

use cells::cell;
use numbering::place;
use reading::link_in;

// How many first places of a cell, listed from a dart of it, its sheet holds.
fn half(n: u32) -> u32
    ensures { result ≡ half n }
{
    if n == 3 { 16 } else { 4 }
}

// The first place of the j-th side that the sheet crosses. These are the sides of each axis but the first, by the value of its bit: an
// order of the first axes has it last.
fn side_start(n: u32, j: u32) -> u32
    requires { (Dim n) × (j < sides n) }
    ensures { result ≡ side_start n j }
{
    place(n, j / 2, (j % 2) << (n - 1 - j / 2))
}

// The mark 1 at the first `count` darts listed.
fn mark_first(marks: &mut [u8], cell: &[u32], count: usize)
    requires { (count ≤ length cell.now) × (Fresh marks.old cell.now count) }
    ensures { Firsts marks.old cell.now count marks.new }
{
    for &x in &cell[..count] {
        marks[x as usize] = 1;
    }
}

// The mark 3 on the dart that link n leads to from x, if it has the mark 0.
fn touch(n: u32, table: &[u32], marks: &mut [u8], x: u32)
    requires { (4 * x + n < length table.now) × (link table.now n x < length marks.old) }
    ensures { Touched marks.old (link table.now n x) marks.new }
{
    let y = link_in(table, n as usize, x) as usize;
    let unmarked = marks[y] == 0;
    if unmarked {
        marks[y] = 3;
    }
}

// The mark 2 on x, if it has no 1, and then 3 on what link n leads to from it, if that has the mark 0.
pub fn mark_other(n: u32, table: &[u32], marks: &mut [u8], x: u32)
    requires { (4 * x + n < length table.now) × (x < length marks.old) × (link table.now n x < length marks.old) }
    ensures { Other n table.now marks.old x marks.new }
{
    let unmet = marks[x as usize] != 1;
    if unmet {
        marks[x as usize] = 2;
        touch(n, table, marks, x);
    }
}

// The mark 2 at the darts listed from the place `from` on that have no 1, and 3 on what link n leads to from these, if it has the mark 0.
// A 3 does not stay if its cell is met.
fn mark_rest(n: u32, table: &[u32], marks: &mut [u8], cell: &[u32], from: usize)
    requires { (Listing n table.now cell.now) × (length marks.old ≡ slots table.now) × (from ≤ length cell.now) }
    ensures { Rest n table.now marks.old cell.now from (length cell.now)
        marks.new }
{
    for &x in &cell[from..] {
        mark_other(n, table, marks, x);
    }
}

// The dart y goes behind the darts that wait, if it has not the mark 1; how many wait then.
fn put(marks: &[u8], work: &mut [u16], size: usize, y: u32) -> usize
    requires { (y < length marks.now) × (y < 65536) × (size < length work.old) }
    ensures { Put marks.now work.old size y work.new result }
{
    if marks[y as usize] == 1 {
        size
    } else {
        work[size] = y as u16;
        size + 1
    }
}

// Over each side that the sheet crosses, the dart that link n leads to from the side's first place is put to those that wait.
fn put_links(
    n: u32,
    table: &[u32],
    marks: &[u8],
    work: &mut [u16],
    size: usize,
    cell: &[u32],
) -> usize
    requires { (Listing n table.now cell.now) × (length marks.now ≡ slots table.now) × (size + sides n ≤ length work.old) }
    ensures { Waiting n table.now marks.now cell.now (sides n) work.old size
        work.new result }
{
    let mut end = size;
    for j in 0..2 * (n - 1) {
        let x = cell[side_start(n, j) as usize];
        let y = link_in(table, n as usize, x);
        end = put(marks, work, end, y);
    }
    end
}

// A cell, listed from a dart of the sheet: 1 at its first places, 2 at its others that have no 1, and the sheet goes on over link n.
fn spread_cell(
    n: u32,
    table: &[u32],
    marks: &mut [u8],
    work: &mut [u16],
    size: usize,
    cell: &[u32],
) -> usize
    requires { Ready n table.now marks.old cell.now work.old size }
    ensures { Spread n table.now marks.old cell.now work.old size
        marks.new work.new result }
{
    let half = half(n) as usize;
    mark_first(marks, cell, half);
    mark_rest(n, table, marks, cell, half);
    put_links(n, table, marks, work, size, cell)
}

// The cell of g, listed as a value.
fn spread_listed<const N: u32, const SIZE: usize>(
    table: &[u32],
    marks: &mut [u8],
    work: &mut [u16],
    size: usize,
    g: u32,
) -> usize
    requires { (Begins N table.now marks.old work.old size g) × (SIZE ≡ cell_size N) }
    ensures { Spread N table.now marks.old (places N table.now g) work.old size
        marks.new work.new result }
{
    let cell = cell::<N, SIZE>(table, g);
    spread_cell(N, table, marks, work, size, &cell)
}

// The cell of g.
fn spread(n: u32, table: &[u32], marks: &mut [u8], work: &mut [u16], size: usize, g: u32) -> usize
    requires { Begins n table.now marks.old work.old size g }
    ensures { Spread n table.now marks.old (places n table.now g) work.old size
        marks.new work.new result }
{
    if n == 3 {
        spread_listed::<3, 48>(table, marks, work, size, g)
    } else {
        spread_listed::<2, 8>(table, marks, work, size, g)
    }
}

// The sheet of d where no mark is set: d waits first; a dart that waits is taken, and if it has not the mark 1, its cell is spread. Then
// none of the cell's first places has it, so that with each cell the sheet grows by as many darts.
fn flood(n: u32, table: &[u32], marks: &mut [u8], work: &mut [u16], d: u32) -> u32
    requires { (BlockDart n table.now d) × (marks.old ≡ replicate (slots table.now) 0) × (slots table.now ≤ 2 * length work.old) }
    ensures { (marks.new ≡ sheet_marks n table.now (sheet n table.now d))
        × (result ≡ count 1 (sheet n table.now d)) }
{
    let half = half(n);
    let mut found = 0;
    let mut size: usize = 1;
    work[0] = d as u16;
    while 0 < size {
        size -= 1;
        let g = work[size] as u32;
        if marks[g as usize] != 1 {
            size = spread(n, table, marks, work, size, g);
            found += half;
        }
    }
    found
}

// sheet d, in a block map: marks 1 in S, 2 at the other darts of the cells that hold a dart of S, 3 at the darts outside that lead into
// them (link n leads from a dart of S to S), 0 elsewhere; the size of S.
pub fn sheet(n: u32, table: &[u32], marks: &mut [u8], work: &mut [u16], d: u32) -> u32
    requires { (BlockDart n table.now d) × (length marks.old ≡ slots table.now) × (slots table.now ≤ 2 * length work.old) }
    ensures { (marks.new ≡ sheet_marks n table.now (sheet n table.now d))
        × (result ≡ count 1 (sheet n table.now d)) }
{
    scans::clear(marks);
    flood(n, table, marks, work, d)
}
