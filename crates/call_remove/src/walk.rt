// The walk from a dart at the layer's edge across the cells taken away.
ghost use Rattle.std.specs.Prelude.{◌≡◌, false, ◌<◌, get_or};
ghost use Rattle.model.specs.Table.{slots, link, walk};
ghost use Rattle.model.specs.Remove.{opposite, cell_mark, marked, outside};
ghost use Rattle.model.specs.Meaning.Walks.{Layer, hop};

use reading::{link, opposite_edge};

// The mark of x; past the marks 0.
fn mark(marks: &[u8], x: u32) -> u8
    ensures { result ≡ get_or marks.now x 0 }
{
    marks.get(x as usize).copied().unwrap_or(0)
}

// Whether a mark is 1 or 2, as in the layer's cells.
fn cell_mark(mark: u8) -> bool
    ensures { result ≡ cell_mark mark }
{
    (mark == 1) | (mark == 2)
}

// The opposite side of y: 1.0.1 for n = 2 and 2.1.0.1.2 for n = 3.
fn opposite(n: u32, table: &[u32], y: u32) -> u32
    ensures { result ≡ walk table.now (opposite n) y }
{
    if n == 3 {
        link(table, 2, opposite_edge(table, link(table, 2, y)))
    } else {
        opposite_edge(table, y)
    }
}

// One hop of the walk: opposite side, link n.
fn hop(n: u32, table: &[u32], y: u32) -> u32
    requires { n < 4 }
    ensures { result ≡ hop n table.now y }
{
    link(table, n as usize, opposite(n, table, y))
}

// The first dart outside on the walk: link n of x, then (opposite side, link n) again and again. The path of hops is finite: it
// comes to no dart twice.
pub fn first_outside(n: u32, table: &[u32], marks: &[u8], x: u32) -> u32
    requires layer { Layer n table.now marks.now }
    requires x_value { marked marks.now x ≡ false }
    ensures { result ≡ outside n table.now marks.now (slots table.now)
        (link table.now n x) }
{
    let mut y = link(table, n as usize, x);
    loop {
        if !cell_mark(mark(marks, y)) {
            break y;
        }
        y = hop(n, table, y);
    }
}
