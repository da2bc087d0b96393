// Whether a cell, listed by its places, is good: its links lead where the numbering says, its first dart is listed once, and no side is
// folded.
#![tactic(auto)]

ghost use Rattle.std.specs.Prelude.{◌≡◌, ◌*◌, ◌<◌, length};
ghost use Rattle.model.specs.Cell.{cell_of, good_cell};
ghost use Rattle.model.specs.Numbering.{corners};
ghost use Rattle.model.specs.Meaning.Maps.{Dim};
ghost use Rattle.numbering.specs.Orders.{orders, place_of};
ghost use Rattle.cells.specs.Listing.{MapDart, Listing, places};
ghost use Rattle.good_cells.specs.Good.{follows_at, follow_from, all_follow, only_first, side_size, side_of, is_straight, all_straight};

use cells::dart_at;
use numbering::{corners, next_order, next_vertex};
use reading::link_in;

// Whether link i leads from the place of a vertex in an axis order where the numbering says.
fn follows(n: u32, table: &[u32], cell: &[u32], i: u32, order: u32, vertex: u32) -> bool
    requires { (Listing n table.now cell.now) × (order < orders n) × (vertex < corners n) × (i < n) }
    ensures { result ≡ follows_at n table.now cell.now i (place_of n order vertex) }
{
    let from = dart_at(n, cell, order, vertex);
    let to = dart_at(
        n,
        cell,
        next_order(n, i, order),
        next_vertex(n, i, order, vertex),
    );
    link_in(table, i as usize, from) == to
}

// Whether it does so at the vertices from `first` on; an edge is looked at from its lower end.
fn follow_from(n: u32, table: &[u32], cell: &[u32], i: u32, order: u32, first: u32) -> bool
    requires { (Listing n table.now cell.now) × (order < orders n) × (i < n) }
    ensures { result ≡ follow_from n table.now cell.now i order first }
{
    (first..corners(n)).all(|vertex| {
        next_vertex(n, i, order, vertex) < vertex || follows(n, table, cell, i, order, vertex)
    })
}

// Whether the links of a listed cell lead where the numbering says. Those that it was listed by do, and in a map links 0 and 2 commute.
// So what is left is link 0 in the order of x, from the vertices that have y or z; in 3D also in that of y, from those that have z, and
// link 2 from zxy to zyx.
fn all_follow(n: u32, table: &[u32], cell: &[u32]) -> bool
    requires { Listing n table.now cell.now }
    ensures { result ≡ all_follow n table.now cell.now }
{
    follow_from(n, table, cell, 0, 0, 2)
        && (n == 2
            || (follow_from(n, table, cell, 0, 2, 4) && follow_from(n, table, cell, 2, 4, 0)))
}

// Whether no place but the first holds d.
fn only_first(d: u32, cell: &[u32]) -> bool
    requires { 0 < length cell.now }
    ensures { result ≡ only_first d cell.now }
{
    // a loop, since the calls in `contains` take 288 bytes of stack more, which the header does not give
    for &x in &cell[1..] {
        if x == d {
            return false;
        }
    }
    true
}

// The number of darts of a side.
fn side_size(n: u32) -> u32
    requires { Dim n }
    ensures { result ≡ side_size n }
{
    if n == 3 { 8 } else { 2 }
}

// Whether link n leads from the first place of the k-th side to no other of it. An axis and a value of its bit have one side, which
// begins in an order with this axis last; links 0..n-2 lead round it.
fn is_straight(n: u32, table: &[u32], cell: &[u32], k: u32) -> bool
    requires { (Listing n table.now cell.now) × (k < 2 * n) }
    ensures { result ≡ is_straight n table.now cell.now (side_of n k) }
{
    let axis = k / 2;
    let mut p = next_order(n, 2, next_order(n, 1, (n - 1) * axis));
    let mut s = (k % 2) << axis;
    let to = link_in(table, n as usize, dart_at(n, cell, p, s));
    let mut by = 0;
    for _ in 1..side_size(n) {
        s = next_vertex(n, by, p, s);
        p = next_order(n, by, p);
        if dart_at(n, cell, p, s) == to {
            return false;
        }
        by = n - 2 - by;
    }
    true
}

// Whether no side is folded. Link n carries a side onto a side, so one dart of each is looked at.
fn all_straight(n: u32, table: &[u32], cell: &[u32]) -> bool
    requires { Listing n table.now cell.now }
    ensures { result ≡ all_straight n table.now cell.now }
{
    (0..2 * n).all(|k| is_straight(n, table, cell, k))
}

// Whether the cell of d, listed by its places, is good.
pub fn is_good<const N: u32, const SIZE: usize>(table: &[u32], d: u32, cell: [u32; SIZE]) -> bool
    requires { (MapDart N table.now d) × (cell ≡ places N table.now d) }
    ensures { result ≡ good_cell N table.now (cell_of N table.now d) }
{
    all_follow(N, table, &cell) && only_first(d, &cell) && all_straight(N, table, &cell)
}
