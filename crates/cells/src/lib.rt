// One cell as a value: its darts listed by their places.
#![tactic(auto)]

ghost use Rattle.std.specs.Prelude.{◌≡◌, ℕ, ◌^◌, ◌<◌, ◌≤◌, length, get_or};
ghost use Rattle.model.specs.Cell.{cell_size};
ghost use Rattle.model.specs.Numbering.{corners};
ghost use Rattle.model.specs.Meaning.Maps.{Dim};
ghost use Rattle.numbering.specs.Orders.{orders, place_of};
ghost use Rattle.cells.specs.Listing.{MapDart, Listing, walked, around, spread, start, places};

use numbering::{next_order, next_vertex, place};
use reading::link_in;

// The dart at the place of a vertex in an axis order.
pub fn dart_at(n: u32, cell: &[u32], order: u32, vertex: u32) -> u32
    requires { (Dim n) × (length cell.now ≡ cell_size n) × (order < orders n) × (vertex < corners n) }
    ensures { result ≡ get_or cell.now (place_of n order vertex) 0 }
{
    cell[place(n, order, vertex) as usize]
}

// Lists the darts that `count` links lead to, i, j, i, .. in turn, from the place of a vertex in an axis order, which is listed.
fn walk(
    n: u32,
    table: &[u32],
    cell: &mut [u32],
    order: u32,
    vertex: u32,
    i: u32,
    j: u32,
    count: u32,
)
    requires { (Listing n table.now cell.old) × (order < orders n) × (vertex < corners n) × (i < n) × (j < n) }
    ensures { cell.new
        ≡ walked n table.now count i j (place_of n order vertex) cell.old }
{
    let mut p = order;
    let mut s = vertex;
    let mut by = i;
    for _ in 0..count {
        let from = dart_at(n, cell, p, s);
        s = next_vertex(n, by, p, s);
        p = next_order(n, by, p);
        cell[place(n, p, s) as usize] = link_in(table, by as usize, from);
        by = i + j - by;
    }
}

// Lists a quad, both ways round: where each place held d, the darts of the cell of d.
fn list_quad(table: &[u32], cell: &mut [u32])
    requires { Listing 2 table.now cell.old }
    ensures { (d : ℕ) → cell.old ≡ start 2 d → cell.new ≡ places 2 table.now d }
{
    walk(2, table, cell, 0, 0, 0, 1, 4);
    walk(2, table, cell, 0, 0, 1, 0, 3);
}

// Lists the other orders at a vertex of a hexahedron, one of which is listed: `far` of the five by links 1, 2, 1, .., the others by
// links 2, 1, 2, ..
fn around(table: &[u32], cell: &mut [u32], order: u32, vertex: u32, far: u32)
    requires { (Listing 3 table.now cell.old) × (order < 6) × (vertex < 8) × (far ≤ 5) }
    ensures { cell.new ≡ around table.now far (place_of 3 order vertex) cell.old }
{
    walk(3, table, cell, order, vertex, 1, 2, far);
    walk(3, table, cell, order, vertex, 2, 1, 5 - far);
}

// Lists the vertices of a hexahedron that have the bit of the axis and none of a later axis: link 0 leads to them in the first order
// that begins with the axis.
fn spread(table: &[u32], cell: &mut [u32], axis: u32, far: u32)
    requires { (Listing 3 table.now cell.old) × (axis < 3) × (far ≤ 5) }
    ensures { cell.new ≡ spread table.now axis far (2 ^ axis) 0 cell.old }
{
    let order = 2 * axis;
    let bit = 1 << axis;
    for vertex in 0..bit {
        walk(3, table, cell, order, vertex, 0, 0, 1);
        around(table, cell, order, vertex + bit, far);
    }
}

// Lists a hexahedron, vertex by vertex, and round each by axis orders both ways up to zxy and zyx: where each place held d, the darts of
// the cell of d.
fn list_hexahedron(table: &[u32], cell: &mut [u32])
    requires { Listing 3 table.now cell.old }
    ensures { (d : ℕ) → cell.old ≡ start 3 d → cell.new ≡ places 3 table.now d }
{
    around(table, cell, 0, 0, 3);
    spread(table, cell, 0, 3);
    spread(table, cell, 1, 3);
    spread(table, cell, 2, 5);
}

// The darts of the cell of d by their places.
pub fn cell<const N: u32, const SIZE: usize>(table: &[u32], d: u32) -> [u32; SIZE]
    requires { (MapDart N table.now d) × (SIZE ≡ cell_size N) }
    ensures { result ≡ places N table.now d }
{
    let mut cell = [d; SIZE];
    if N == 3 {
        list_hexahedron(table, &mut cell);
    } else {
        list_quad(table, &mut cell);
    }
    cell
}
