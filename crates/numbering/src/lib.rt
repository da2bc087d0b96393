// The numbering of a cell: each dart has a place, 8p + s for n = 3 and 4p + s for n = 2, by its axis order p and its vertex s.
#![tactic(auto)]

ghost use Rattle.std.specs.Prelude.{◌≡◌, ◌≢◌, ◌<◌};
ghost use Rattle.model.specs.Cell.{cell_size};
ghost use Rattle.model.specs.Numbering.{corners, swap_first, swap_last, cell_link};
ghost use Rattle.model.specs.Meaning.Maps.{Dim};
ghost use Rattle.numbering.specs.Orders.{orders, first_axis, second_axis, order_of, next_order, next_vertex, place_of};

// The number of vertices of a cell.
pub fn corners(n: u32) -> u32
    ensures { result ≡ corners n }
{
    if n == 3 { 8 } else { 4 }
}

// The number of darts of a cell.
pub fn cell_size(n: u32) -> u32
    ensures { result ≡ cell_size n }
{
    if n == 3 { 48 } else { 8 }
}

// The place of a vertex in an axis order.
pub fn place(n: u32, order: u32, vertex: u32) -> u32
    requires { (Dim n) × (order < orders n) × (vertex < corners n) }
    ensures { result ≡ place_of n order vertex }
{
    corners(n) * order + vertex
}

// The first axis of an axis order: 0 for x, 1 for y, 2 for z.
fn first_axis(n: u32, order: u32) -> u32
    ensures { result ≡ first_axis n order }
{
    if n == 3 { order / 2 } else { order }
}

// The second axis of an order of three axes. Two orders have the same first axis: in one the lower of the axes left follows it, in
// the other the higher.
fn second_axis(order: u32) -> u32
    ensures { result ≡ second_axis order }
{
    let first = order / 2;
    let left = order % 2;
    if left < first { left } else { left + 1 }
}

// The order of three axes that begins with these two.
fn order_of(first: u32, second: u32) -> u32
    requires { (first < 3) × (second < 3) × (first ≢ second) }
    ensures { result ≡ order_of first second }
{
    if second < first {
        2 * first + second
    } else {
        2 * first + second - 1
    }
}

// The axis order with the first two axes exchanged.
fn swap_first(n: u32, order: u32) -> u32
    requires { order < orders n }
    ensures { result ≡ swap_first n order }
{
    if n == 3 {
        order_of(second_axis(order), order / 2)
    } else {
        1 - order
    }
}

// The axis order with the last two axes exchanged, of three.
fn swap_last(order: u32) -> u32
    requires { order < 6 }
    ensures { result ≡ swap_last order }
{
    order ^ 1
}

// The axis order that link i leads to.
pub fn next_order(n: u32, i: u32, order: u32) -> u32
    requires { order < orders n }
    ensures { result ≡ next_order n i order }
{
    if i == 1 {
        swap_first(n, order)
    } else if (i == 2) & (n == 3) {
        swap_last(order)
    } else {
        order
    }
}

// The vertex that link i leads to, from a vertex in an axis order: link 0 flips the bit of the first axis.
pub fn next_vertex(n: u32, i: u32, order: u32, vertex: u32) -> u32
    requires { (Dim n) × (order < orders n) × (vertex < corners n) }
    ensures { result ≡ next_vertex n i order vertex }
{
    if i == 0 {
        vertex ^ (1 << first_axis(n, order))
    } else {
        vertex
    }
}

// The place that link i leads to from the place k.
pub fn cell_link(n: u32, i: u32, k: u32) -> u32
    requires { (Dim n) × (k < cell_size n) }
    ensures { result ≡ cell_link n i k }
{
    let corners = corners(n);
    let order = k / corners;
    let vertex = k % corners;
    place(n, next_order(n, i, order), next_vertex(n, i, order, vertex))
}
