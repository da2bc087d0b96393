// Sides walked with no memory but the lists of their darts: a side has two links at most, and a walk by the one and the other in turn
// comes back to its start. Whether a side has a dart, and two sides walked in step, for sew.
#![tactic(auto)]

ghost use Rattle.std.specs.Prelude.{◌≡◌, ◌≤◌, IfNone, IfSome};
ghost use Rattle.model.specs.Sew.{side};
ghost use Rattle.model.specs.Reach.{in_set};
ghost use Rattle.model.specs.Meaning.Maps.{Dim};
ghost use Rattle.model.specs.Meaning.Pairings.{OnSide};
ghost use Rattle.sides.specs.Turns.{SideLinks, Same, Alike, Tests, EndTest, Parted, Unlike, Walked, Mirrors, Mirrored, Apart, InStep};

// The links of a side. Where there is one only, it stands twice; where there is none, n is 2, and link 3 leads from each dart to itself.
#[derive(Clone, Copy)]
pub struct Links {
    pub a: u32,
    pub b: u32,
}

pub fn side_links(n: u32, i: u32) -> Links
    requires { (Dim n) × (i ≤ n) }
    ensures { SideLinks n i result.a result.b }
{
    if i == 0 {
        return Links { a: 2, b: n };
    }
    if i == 1 {
        return Links { a: 3, b: 3 };
    }
    Links { a: 0, b: i - 2 }
}

// Whether e is in d's side: the darts after each turn, and those on the way.
pub fn meets(n: u32, table: &[u32], i: u32, d: u32, e: u32) -> bool
    requires { OnSide n table.now i d }
    ensures { result ≡ in_set (side n table.now i d) e }
{
    let links = side_links(n, i);
    let a = links.a;
    let b = links.b;
    let mut x = d;
    loop {
        let p = reading::link_in(table, a as usize, x);
        if (x == e) | (p == e) {
            return true;
        }
        x = reading::link_in(table, b as usize, p);
        if x == d {
            return false;
        }
    }
}

// Whether p is x exactly if q is y.
fn same(p: u32, x: u32, q: u32, y: u32) -> bool
    ensures { Tests (Same p x q y) result }
{
    (p == x) == (q == y)
}

// Whether the turn from x by p to u is like that from y by q to v.
fn alike(d: u32, e: u32, x: u32, p: u32, u: u32, y: u32, q: u32, v: u32) -> bool
    ensures { Tests (Alike d e x p u y q v) result }
{
    same(p, x, q, y) & same(u, p, v, q) & same(u, d, v, e)
}

// Whether the turn from x by p to u has an end.
fn has_end(x: u32, p: u32, u: u32) -> bool
    ensures { EndTest x p u result }
{
    (p == x) | (u == p)
}

// How many turns lead back to the start, and whether there was an end.
#[derive(Clone, Copy)]
struct Round {
    size: usize,
    ended: bool,
}

// The walks from d and e, turn by turn, until both are at their starts again; none if they are not alike.
fn walk_round(
    table: &[u32],
    a: u32,
    b: u32,
    d: u32,
    e: u32,
    xs: &mut [u16],
    ys: &mut [u16],
) -> Option<Round>
    requires { Parted table.now a b d e xs.old ys.old }
    ensures differs { IfNone result (Unlike table.now a b d e) }
    ensures walked { IfSome result (λ round. Walked table.now a b d e round.size round.ended xs.new ys.new) }
{
    let mut x = d;
    let mut y = e;
    let mut k: usize = 0;
    let mut ended = false;
    loop {
        xs[k] = x as u16;
        ys[k] = y as u16;
        k += 1;
        let p = reading::link_in(table, a as usize, x);
        let q = reading::link_in(table, a as usize, y);
        let u = reading::link_in(table, b as usize, p);
        let v = reading::link_in(table, b as usize, q);
        if !alike(d, e, x, p, u, y, q, v) {
            return None;
        }
        ended = ended | has_end(x, p, u);
        if u == d {
            return Some(Round { size: k, ended });
        }
        x = u;
        y = v;
    }
}

// Behind the first words their links a.
fn mirror(table: &[u32], a: u32, words: &mut [u16], size: usize)
    requires { Mirrors table.now a size words.old }
    ensures { Mirrored table.now a size words.old words.new }
{
    // k stays a number: the word that is read and the one that is written stand in one slice
    for k in 0..size {
        let x = words[k] as u32;
        words[size + k] = reading::link_in(table, a as usize, x) as u16;
    }
}

// The darts of d's side and their partners in e's side, and how many they are; none if there is no pairing. Where the walk has met an
// end, its darts after each turn are all; where not, those on the way are others.
pub fn in_step(
    n: u32,
    table: &[u32],
    i: u32,
    d: u32,
    e: u32,
    xs: &mut [u16],
    ys: &mut [u16],
) -> Option<u32>
    requires { Apart n table.now i d e xs.old ys.old }
    ensures { InStep n table.now i d e result xs.new ys.new }
{
    let Links { a, b } = side_links(n, i);
    let Round { size, ended } = walk_round(table, a, b, d, e, xs, ys)?;
    if ended {
        return Some(size as u32);
    }
    mirror(table, a, xs, size);
    mirror(table, a, ys, size);
    Some((2 * size) as u32)
}
