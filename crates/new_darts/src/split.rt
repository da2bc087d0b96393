// The links of split's new darts.
ghost use Rattle.std.specs.Prelude.{false, ◌≡◌, ℕ};
ghost use Rattle.model.specs.Table.{link};
ghost use Rattle.model.specs.Split.{split_table};
ghost use Rattle.model.specs.Meaning.Splits.{new_of};
ghost use Rattle.new_darts.specs.Sources.{OfSplit, OfSomeSplit, SplitLinked};

use crate::{Operation, Sources};
use reading::link_in;

// The links of a(g): a(g).0 = g, a(g).1 = b(g), a(g).2 = a(g.2), a(g).3 = a(g.3); for n = 2 the last is a(g), since g.3 = g.
fn a_links(sources: &Sources, g: u32) -> [u32; 4]
    requires { OfSomeSplit sources.now 0 g }
    ensures { (d : ℕ) → OfSplit sources.now d 0 g
        → SplitLinked sources.now d 0 g result }
{
    [
        g,
        sources.new_dart(1, g),
        sources.new_dart(0, link_in(sources.table, 2, g)),
        sources.new_dart(0, link_in(sources.table, 3, g)),
    ]
}

// b(g).2: c(g) for n = 3, b(g.0) for n = 2.
fn b_across(sources: &Sources, g: u32) -> u32
    requires { OfSomeSplit sources.now 1 g }
    ensures { (d : ℕ) → OfSplit sources.now d 1 g
        → result ≡ link (split_table sources.now.n sources.now.table.now d) 2 (new_of sources.now.n sources.now.table.now d 1 g) }
{
    if sources.n == 3 {
        sources.new_dart(2, g)
    } else {
        sources.new_dart(1, link_in(sources.table, 0, g))
    }
}

// The links of b(g): b(g).0 = b(g.1.0.1), b(g).1 = a(g), b(g).2 as above, b(g).3 = b(g.3).
fn b_links(sources: &Sources, g: u32) -> [u32; 4]
    requires { OfSomeSplit sources.now 1 g }
    ensures { (d : ℕ) → OfSplit sources.now d 1 g
        → SplitLinked sources.now d 1 g result }
{
    [
        sources.new_dart(1, reading::opposite_edge(sources.table, g)),
        sources.new_dart(0, g),
        b_across(sources, g),
        sources.new_dart(1, link_in(sources.table, 3, g)),
    ]
}

// The links of c(g): c(g).0 = c(g.1.0.1), c(g).1 = c(g.2), c(g).2 = b(g), c(g).3 = c(g.0).
fn c_links(sources: &Sources, g: u32) -> [u32; 4]
    requires { OfSomeSplit sources.now 2 g }
    ensures { (d : ℕ) → OfSplit sources.now d 2 g
        → SplitLinked sources.now d 2 g result }
{
    [
        sources.new_dart(2, reading::opposite_edge(sources.table, g)),
        sources.new_dart(2, link_in(sources.table, 2, g)),
        sources.new_dart(1, g),
        sources.new_dart(2, link_in(sources.table, 0, g)),
    ]
}

// The links of the new dart of g: a(g) where role is 0, b(g) where it is 1, c(g) where it is 2.
fn links(sources: &Sources, role: u32, g: u32) -> [u32; 4]
    requires { OfSomeSplit sources.now role g }
    ensures { (d : ℕ) → OfSplit sources.now d role g
        → SplitLinked sources.now d role g result }
{
    if role == 0 {
        a_links(sources, g)
    } else if role == 1 {
        b_links(sources, g)
    } else {
        c_links(sources, g)
    }
}

// The operation split.
pub struct Split;

impl Operation for Split {
    ghost insert = { false };

    fn changed_link(_n: u32) -> u32 {
        0
    }

    fn links(sources: &Sources, role: u32, g: u32) -> [u32; 4] {
        links(sources, role, g)
    }
}
