// The links of insert's new darts.
ghost use Rattle.std.specs.Prelude.{true, List, ℕ};
ghost use Rattle.new_darts.specs.Sources.{OfInsert, OfSomeInsert, InsertLinked};

use crate::{Operation, Sources};
use reading::link_in;

// The links of p(h): p(h).0 = p(h.0); for n = 3 p(h).1 = p(h.1), p(h).2 = q(h), p(h).3 = h; for n = 2 p(h).1 = q(h), p(h).2 = h, and link 3
// is p(h).
fn p_links(sources: &Sources, h: u32) -> [u32; 4]
    requires { OfSomeInsert sources.now 0 h }
    ensures { (m : List ℕ) → OfInsert sources.now m 0 h
        → InsertLinked sources.now m 0 h result }
{
    let along = sources.new_dart(0, link_in(sources.table, 0, h));
    let q = sources.new_dart(1, h);
    if sources.n == 3 {
        [
            along,
            sources.new_dart(0, link_in(sources.table, 1, h)),
            q,
            h,
        ]
    } else {
        [along, q, h, sources.new_dart(0, h)]
    }
}

// The links of q(h): for n = 3 q(h).0 = q(h.0), q(h).1 = r(h), q(h).2 = p(h), q(h).3 = q(next(h)); for n = 2 q(h).0 = q(h.2), q(h).1 = p(h),
// q(h).2 = q(next(h)), and link 3 is q(h).
fn q_links(sources: &Sources, h: u32) -> [u32; 4]
    requires { OfSomeInsert sources.now 1 h }
    ensures { (m : List ℕ) → OfInsert sources.now m 1 h
        → InsertLinked sources.now m 1 h result }
{
    let p = sources.new_dart(0, h);
    let on = sources.new_dart(1, sources.nexts[h as usize] as u32);
    if sources.n == 3 {
        [
            sources.new_dart(1, link_in(sources.table, 0, h)),
            sources.new_dart(2, h),
            p,
            on,
        ]
    } else {
        [
            sources.new_dart(1, link_in(sources.table, 2, h)),
            p,
            on,
            sources.new_dart(1, h),
        ]
    }
}

// The links of r(h): r(h).0 = r(h.3), r(h).1 = q(h), r(h).2 = r(h.1), r(h).3 = r(next(h)).
fn r_links(sources: &Sources, h: u32) -> [u32; 4]
    requires { OfSomeInsert sources.now 2 h }
    ensures { (m : List ℕ) → OfInsert sources.now m 2 h
        → InsertLinked sources.now m 2 h result }
{
    [
        sources.new_dart(2, link_in(sources.table, 3, h)),
        sources.new_dart(1, h),
        sources.new_dart(2, link_in(sources.table, 1, h)),
        sources.new_dart(2, sources.nexts[h as usize] as u32),
    ]
}

// The links of the new dart of h: p(h) where role is 0, q(h) where it is 1, r(h) where it is 2.
fn links(sources: &Sources, role: u32, h: u32) -> [u32; 4]
    requires { OfSomeInsert sources.now role h }
    ensures { (m : List ℕ)
        → OfInsert sources.now m role h
        → InsertLinked sources.now m role h result }
{
    if role == 0 {
        p_links(sources, h)
    } else if role == 1 {
        q_links(sources, h)
    } else {
        r_links(sources, h)
    }
}

// The operation insert.
pub struct Layer;

impl Operation for Layer {
    ghost insert = { true };

    fn changed_link(n: u32) -> u32 {
        n
    }

    fn links(sources: &Sources, role: u32, g: u32) -> [u32; 4] {
        links(sources, role, g)
    }
}
