// The wall of insert: the tests 28 to 32, and next for each of its darts.
#![tactic(auto)]

ghost use Rattle.std.specs.Prelude.{◌≡◌, true, not, ◌&&◌, ◌||◌, List, ℕ, ◌+◌, ◌≤◌, ◌<◌, length, get_or, take, eqb, IfOk, IfErr};
ghost use Rattle.model.specs.Lists.{count, ones, all_of};
ghost use Rattle.model.specs.Table.{slots, link, live};
ghost use Rattle.model.specs.Reach.{in_set};
ghost use Rattle.model.specs.Wall.{next, drawn, closed_at, enclosed, turns_well, wall_reached};
ghost use Rattle.model.specs.Meaning.Sets.{Marked};
ghost use Rattle.reach.specs.Search.{search_of, follow_below};
ghost use Rattle.walls.specs.Given.{Lent, Drawing, Closed, Nexts, SomeNext, SomeNexts, ToFlood, SomeFlood};
ghost use Rattle.walls.specs.Steps.{step, Stepping, Expanding};
ghost use Rattle.walls.specs.Tests.{Passes, Refuses};

use reading::{is_free, link_in, live};
use refusals::Reason;
use scans::{skip_blocks, skip_clear};

// The k-th word.
fn word(words: &[u16], k: u32) -> u32
    requires { k < length words.now }
    ensures { result ≡ get_or words.now k 0 }
{
    words[k as usize] as u32
}

// ---- 28

// Whether the mark of x is 0, or 1 at a live slot.
fn mark_fits(table: &[u32], mark: u8, x: u32) -> bool
    ensures { result ≡ (eqb mark 0 || (eqb mark 1 && live table.now x)) }
{
    if mark == 0 {
        return true;
    }
    (mark == 1) & live(table, x)
}

// Whether 28 passes.
fn drawn(table: &[u32], marks: &[u8]) -> bool
    requires { (length marks.now ≡ slots table.now) × (slots table.now ≤ 65536) }
    ensures { result ≡ drawn table.now marks.now }
{
    let mut x = skip_blocks(marks, 0);
    while x < marks.len() {
        if !mark_fits(table, marks[x], x as u32) {
            return false;
        }
        x = skip_clear(marks, x + 1);
    }
    true
}

// ---- 29

// Whether x is a dart of the wall.
fn on_wall(marks: &[u8], x: u32) -> bool
    requires { x < length marks.now }
    ensures { result ≡ in_set marks.now x }
{
    marks[x as usize] == 1
}

// Whether the links 0..n-2 and n of h stay on the wall.
fn closed_at(n: u32, table: &[u32], marks: &[u8], h: u32) -> bool
    requires { (Drawing n table.now marks.now) × (Marked marks.now h) }
    ensures { result ≡ closed_at n table.now marks.now h }
{
    let flat = on_wall(marks, link_in(table, 0, h)) & on_wall(marks, link_in(table, n as usize, h));
    if n == 3 {
        flat & on_wall(marks, link_in(table, 1, h))
    } else {
        flat
    }
}

// Whether 29 passes, for the darts hs of the wall.
fn enclosed(n: u32, table: &[u32], marks: &[u8], hs: &[u16]) -> bool
    requires { (Drawing n table.now marks.now) × (hs.now ≡ ones marks.now) }
    ensures { result ≡ enclosed n table.now marks.now }
{
    if hs.is_empty() {
        return false;
    }
    hs.iter().all(|&h| closed_at(n, table, marks, h as u32))
}

// ---- 30

// Whether none of the darts hs is n-free.
fn sewn(n: u32, table: &[u32], hs: &[u16]) -> bool
    requires { n < 4 }
    ensures { result ≡ all_of (λ h. not (eqb (link table.now n h) h)) hs.now }
{
    hs.iter().all(|&h| !is_free(table, n, h as u32))
}

// ---- next

// next(h): link n-1, then n and n-1 by turns, until a dart of the wall is met; h itself where a free side ends the turn. It comes to no
// dart twice.
fn next_of(n: u32, table: &[u32], marks: &[u8], h: u32) -> u32
    requires { (Closed n table.now marks.now) × (Marked marks.now h) }
    ensures { result ≡ next n table.now marks.now h }
{
    let last = n as usize - 1;
    let mut x = link_in(table, last, h);
    loop {
        if on_wall(marks, x) {
            break x;
        }
        let y = link_in(table, n as usize, x);
        if y == x {
            break h;
        }
        x = link_in(table, last, y);
    }
}

// next of each of the darts hs of the wall.
fn find_next(n: u32, table: &[u32], marks: &[u8], hs: &[u16], next: &mut [u16])
    requires closed { (Closed n table.now marks.now) × (hs.now ≡ ones marks.now) }
    requires table_in_bounds { slots table.now ≤ length next.old }
    ensures { Nexts n table.now marks.now next.new }
{
    for &h in hs {
        next[h as usize] = next_of(n, table, marks, h as u32) as u16;
    }
}

// ---- 31

// Whether next(h) is h and next(h.n) is h.n, as where both end free; or next(h).n = next(h.n), and next(h) is not h.n, nor in 3D h.0 or
// h.0.n.
fn turns_well(n: u32, table: &[u32], next: &[u16], h: u32) -> bool
    requires { SomeNext n table.now next.now h }
    ensures { (m : List ℕ) → Nexts n table.now m next.now → Marked m h
        → result ≡ turns_well n table.now m h }
{
    let a = word(next, h);
    let over = link_in(table, n as usize, h);
    let b = word(next, over);
    if (a == h) & (b == over) {
        return true;
    }
    let flat = (link_in(table, n as usize, a) == b) & (a != over);
    if n == 3 {
        let along = link_in(table, 0, h);
        flat & (a != along) & (a != link_in(table, n as usize, along))
    } else {
        flat
    }
}

// Whether 31 passes, for the darts hs of the wall.
fn turns(n: u32, table: &[u32], next: &[u16], hs: &[u16]) -> bool
    requires { SomeNexts n table.now next.now hs.now }
    ensures { (m : List ℕ) → Nexts n table.now m next.now → hs.now ≡ ones m
        → result ≡ all_of (turns_well n table.now m) (ones m) }
{
    hs.iter().all(|&h| turns_well(n, table, next, h as u32))
}

// ---- 32

// Step i of x: link i, and next where i is n-1.
fn step(n: u32, table: &[u32], next: &[u16], i: u32, x: u32) -> u32
    requires { (Stepping n table.now next.now x) × (i ≤ n) }
    ensures { result ≡ step n table.now next.now i x }
{
    let turned = word(next, x);
    if i == n - 1 {
        turned
    } else {
        link_in(table, i as usize, x)
    }
}

// The steps of x are met.
fn expand(
    n: u32,
    table: &[u32],
    next: &[u16],
    seen: &mut [u16],
    queue: &mut [u16],
    from: usize,
    x: u32,
) -> usize
    requires { Expanding n table.now next.now x seen.old queue.old from }
    ensures { search_of seen.new queue.new result
        ≡ follow_below (λ _. true) (step n table.now next.now) x (n + 1)
        (search_of seen.old queue.old from) }
{
    let mut tail = from;
    for i in 0..n + 1 {
        let y = step(n, table, next, i, x);
        tail = reach::meet(seen, queue, tail, y);
    }
    tail
}

// How many darts are reached from the queue's first dart. Each dart found goes into the queue and is expanded once.
// (Beside reach's orbit: a closure for the step of both would have to be asked, in each clause, for what Stepping says here once.)
fn reached(n: u32, table: &[u32], next: &[u16], seen: &mut [u16], queue: &mut [u16]) -> u32
    requires { SomeFlood n table.now next.now seen.old queue.old }
    ensures { (m : List ℕ) → ToFlood n table.now m next.now seen.old queue.old
        → result ≡ count 1 (wall_reached n table.now m) }
{
    let d = queue[0] as usize;
    seen[d] = 1;
    let mut head = 0;
    let mut tail = 1;
    while head < tail {
        let x = queue[head] as u32;
        tail = expand(n, table, next, seen, queue, tail, x);
        head += 1;
    }
    tail as u32
}

// ---- all of them

// The tests of a wall in their order, and next of each of its darts: how many darts it has, or the reason that refuses it. The queue has
// the wall's darts, rising, until the flood takes it.
pub fn test(
    n: u32,
    table: &[u32],
    marks: &[u8],
    queue: &mut [u16],
    next: &mut [u16],
    seen: &mut [u16],
) -> Result<u32, Reason>
    requires { Lent n table.now marks.now queue.old next.old seen.old }
    ensures passes { IfOk result (Passes n table.now marks.now next.new) }
    ensures refuses { IfErr result (Refuses n table.now marks.now) }
{
    if !drawn(table, marks) {
        return Err(Reason::NotDrawn);
    }
    let size = scans::list_ones(marks, queue);
    let hs = &queue[..size as usize];
    if !enclosed(n, table, marks, hs) {
        return Err(Reason::NotEnclosed);
    }
    if !sewn(n, table, hs) {
        return Err(Reason::NotSewn);
    }
    find_next(n, table, marks, hs, next);
    if !turns(n, table, next, hs) {
        return Err(Reason::WrongTurns);
    }
    let end = marks.len();
    let found = reached(n, table, next, &mut seen[..end], queue);
    if found != size {
        return Err(Reason::NotConnected);
    }
    Ok(size)
}
