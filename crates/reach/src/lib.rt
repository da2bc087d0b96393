// What is reached from a dart by the links of a mask: a flood over a queue that the caller lends.
#![tactic(auto)]

ghost use Rattle.std.specs.Prelude.{◌≡◌, ℕ, ◌+◌, ◌^◌, ◌<◌, eqb, length, map, set, replicate};
ghost use Rattle.model.specs.Lists.{count};
ghost use Rattle.model.specs.Table.{link};
ghost use Rattle.model.specs.Orbit.{bit, orbit};
ghost use Rattle.reach.specs.Search.{search_of, meet, follow, follow_below};
ghost use Rattle.reach.specs.Given.{Given, Stepping, Meeting};

// A mark of a slot, in the words that the caller lends: 0, or 1 where a flood has been.
pub trait Mark: Copy {
    ghost number: { Self → ℕ };

    // The mark 1.
    fn one() -> Self
        ensures { number result ≡ 1 };

    // Whether it is 0.
    fn is_zero(self) -> bool
        ensures { result ≡ eqb (number self) 0 };
}

impl Mark for u8 {
    ghost number = { λ x. x };

    fn one() -> u8 {
        1
    }

    fn is_zero(self) -> bool {
        self == 0
    }
}

impl Mark for u16 {
    ghost number = { λ x. x };

    fn one() -> u16 {
        1
    }

    fn is_zero(self) -> bool {
        self == 0
    }
}

// The dart y, if it has no mark yet, gets the mark 1 and goes behind the queue's words.
pub fn meet<M: Mark>(marks: &mut [M], queue: &mut [u16], tail: usize, y: u32) -> usize
    requires { Meeting (map M.number marks.old) queue.old tail y }
    ensures { search_of (map M.number marks.new) queue.new result
        ≡ meet y (search_of (map M.number marks.old) queue.old tail) }
{
    let unmarked = marks[y as usize].is_zero();
    if unmarked {
        marks[y as usize] = M::one();
        queue[tail] = y as u16;
        tail + 1
    } else {
        tail
    }
}

// Link i of x is met, if bit i of the mask permits it.
fn follow(
    table: &[u32],
    marks: &mut [u8],
    queue: &mut [u16],
    tail: usize,
    mask: u32,
    i: u32,
    x: u32,
) -> usize
    requires { (Stepping table.now marks.old queue.old tail x) × (i < 4) }
    ensures { search_of marks.new queue.new result
        ≡ follow (bit mask) (link table.now) x i (search_of marks.old queue.old tail) }
{
    if (mask >> i) % 2 == 1 {
        let y = reading::link_in(table, i as usize, x);
        meet(marks, queue, tail, y)
    } else {
        tail
    }
}

// The links of x are met.
fn expand(
    table: &[u32],
    marks: &mut [u8],
    queue: &mut [u16],
    from: usize,
    mask: u32,
    x: u32,
) -> usize
    requires { Stepping table.now marks.old queue.old from x }
    ensures { search_of marks.new queue.new result
        ≡ follow_below (bit mask) (link table.now) x 4 (search_of marks.old queue.old from) }
{
    let mut tail = from;
    for i in 0..4 {
        tail = follow(table, marks, queue, tail, mask, i, x);
    }
    tail
}

// All marks 0 but for d's, and d first in the queue.
fn begin(marks: &mut [u8], queue: &mut [u16], d: u32)
    requires { (d < length marks.old) × (d < 65536) × (0 < length queue.old) }
    ensures { (marks.new ≡ set (replicate (length marks.old) 0) d 1)
        × (queue.new ≡ set queue.old 0 d) }
{
    scans::clear(marks);
    marks[d as usize] = 1;
    queue[0] = d as u16;
}

// orbit (mask, d): marks 1 at the darts reached by the links that the mask permits, 0 elsewhere; the count of them. Each dart found
// goes into the queue and is expanded once.
pub fn orbit(n: u32, table: &[u32], marks: &mut [u8], queue: &mut [u16], mask: u32, d: u32) -> u32
    requires { (Given n table.now marks.old queue.old d) × (mask < 2 ^ (n + 1)) }
    ensures { (marks.new ≡ orbit n table.now mask d)
        × (result ≡ count 1 (orbit n table.now mask d)) }
{
    begin(marks, queue, d);
    let mut head = 0;
    let mut tail = 1;
    while head < tail {
        let x = queue[head] as u32;
        tail = expand(table, marks, queue, tail, mask, x);
        head += 1;
    }
    tail as u32
}
