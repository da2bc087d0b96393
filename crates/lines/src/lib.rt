// The session as a machine: the input comes in pieces, and what is printed for a piece is written into a lent buffer. The
// machine is a `Session`, by value, and the lent buffers: the line so far, the table, the marks and the journal.
#![tactic(auto)]

ghost use Rattle.std.specs.Prelude.{◌≡◌, List, false, ℕ, ◌+◌, ◌*◌, ◌<◌, ◌≤◌, length, take};
ghost use Rattle.model.specs.Text.{newline};
ghost use Rattle.model.specs.Session.{session};
ghost use Rattle.texts.specs.Texts.{Appended};
ghost use Rattle.lines.specs.Machine.{start, hold, fed, says, fed_all, says_all, ends};
ghost use Rattle.lines.specs.Held.{machine_of, Room, Kept, Told};

mod giving;
mod taking;

// The key of the line that is due.
#[derive(Clone, Copy, PartialEq, Eq)]
pub enum Key {
    Dim,
    Slots,
    Op,
    I,
    D,
    E,
}

// What the lines so far have given.
#[derive(Clone, Copy)]
pub struct Session {
    // `bad=` has been printed
    pub done: bool,
    // the number of the line, from 1, and how many bytes of it are held
    pub line: u64,
    pub held: usize,
    pub key: Key,
    pub n: u32,
    pub slots: usize,
    pub op: u32,
    pub i: u32,
    pub d: u32,
}

// A session, and the place behind what it has printed.
#[derive(Clone, Copy)]
pub struct Step {
    pub session: Session,
    pub at: usize,
}

// The session before its first line.
pub fn start() -> Session
    ensures { Kept result × (result.line ≡ 1) × ((xs t m j : List ℕ) → machine_of result xs t m j ≡ start) }
{
    Session {
        done: false,
        line: 1,
        held: 0,
        key: Key::Dim,
        n: 0,
        slots: 0,
        op: 0,
        i: 0,
        d: 0,
    }
}

// ---- a byte

// The line so far, with one byte more; a line of 15 bytes does not fit anyway.
fn hold(text: &mut [u8], held: usize, b: u8) -> usize
    requires { (held ≤ 15) × (15 ≤ length text.old) }
    ensures { (take result text.new ≡ hold (take held text.old) b) × (result ≤ 15) }
{
    if held < 15 {
        text[held] = b;
        return held + 1;
    }
    held
}

// The line that is held has ended: what it gives is taken, or it is bad.
fn line_ended(
    s: Session,
    text: &[u8],
    table: &mut [u32],
    marks: &mut [u8],
    journal: &mut [u32],
    out: &mut [u8],
    at: usize,
) -> Step
    requires room { (Room text.now table.old marks.old journal.old) × (Kept s) × (s.done ≡ false) }
    requires line_bound { (s.line < 18446744073709551615) × (at + 80 ≤ length out.old) }
    ensures { Told s 1
        (fed (machine_of s text.now table.old marks.old journal.old) newline)
        (says (machine_of s text.now table.old marks.old journal.old) newline)
        result text.now table.new marks.new journal.new
        out.old at out.new }
{
    match giving::given(s.key, &text[..s.held]) {
        Some(v) => {
            let end = taking::done(s, v, table, marks, journal, out, at);
            Step {
                session: taking::noted(s, v),
                at: end,
            }
        }
        None => {
            let end = texts::say(out, at, b"bad=", s.line);
            Step {
                session: Session { done: true, ..s },
                at: end,
            }
        }
    }
}

// One byte of the input.
fn feed_byte(
    s: Session,
    b: u8,
    text: &mut [u8],
    table: &mut [u32],
    marks: &mut [u8],
    journal: &mut [u32],
    out: &mut [u8],
    at: usize,
) -> Step
    requires room { (Room text.old table.old marks.old journal.old) × (Kept s) }
    requires line_bound { (s.line < 18446744073709551615) × (at + 80 ≤ length out.old) }
    ensures { Told s 1
        (fed (machine_of s text.old table.old marks.old journal.old) b)
        (says (machine_of s text.old table.old marks.old journal.old) b)
        result text.new table.new marks.new journal.new
        out.old at out.new }
{
    if s.done {
        return Step { session: s, at };
    }
    if b == b'\n' {
        return line_ended(s, text, table, marks, journal, out, at);
    }
    let held = hold(text, s.held, b);
    Step {
        session: Session { held, ..s },
        at,
    }
}

// ---- the whole input

// A piece of the input. What is printed for it is written into `out` behind `at`.
pub fn feed(
    s: Session,
    piece: &[u8],
    text: &mut [u8],
    table: &mut [u32],
    marks: &mut [u8],
    journal: &mut [u32],
    out: &mut [u8],
    at: usize,
) -> Step
    requires room { (Room text.old table.old marks.old journal.old) × (Kept s) }
    requires piece_bound { (s.line + length piece.now < 18446744073709551616)
        × (at + 80 * length piece.now ≤ length out.old) }
    ensures { Told s (length piece.now)
        (fed_all (machine_of s text.old table.old marks.old journal.old)
        piece.now)
        (says_all (machine_of s text.old table.old marks.old journal.old)
        piece.now)
        result text.new table.new marks.new journal.new
        out.old at out.new }
{
    let mut step = Step { session: s, at };
    for &b in piece {
        step = feed_byte(step.session, b, text, table, marks, journal, out, step.at);
    }
    step
}

// The input has ended: it is whole if it ends before an `op=`.
pub fn finish(s: Session, table: &[u32], out: &mut [u8], at: usize) -> usize
    requires { (3840 ≤ length table.now) × (Kept s) × (at + 122906 ≤ length out.old) }
    ensures { (xs m j : List ℕ) → s.held ≤ length xs
        → Appended out.old at (ends (machine_of s xs table.now m j)) out.new result }
{
    if s.done {
        return at;
    }
    if s.held != 0 || s.key != Key::Op {
        return texts::say(out, at, b"bad=", s.line);
    }
    let end = 4 * s.slots;
    printing::ending(out, at, &table[..end])
}

// A whole session: what is printed for the input is the first bytes of `out`.
pub fn whole(
    input: &[u8],
    text: &mut [u8],
    table: &mut [u32],
    marks: &mut [u8],
    journal: &mut [u32],
    out: &mut [u8],
) -> usize
    requires { (Room text.old table.old marks.old journal.old)
        × (80 * length input.now + 122906 ≤ length out.old) }
    ensures { (take result out.new ≡ session input.now) × (result ≤ length out.new) }
{
    let fed = feed(start(), input, text, table, marks, journal, out, 0);
    finish(fed.session, table, out, fed.at)
}
