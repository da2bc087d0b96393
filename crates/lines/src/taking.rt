// The value of a line is taken: the next line is due, and with `e=` a request runs.
ghost use Rattle.std.specs.Prelude.{◌≡◌, ◌+◌, ◌*◌, ◌<◌, ◌≤◌, length, take};
ghost use Rattle.model.specs.Runs.{do_call};
ghost use Rattle.model.specs.Runs.{begin};
ghost use Rattle.model.specs.Session.{call_of, session_tag};
ghost use Rattle.answers.specs.Answers.{outcome};
ghost use Rattle.lines.specs.Held.{lent, due, noted_at, Fits, Noted};

use crate::{Key, Session};
use answers::Answer;

// A table with no live slot, marks that are 0, and a fresh journal: "The journal has 16,384 words."
fn fresh(slots: usize, table: &mut [u32], marks: &mut [u8], journal: &mut [u32])
    requires { (3840 ≤ length table.old) × (960 ≤ length marks.old) × (length journal.old ≡ 16384)
        × (slots ≤ 960) }
    ensures { lent slots table.new marks.new journal.new ≡ begin slots 16384 }
{
    let end = 4 * slots;
    table[..end].fill(reading::UNUSED);
    marks[..slots].fill(0);
    fresh::fresh_journal(journal);
}

// ---- a request

// The tag of a session's operations.
const SESSION_TAG: u32 = 0;

// Runs the request whose `e=` is e.
fn ask(s: Session, e: u32, table: &mut [u32], marks: &mut [u8], journal: &mut [u32]) -> Answer
    requires { (3840 ≤ length table.old) × (960 ≤ length marks.old) × (s.slots ≤ 960) }
    ensures { outcome result (take (4 * s.slots) table.new) (take s.slots marks.new)
        journal.new
        ≡ do_call s.n (lent s.slots table.old marks.old journal.old)
        (call_of s.op session_tag s.i s.d e) }
{
    let slots = s.slots;
    let end = 4 * slots;
    requests::request(
        s.n,
        &mut table[..end],
        &mut marks[..slots],
        journal,
        s.op,
        SESSION_TAG,
        s.i,
        s.d,
        e,
    )
}

// ---- the line that comes next

// The next line is due, with this key.
fn due(s: Session, key: Key) -> Session
    requires { s.line < 18446744073709551615 }
    ensures { result ≡ due s key }
{
    Session {
        line: s.line + 1,
        held: 0,
        key,
        ..s
    }
}

// The value of a line is noted.
pub fn noted(s: Session, v: u32) -> Session
    requires { s.line < 18446744073709551615 }
    ensures { result ≡ noted_at s.key s v }
{
    match s.key {
        Key::Dim => Session {
            n: v,
            ..due(s, Key::Slots)
        },
        Key::Slots => Session {
            slots: v as usize,
            ..due(s, Key::Op)
        },
        Key::Op => Session {
            op: v,
            ..due(s, Key::I)
        },
        Key::I => Session {
            i: v,
            ..due(s, Key::D)
        },
        Key::D => Session {
            d: v,
            ..due(s, Key::E)
        },
        Key::E => due(s, Key::Op),
    }
}

// What the value of a line does: `slots=` makes the table, and `e=` runs the request, whose answer is printed.
pub fn done(
    s: Session,
    v: u32,
    table: &mut [u32],
    marks: &mut [u8],
    journal: &mut [u32],
    out: &mut [u8],
    at: usize,
) -> usize
    requires in_bounds { (3840 ≤ length table.old) × (960 ≤ length marks.old) × (length journal.old ≡ 16384)
        × (s.slots ≤ 960) }
    requires fits { (Fits s.key v) × (at + 75 ≤ length out.old) }
    ensures { Noted s v table.old marks.old journal.old table.new
        marks.new journal.new out.old at out.new result }
{
    match s.key {
        Key::Slots => {
            fresh(v as usize, table, marks, journal);
            at
        }
        Key::E => {
            let answer = ask(s, v, table, marks, journal);
            printing::answer(out, at, answer)
        }
        Key::Dim | Key::Op | Key::I | Key::D => at,
    }
}
