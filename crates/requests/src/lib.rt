// A request: one call on the table, marks and journal that the last one left.
#![tactic(auto)]

ghost use Rattle.std.specs.Prelude.{◌≡◌, ◌≢◌, ◌⊎◌};
ghost use Rattle.model.specs.Runs.{do_call};
ghost use Rattle.model.specs.Session.{call_of};
ghost use Rattle.answers.specs.Answers.{number, outcome};
ghost use Rattle.requests.specs.Asked.{lent_to, any_outcome, any_taken};
ghost use Rattle.requests.specs.Names.{Names};

use answers::{Answer, Done};

// The calls, by their places among the names: those of a session, and behind them insert, sew_list, pick and read_vtk.
#[derive(Clone, Copy, Debug, PartialEq, Eq)]
pub enum Op {
    Check,
    Orbit,
    Sheet,
    Add,
    Sew,
    Unsew,
    Remove,
    Split,
    Undo,
    Redo,
    Insert,
    SewList,
    Pick,
    ReadVtk,
}

// Any number behind the last place is check's too.
impl From<u32> for Op {
    ghost from_gives = { λ place op. Names place op };

    fn from(place: u32) -> Op {
        match place {
            1 => Op::Orbit,
            2 => Op::Sheet,
            3 => Op::Add,
            4 => Op::Sew,
            5 => Op::Unsew,
            6 => Op::Remove,
            7 => Op::Split,
            8 => Op::Undo,
            9 => Op::Redo,
            10 => Op::Insert,
            11 => Op::SewList,
            12 => Op::Pick,
            13 => Op::ReadVtk,
            _ => Op::Check,
        }
    }
}

// The call of the session whose op has this place among the names: "i holds the index or mask". An operation's record has the tag.
// op stays a number, here and in `any_request`, since both take any: what names no call is check.
pub fn request(
    n: u32,
    table: &mut [u32],
    marks: &mut [u8],
    journal: &mut [u32],
    op: u32,
    tag: u32,
    i: u32,
    d: u32,
    e: u32,
) -> Answer
    ensures { outcome result table.new marks.new journal.new
        ≡ do_call n (lent_to table.old marks.old journal.old) (call_of op tag i d e) }
{
    match Op::from(op) {
        Op::Orbit => kernel::orbit(n, table, marks, i, d),
        Op::Sheet => kernel::sheet(n, table, marks, d),
        Op::Add => kernel::add(n, table, journal, tag),
        Op::Sew => kernel::sew(n, table, journal, tag, i, d, e),
        Op::Unsew => kernel::unsew(n, table, journal, tag, i, d),
        Op::Remove => kernel::remove(n, table, marks, journal, tag, d),
        Op::Split => kernel::split(n, table, marks, journal, tag, d),
        Op::Undo => kernel::undo(n, table, journal),
        Op::Redo => kernel::redo(n, table, journal),
        _ => kernel::check(n, table),
    }
}

// The same of all calls: behind those of the session, insert along the wall that the marks draw, sew_list of a list, pick over a
// queue, and read_vtk of a text. How many darts pick took off is stored, for every other call 0; the queue stays as it is lent, but
// where pick is accepted.
pub fn any_request(
    n: u32,
    table: &mut [u32],
    marks: &mut [u8],
    journal: &mut [u32],
    op: u32,
    tag: u32,
    i: u32,
    d: u32,
    e: u32,
    list: &[u32],
    queue: &mut [u32],
    taken: &mut u32,
    text: &[u8],
) -> Answer
    ensures journal_after { outcome result table.new marks.new journal.new
        ≡ any_outcome n (lent_to table.old marks.old journal.old) op tag i d e list.now
        queue.old text.now }
    ensures taken_after { taken.new ≡ any_taken n table.old marks.old op d queue.old }
    ensures queue_unchanged { (op ≢ 12) ⊎ (number result ≢ 0) → queue.new ≡ queue.old }
{
    *taken = 0;
    match Op::from(op) {
        Op::Insert => kernel::insert(n, table, marks, journal, tag),
        Op::SewList => kernel::sew_list(n, table, journal, tag, list),
        Op::Pick => match kernel::pick(n, table, marks, queue, d) {
            Ok(picked) => {
                *taken = picked.taken;
                Ok(Done {
                    place: 0,
                    count: picked.count,
                })
            }
            Err(refused) => Err(refused),
        },
        Op::ReadVtk => kernel::read_vtk(n, table, journal, tag, text),
        _ => request(n, table, marks, journal, op, tag, i, d, e),
    }
}
