// pick: the sheet of a dart, found over a queue that the caller lends.
#![tactic(auto)]

ghost use Rattle.std.specs.Prelude.{◌≡◌, false, [], ◌∷◌, OnErr};
ghost use Rattle.model.specs.Checks.{refuse, in_order, must, dim_ok, table_ok, marks_ok};
ghost use Rattle.model.specs.Calls.{pick_call, pick_taken};
ghost use Rattle.answers.specs.Answers.{number_of, outcome};
ghost use Rattle.call_pick.specs.Given.{answer_of, taken_of};

use answers::{Reason, Refused};

// The sheet's size, and "how many it took off".
#[derive(Clone, Copy, Debug, PartialEq, Eq)]
pub struct Picked {
    pub count: u32,
    pub taken: u32,
}

// The refusal where the queue's length is wrong: 37 comes "after 3".
fn wrong_queue(n: u32, table: &[u32], marks: &[u8]) -> Reason
    ensures { in_order (dim_ok n ∷ table_ok table.now ∷ marks_ok table.now marks.now
        ∷ must false 37 ∷ []) ≡ refuse (number_of result) 0 0 }
{
    if !reading::dim_fits(n) {
        return Reason::WrongDimension;
    }
    if !reading::table_fits(table) {
        return Reason::WrongTableLength;
    }
    if !reading::marks_fit(table, marks) {
        return Reason::WrongMarksLength;
    }
    Reason::WrongQueueLength
}

// "Its marks and answers equal the first engine's." "The queue's leftover content may be any .. a refusal leaves the queue as lent."
pub fn pick(
    n: u32,
    table: &[u32],
    marks: &mut [u8],
    queue: &mut [u32],
    d: u32,
) -> Result<Picked, Refused>
    ensures marks_after { outcome (answer_of result) table.now marks.new []
        ≡ pick_call n table.now marks.old queue.old d }
    ensures taken_value { taken_of result ≡ pick_taken n table.now marks.old queue.old d }
    ensures queue_unchanged { OnErr result (queue.new ≡ queue.old) }
{
    if queue.len() != table.len() / 4 {
        return Err(wrong_queue(n, table, marks).into());
    }
    let opened = answers::opening_layer(n, table, reading::marks_fit(table, marks), true, d);
    opened?;
    let found = picks::pick(n, table, marks, queue, d);
    Ok(Picked {
        count: found.entered,
        taken: found.taken,
    })
}
