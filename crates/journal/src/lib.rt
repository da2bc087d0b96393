// Records of the journal: room for one, the test whether one is broken, and putting its values into a table. Each word is read and
// written within the journal and the table, whatever a record says.
#![tactic(auto)]

ghost use Rattle.std.specs.Prelude.{◌≡◌, true, [], ◌∷◌, ◌+◌, ◌-◌, ◌<◌, ◌≤◌, length, get_or, leb};
ghost use Rattle.model.specs.Journal.{cursor, end, changes_at, put, record_length, sound, unbroken};
ghost use Rattle.journal.specs.Records.{change_at, value_put, within};

// How many words a record of k changes has.
pub fn record_length(k: u32) -> usize
    ensures { result ≡ record_length k }
{
    3 * (k as usize) + 3
}

// Whether a record of k changes is no longer than the words from the cursor to the journal's length.
#[tactic(auto, unfolding(model::specs::Journal::cursor))]
pub fn record_fits(journal: &[u32], k: u32) -> bool
    requires { (0 < length journal.now) × (cursor journal.now ≤ length journal.now) }
    ensures { result ≡ leb (record_length k) (length journal.now - cursor journal.now) }
{
    record_length(k) <= journal.len() - journal[0] as usize
}

// The value that the triple at the word w puts: the new one where redo is true, else the old one.
// redo stays a bool here and below: it is the Bool of the model's `put`, `sound` and `unbroken`, which `!redo` turns in the clauses too.
#[tactic(auto, unfolding(crate::specs::Records::change_at, crate::specs::Records::value_put))]
fn value_put(redo: bool, journal: &[u32], w: usize) -> u32
    requires { w + 3 ≤ length journal.now }
    ensures { result ≡ value_put redo (change_at journal.now w) }
{
    if redo { journal[w + 2] } else { journal[w + 1] }
}

// Puts the new values (redo), or the old ones, of the k changes of the record at the word a into the table.
// Here and below the triples are counted, not cut out by chunks_exact: the word w of one is what the clauses of `value_put` and `sound_change` name.
pub fn put_record(redo: bool, table: &mut [u32], journal: &[u32], a: usize, k: usize)
    requires { (a + record_length k ≤ length journal.now)
        × (within (length table.old) (changes_at journal.now a k) ≡ true) }
    ensures { table.new ≡ put redo (changes_at journal.now a k) table.old }
{
    for turn in 0..k {
        let w = a + 2 + 3 * turn;
        let e = journal[w] as usize;
        table[e] = value_put(redo, journal, w);
    }
}

// Of the triple at the word w: its entry is at least `least` and lies in the table, its values differ, and the table
// holds the value to be replaced.
fn sound_change(redo: bool, table: &[u32], journal: &[u32], w: usize, least: usize) -> bool
    requires { w + 3 ≤ length journal.now }
    ensures { result ≡ sound redo table.now least (change_at journal.now w ∷ []) }
{
    let e = journal[w] as usize;
    if e < least {
        return false;
    }
    if table.len() <= e {
        return false;
    }
    if journal[w + 1] == journal[w + 2] {
        return false;
    }
    table[e] == value_put(!redo, journal, w)
}

// The same of all k changes of the record at the word a, whose entries rise.
fn sound_changes(redo: bool, table: &[u32], journal: &[u32], a: usize, k: usize) -> bool
    requires { a + record_length k ≤ length journal.now }
    ensures { result ≡ sound redo table.now 0 (changes_at journal.now a k) }
{
    let mut least = 0;
    for turn in 0..k {
        let w = a + 2 + 3 * turn;
        if !sound_change(redo, table, journal, w, least) {
            return false;
        }
        least = journal[w] as usize + 1;
    }
    true
}

// Whether the record of k changes at the word a is not broken. a and k may be any numbers.
#[tactic(auto, unfolding(model::specs::Journal::end))]
pub fn unbroken(redo: bool, table: &[u32], journal: &[u32], a: usize, k: u32) -> bool
    requires { (2 ≤ length journal.now) × (end journal.now ≤ length journal.now) }
    ensures { result ≡ unbroken redo table.now journal.now a k }
{
    let last = 3 * (k as usize) + 2;
    let end = journal[1] as usize;
    let past_end = end.saturating_sub(a) <= last;
    if (k == 0) | (a < 2) | past_end {
        return false;
    }
    if journal[a] != journal[a + last] {
        return false;
    }
    sound_changes(redo, table, journal, a, k as usize)
}

// A record in the journal: the word where it begins, and how many changes it has.
#[derive(Clone, Copy)]
pub struct RecordAt {
    pub start: usize,
    pub count: u32,
}

// The record before the cursor, by its last word; it begins at 0 if it would begin before that.
#[tactic(auto, unfolding(model::specs::Journal::cursor))]
pub fn undo_start(journal: &[u32]) -> RecordAt
    requires { (2 ≤ cursor journal.now) × (cursor journal.now ≤ length journal.now) }
    ensures count { result.count ≡ get_or journal.now (cursor journal.now - 1) 0 }
    ensures start { result.start ≡ cursor journal.now - record_length result.count }
{
    let cursor = journal[0] as usize;
    let k = journal[cursor - 1];
    let size = record_length(k);
    RecordAt {
        start: cursor.saturating_sub(size),
        count: k,
    }
}
