// The record of an operation, written at the cursor: drafted in a rising pass over the table, closed, and its values put.
#![tactic(auto)]

ghost use Rattle.std.specs.Prelude.{◌≡◌, List, [], ◌∷◌, ◌++◌, ℕ, ◌+◌, ◌*◌, ◌≤◌, length};
ghost use Rattle.model.specs.Journal.{Change, cursor, changes_from, record_length, record_of, written};
ghost use Rattle.drafts.specs.Drafts.{drafted};
ghost use Rattle.drafts.specs.Passes.{Pass, OneLink, FourLinks, ToLink, ToSlot, Drafted, SomeDraft};

// Writes a triple at the word w, behind those of a draft.
pub fn write_triple(journal: &mut [u32], w: usize, entry: u32, old: u32, new: u32)
    requires { w + 4 ≤ length journal.old }
    ensures { (j : List ℕ) (cs : List Change) → journal.old ≡ drafted j cs → w ≡ cursor j + (3 * length cs + 2)
        → journal.new ≡ drafted j (cs ++ record { entry = entry; old = old; new = new } ∷ []) }
{
    journal[w] = entry;
    journal[w + 1] = old;
    journal[w + 2] = new;
}

// A pass comes to the slot x, where link i alone changes: its triple is written at the word w.
pub fn write_link(journal: &mut [u32], w: usize, x: u32, i: u32, old: u32, new: u32)
    requires { ToLink x i old new w journal.old }
    ensures { (t u j : List ℕ) → Pass t u j x w journal.old → OneLink t u x i old new
        → Pass t u j (x + 1) (w + 3) journal.new }
{
    write_triple(journal, w, 4 * x + i, old, new);
}

// A pass comes to the slot x, where all four links change: their triples are written from the word w on.
pub fn write_slot(journal: &mut [u32], w: usize, x: u32, old: [u32; 4], new: [u32; 4])
    requires { ToSlot x old new w journal.old }
    ensures { (t u j : List ℕ) → Pass t u j x w journal.old → FourLinks t u x old new
        → Pass t u j (x + 1) (w + 12) journal.new }
{
    // k stays a number: it is the link, and moves the word and the entry, so a zip of old and new would need it beside them.
    for k in 0..4 {
        write_triple(journal, w + 3 * k, 4 * x + k as u32, old[k], new[k]);
    }
}

// Writes k and the tag before the k triples of a draft, and k behind them; the cursor and the end go behind it: the record is
// written.
pub fn close_record(journal: &mut [u32], k: u32, tag: u32)
    requires { (cursor journal.old + record_length k ≤ length journal.old) × (length journal.old ≤ 1048576) }
    ensures { (j : List ℕ) (cs : List Change) → journal.old ≡ drafted j cs → k ≡ length cs
        → journal.new ≡ written j (record_of tag cs) }
{
    let start = journal[0] as usize;
    let last = start + 3 * (k as usize) + 2;
    journal[start] = k;
    journal[start + 1] = tag;
    journal[last] = k;
    let behind = last as u32 + 1;
    journal[0] = behind;
    journal[1] = behind;
}

// The record of a draft of k changes is closed, with its tag, and its new values are put into the table.
pub fn carry_out(table: &mut [u32], journal: &mut [u32], k: u32, tag: u32)
    requires { SomeDraft table.old k journal.old }
    ensures { (u j : List ℕ) → Drafted table.old u j k journal.old
        → (table.new ≡ u)
        × (journal.new ≡ written j (record_of tag (changes_from 0 table.old u))) }
{
    let start = journal[0] as usize;
    close_record(journal, k, tag);
    journal::put_record(true, table, journal, start, k as usize);
}
