// Table and record of a read: each cell's links, and where its darts are sewn to.
#![tactic(auto)]

ghost use Rattle.std.specs.Prelude.{◌≡◌, List, ℕ, ◌+◌, ◌*◌, ◌/◌, ◌%◌, ◌≤◌, ◌<◌, length, get_or, replicate};
ghost use Rattle.model.specs.Table.{unused, link};
ghost use Rattle.model.specs.Journal.{changes_from};
ghost use Rattle.model.specs.Faces.{face_darts, partner, vtk_table};
ghost use Rattle.drafts.specs.Drafts.{drafted};
ghost use Rattle.drafts.specs.Passes.{Pass, FourLinks, ToSlot};
ghost use Rattle.vtk_faces.specs.Walks.{face_walk, walk_at, walk_dart};
ghost use Rattle.vtk_table.specs.Cells.{step_at, Steps, first_dart, Cells, SomeCells, Sews};
ghost use Rattle.vtk_table.specs.Cells.{word_at, RecordWords, TableWords, dart_links, Placed, NewCell, ToCell, NewCells, SomeNewCells};

use reading::UNUSED;
use std::array;
use vtk_faces::face_dart;

// ---- round the faces of a cell

// The dart that y % 8 steps by links 0, 1, 0, .. lead to from the one at the place y / 8 of a cell's walks, by the entries before it.
fn step_at(steps: &[u8; 384], y: usize) -> u8
    requires { (y < 384) × (Steps y steps.now) }
    ensures { result ≡ step_at y }
{
    if y % 64 == 0 {
        return face_dart(y as u32 / 64) as u8;
    }
    if y % 8 == 0 {
        return steps[64 * (y / 64) + y / 8 % 8];
    }
    numbering::cell_link(3, (y as u32 - 1) % 2, steps[y - 1] as u32) as u8
}

// All of them. The loop counts an index, as each is found from those before it.
fn steps() -> [u8; 384]
    ensures { Steps 384 result }
{
    let mut steps = [0u8; 384];
    for y in 0..384usize {
        steps[y] = step_at(&steps, y);
    }
    steps
}

// ---- the faces of a cell

// The dart that the first of the face at the position p is sewn to, as a place of the walks, 48 to a cell: its own, if no other cell has
// the face.
fn partner(mates: &[u16], p: usize) -> usize
    requires { SomeCells mates.now (p / 6) }
    ensures { (t : List ℕ) (rs : List (List ℕ)) → Cells t rs mates.now → p / 6 < length rs
        → partner rs (first_dart p) ≡ walk_dart result }
{
    let mate = mates[p + 1] as usize;
    if mate == 0 {
        return 8 * p;
    }
    mate - 8
}

// Link 3 of the eight darts of the face f, whose first is sewn to the dart at the place r of the walks: both faces are walked in step.
fn sew_face(thirds: &mut [u32], steps: &[u8; 384], f: usize, r: usize)
    requires { (length thirds.old ≡ 48) × (Steps 384 steps.now) × (f < 6) × (r < 65568) }
    ensures { (g : ℕ → ℕ)
        → ((i : ℕ) → i < 8 → g (face_walk i (get_or face_darts f 0)) ≡ 48 * (r / 48) + face_walk i (walk_at (r % 48)))
        → Sews g (get_or face_darts f 0) 8 thirds.old thirds.new }
{
    let cell = 48 * (r / 48);
    let there = 8 * (r % 48);
    for i in 0..8usize {
        let d = steps[there + i] as usize;
        thirds[steps[64 * f + i] as usize] = (cell + d) as u32;
    }
}

// Link 3 of each dart of the cell c.
fn sew_cell(thirds: &mut [u32], mates: &[u16], steps: &[u8; 384], c: usize)
    requires { (length thirds.old ≡ 48) × (SomeCells mates.now c) × (Steps 384 steps.now) }
    ensures { (t : List ℕ) (rs : List (List ℕ)) → Cells t rs mates.now → c < length rs
        → (k : ℕ) → k < 48 → get_or thirds.new k 0 ≡ partner rs (48 * c + k) }
{
    for f in 0..6usize {
        let to = partner(mates, 6 * c + f);
        sew_face(thirds, steps, f, to);
    }
}

// ---- table and record

// The word y of the record of a cell in the slots 0 to 47, three to an entry; the new value of each link 3 is 0.
fn record_word(y: u32) -> u32
    requires { y < 576 }
    ensures { result ≡ word_at y }
{
    if y % 3 == 0 {
        return y / 3;
    }
    if y % 3 == 1 {
        return UNUSED;
    }
    let i = y / 3 % 4;
    if i == 3 {
        return 0;
    }
    numbering::cell_link(3, i, y / 12)
}

// All of them.
fn record_words() -> [u32; 576]
    ensures { RecordWords result }
{
    array::from_fn(|y| record_word(y as u32))
}

// Of these the new values, as the table has them.
fn table_words() -> [u32; 192]
    ensures { TableWords result }
{
    array::from_fn(|x| record_word(3 * x as u32 + 2))
}

// A pass comes to the dart k of the cell whose first slot is `cell`, and it is sewn to the slot `third`: its record is drafted, from the word
// w on.
fn draft_dart(journal: &mut [u32], w: usize, words: &[u32; 576], k: usize, cell: u32, third: u32)
    requires { (RecordWords words.now) × (k < 48) × (ToSlot (cell + k) (replicate 4 unused) (dart_links cell third k) w journal.old) }
    ensures { (t u j : List ℕ) → Pass t u j (cell + k) w journal.old
        → FourLinks t u (cell + k) (replicate 4 unused) (dart_links cell third k)
        → Pass t u j (cell + k + 1) (w + 12) journal.new }
{
    let more = [cell, cell, cell, third];
    // i stays a number: it is the link, and moves the record's word and the template's too
    for i in 0..4usize {
        let y = 3 * (4 * k + i);
        drafts::write_triple(
            journal,
            w + 3 * i,
            words[y] + 4 * cell,
            words[y + 1],
            words[y + 2] + more[i],
        );
    }
}

// Its links are put into the table.
fn put_dart(table: &mut [u32], own: &[u32; 192], k: usize, cell: u32, third: u32)
    requires { (TableWords own.now) × (k < 48) × (4 * (cell + k + 1) ≤ length table.old) × (length table.old ≤ 262144) }
    ensures { (t u : List ℕ) → Placed t u (4 * (cell + k)) table.old
        → ((i : ℕ) → i < 4 → get_or (dart_links cell third k) i 0 ≡ link u i (cell + k))
        → Placed t u (4 * (cell + k + 1)) table.new }
{
    let more = [cell, cell, cell, third];
    let x = 4 * (cell as usize + k);
    // i stays a number: it is the link, in the table, in the template and in `more`
    for i in 0..4usize {
        table[x + i] = own[4 * k + i] + more[i];
    }
}

// A pass comes to the cell c: its darts are put into the table, and their record is drafted, from the word w on.
fn write_cell(
    table: &mut [u32],
    journal: &mut [u32],
    w: usize,
    words: &[u32; 576],
    own: &[u32; 192],
    thirds: &[u32; 48],
    c: usize,
)
    requires { (RecordWords words.now) × (TableWords own.now) × (ToCell thirds.now c w table.old journal.old) }
    ensures { (t u j : List ℕ) → Placed t u (4 * (48 * c)) table.old → Pass t u j (48 * c) w journal.old
        → NewCell t u thirds.now c
        → (Placed t u (4 * (48 * (c + 1))) table.new) × (Pass t u j (48 * (c + 1)) (w + 576) journal.new) }
{
    let cell = 48 * c as u32;
    for (k, &third) in thirds.iter().enumerate() {
        draft_dart(journal, w + 12 * k, words, k, cell, third);
        put_dart(table, own, k, cell, third);
    }
}

// Writes the cells into the table, and drafts their record: four entries for each of their darts.
pub fn write_cells(table: &mut [u32], journal: &mut [u32], mates: &[u16], cells: usize)
    requires { SomeNewCells table.old mates.now cells journal.old }
    ensures { (rs : List (List ℕ)) → NewCells table.old rs mates.now cells journal.old
        → (table.new ≡ vtk_table table.old rs)
        × (journal.new ≡ drafted journal.old (changes_from 0 table.old (vtk_table table.old rs))) }
{
    let words = record_words();
    let own = table_words();
    let steps = steps();
    let mut thirds = [0u32; 48];
    let mut w = journal[0] as usize + 2;
    for c in 0..cells {
        sew_cell(&mut thirds, mates, &steps, c);
        write_cell(table, journal, w, &words, &own, &thirds, c);
        w += 576;
    }
}
