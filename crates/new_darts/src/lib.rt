// The new darts of split and insert: the darts that get them listed with the places of their new ones, the links of these, and the record
// that makes them.
#![tactic(auto)]

use layer::Layer;
use reading::{UNUSED, link_in};
use split::Split;

mod layer;
mod split;

ghost use Rattle.std.specs.Prelude.{◌≡◌, Bool, true, false, List, ℕ, ◌+◌, ◌*◌, ◌≤◌, ◌<◌, length, get_or};
ghost use Rattle.model.specs.Lists.{ones};
ghost use Rattle.model.specs.Table.{slots};
ghost use Rattle.model.specs.Journal.{changes_from};
ghost use Rattle.model.specs.Split.{split_table};
ghost use Rattle.model.specs.Insert.{insert_table};
ghost use Rattle.model.specs.Checks.{pass, table_ok};
ghost use Rattle.model.specs.Meaning.Maps.{Dim};
ghost use Rattle.reading.specs.Told.{Told};
ghost use Rattle.drafts.specs.Drafts.{drafted};
ghost use Rattle.new_darts.specs.Slots.{SlotsFound};
ghost use Rattle.new_darts.specs.Placed.{Placed};
ghost use Rattle.new_darts.specs.News.{Made, split_made, insert_made, changed_link};
ghost use Rattle.new_darts.specs.Drafting.{Writing};
ghost use Rattle.new_darts.specs.Sources.{OfSome, OfEither, Linked, SomeDrafts, Drafts, SomeToDarts, DraftsTo, MetDarts, SomeToNew, MetNew};

// ---- the lists

// Lists the lowest unused slots of a map, `new` of them; whether there are so many. There are not where `live` slots are live and with
// these they are more than all slots.
pub fn find_slots(table: &[u32], fresh: &mut [u16], new: u32, live: u32) -> bool
    requires { (table_ok table.now ≡ pass) × (Told table.now) × (new + live ≤ 1048576)
        × (new + live ≤ slots table.now → new ≤ length fresh.old) }
    ensures { SlotsFound table.now new live fresh.old fresh.new result }
{
    if new + live > reading::slots(table) {
        return false;
    }
    scans::list_unused(table, fresh, new) == new
}

// Lists the `size` darts with the mark 1, rising, and for each the place of its first new dart: n for each dart before.
pub fn list_darts(n: u32, marks: &[u8], darts: &mut [u16], places: &mut [u16], size: u32)
    requires marks_len_bound { (length marks.now ≤ 65536) × (size ≡ length (ones marks.now)) × (n * size ≤ 65536) × (Dim n) }
    requires size_in_bounds { (size ≤ length darts.old) × (length marks.now ≤ length places.old) }
    ensures { Placed n (ones marks.now) size
        darts.old darts.new places.old places.new }
{
    let mut r: u32 = 0;
    let mut x = 0;
    while r < size {
        x = scans::skip_clear(marks, x);
        if marks[x] == 1 {
            darts[r as usize] = x as u16;
            places[x] = (n * r) as u16;
            r += 1;
        }
        x += 1;
    }
}

// ---- the new darts

// What new darts are made from: a table of dimension n, the `size` darts that get new ones, rising, the slots of these, rising, for each dart
// the place of its first new one, and for insert next(h) for each dart h of the wall.
#[derive(Clone, Copy)]
struct Sources<'a> {
    n: u32,
    table: &'a [u32],
    darts: &'a [u16],
    fresh: &'a [u16],
    places: &'a [u16],
    nexts: &'a [u16],
    size: u32,
}

impl Sources<'_> {
    // The new dart of y, the first where role is 0.
    fn new_dart(&self, role: u32, y: u32) -> u32
        requires { (y < length self.now.places.now) × (role < 3) × (get_or self.now.places.now y 0 + role < length self.now.fresh.now) }
        ensures { result ≡ get_or self.now.fresh.now (get_or self.now.places.now y 0 + role) 0 }
    {
        self.fresh[self.places[y as usize] as usize + role as usize] as u32
    }
}

// What split and insert do in their own ways.
trait Operation {
    // whether it is insert
    ghost insert: { Bool };

    // The link of an old dart that leads to its first new one: n for insert, 0 for split.
    fn changed_link(n: u32) -> u32
        ensures { result ≡ changed_link n insert };

    // The links of the new dart of g with this role.
    fn links(sources: &Sources, role: u32, g: u32) -> [u32; 4]
        requires { OfSome sources.now insert role g }
        ensures { (M : Made)
            → OfEither sources.now insert M role g
            → Linked sources.now M role g result };
}

// ---- the record: the old darts and the new ones stand in two rising lists, which are passed together

// From the p-th on, writes the change of each old dart below x, from the word w on; how many are behind the pass then.
fn write_darts<O: Operation>(
    sources: &Sources,
    journal: &mut [u32],
    p: u32,
    w: usize,
    x: u32,
) -> u32
    requires { SomeToDarts sources.now O.insert p w x journal.old }
    ensures { (nexts : List ℕ) (M : Made) (q : ℕ) (j : List ℕ)
        → DraftsTo sources.now O.insert M nexts j p q w journal.old
        → ((k : ℕ) → q ≤ k → k < sources.now.n * sources.now.size → x ≤ get_or sources.now.fresh.now k 0)
        → MetDarts sources.now O.insert M nexts j p q w x result journal.new }
{
    let i = O::changed_link(sources.n);
    let mut v = w;
    for k in p..sources.size {
        let g = sources.darts[k as usize] as u32;
        if g >= x {
            return k;
        }
        drafts::write_link(
            journal,
            v,
            g,
            i,
            link_in(sources.table, i as usize, g),
            sources.new_dart(0, g),
        );
        v += 3;
    }
    sources.size
}

// Writes the next new dart, that of the i-th old one with this role, and before it the old ones below it; how many of those are behind the
// pass then.
fn write_new<O: Operation>(
    sources: &Sources,
    journal: &mut [u32],
    p: u32,
    w: usize,
    i: u32,
    role: u32,
) -> u32
    requires { SomeToNew sources.now O.insert p w i role journal.old }
    ensures { (M : Made) (j : List ℕ)
        → DraftsTo sources.now O.insert M sources.now.nexts.now j p (sources.now.n * i + role) w journal.old
        → MetNew sources.now O.insert M j p (sources.now.n * i + role) w result journal.new }
{
    let x = sources.fresh[(sources.n * i + role) as usize] as u32;
    let behind = write_darts::<O>(sources, journal, p, w, x);
    let at = w + 3 * ((behind - p) as usize);
    let g = sources.darts[i as usize] as u32;
    let links = O::links(sources, role, g);
    drafts::write_slot(journal, at, x, [UNUSED; 4], links);
    behind
}

// Drafts the record of insert or split.
fn write<O: Operation>(sources: &Sources, journal: &mut [u32])
    requires { SomeDrafts sources.now O.insert journal.old }
    ensures { (M : Made)
        → Drafts sources.now O.insert M journal.old
        → journal.new ≡ drafted journal.old (changes_from 0 sources.now.table.now M.table) }
{
    let mut w = journal[0] as usize + 2;
    let mut p = 0;
    for i in 0..sources.size {
        for role in 0..sources.n {
            let behind = write_new::<O>(sources, journal, p, w, i, role);
            w += 3 * ((behind - p) as usize) + 12;
            p = behind;
        }
    }
    write_darts::<O>(sources, journal, p, w, UNUSED);
}

// Drafts the record of split.
pub fn write_split(
    n: u32,
    table: &[u32],
    journal: &mut [u32],
    darts: &[u16],
    fresh: &[u16],
    places: &[u16],
    size: u32,
)
    requires { (d : ℕ) × Writing n false table.now (split_made n table.now d) places.now darts.now fresh.now places.now size
        journal.old }
    ensures { (d : ℕ)
        → Writing n false table.now (split_made n table.now d) places.now darts.now
        fresh.now places.now size journal.old
        → journal.new ≡ drafted journal.old
        (changes_from 0 table.now (split_table n table.now d)) }
{
    let sources = Sources {
        n,
        table,
        darts,
        fresh,
        places,
        nexts: places, // which split doesn't read
        size,
    };
    write::<Split>(&sources, journal)
}

// Drafts the record of insert; nexts has next(h) for each dart h of the wall.
pub fn write_layer(
    n: u32,
    table: &[u32],
    journal: &mut [u32],
    darts: &[u16],
    fresh: &[u16],
    places: &[u16],
    nexts: &[u16],
    size: u32,
)
    requires { (m : List ℕ) × Writing n true table.now (insert_made n table.now m) nexts.now darts.now fresh.now places.now size
        journal.old }
    ensures { (m : List ℕ)
        → Writing n true table.now (insert_made n table.now m) nexts.now darts.now
        fresh.now places.now size journal.old
        → journal.new ≡ drafted journal.old
        (changes_from 0 table.now (insert_table n table.now m)) }
{
    let sources = Sources {
        n,
        table,
        darts,
        fresh,
        places,
        nexts,
        size,
    };
    write::<Layer>(&sources, journal)
}
