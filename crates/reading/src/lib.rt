// Reading the table: links, live and unused slots, the rules of a map, which of them a slot breaks, and the checks 1 to 4.
#![tactic(auto)]

pub use broken::{Rule, breaking_link};

mod broken;

ghost use Rattle.std.specs.Prelude.{◌≡◌, [], ◌∷◌, ◌+◌, ◌*◌, ◌<◌, ◌≤◌, length, eqb};
ghost use Rattle.model.specs.Table.{slots, link, live, walk};
ghost use Rattle.model.specs.Map.{crossed, keeps_rules, breaks_rule, least_breaking, is_map};
ghost use Rattle.model.specs.Checks.{must, pass, dim_ok, table_ok, marks_ok, journal_ok};
ghost use Rattle.reading.specs.Sized.{Sized};
ghost use Rattle.reading.specs.Four.{four};
ghost use Rattle.reading.specs.Found.{found_below};
ghost use Rattle.reading.specs.Near.{turned, near_rules, keeps_near, Row, Below};

// The entry of an unused slot.
pub const UNUSED: u32 = 4294967295;

// Sizes of buffers, in slots. No table has more slots than a large one has room for; a smaller one does not pay for clearing it.
pub const SMALL: usize = 2048;

pub const MIDDLE: usize = 16384;

pub const LARGE: usize = 65536;

// So many marks are a group.
pub const GROUP: usize = 256;

// Half of each size, a quarter, and its groups: a const argument is not computed.
pub const SMALL_HALF: usize = SMALL / 2;

pub const MIDDLE_HALF: usize = MIDDLE / 2;

pub const LARGE_HALF: usize = LARGE / 2;

pub const SMALL_QUARTER: usize = SMALL / 4;

pub const MIDDLE_QUARTER: usize = MIDDLE / 4;

pub const LARGE_QUARTER: usize = LARGE / 4;

pub const SMALL_GROUPS: usize = SMALL / GROUP;

pub const MIDDLE_GROUPS: usize = MIDDLE / GROUP;

pub const LARGE_GROUPS: usize = LARGE / GROUP;

// Whether check 1 passes.
pub fn dim_fits(n: u32) -> bool
    ensures { must result 1 ≡ dim_ok n }
{
    (n == 2) | (n == 3)
}

// Whether check 2 passes.
pub fn table_fits(table: &[u32]) -> bool
    ensures { must result 2 ≡ table_ok table.now }
{
    (table.len() % 4 == 0) & (table.len() <= 262144)
}

// Whether check 3 passes.
pub fn marks_fit(table: &[u32], marks: &[u8]) -> bool
    ensures { must result 3 ≡ marks_ok table.now marks.now }
{
    marks.len() == table.len() / 4
}

// Whether check 4 passes.
pub fn journal_fits(journal: &[u32]) -> bool
    ensures { must result 4 ≡ journal_ok journal.now }
{
    if journal.len() < 2 {
        return false;
    }
    if journal.len() > 1048576 {
        return false;
    }
    let cursor = journal[0];
    let end = journal[1];
    (2 <= cursor) & (cursor <= end) & (end as usize <= journal.len())
}

// The number of slots.
pub fn slots(table: &[u32]) -> u32
    requires { length table.now ≤ 262144 }
    ensures { result ≡ slots table.now }
{
    (table.len() / 4) as u32
}

// Link i of d; past the table 4294967295.
pub fn link(table: &[u32], i: usize, d: u32) -> u32
    requires { i < 4 }
    ensures { result ≡ link table.now i d }
{
    let entry = 4 * (d as usize) + i;
    if entry < table.len() {
        table[entry]
    } else {
        UNUSED
    }
}

// Whether d is a live slot.
pub fn live(table: &[u32], d: u32) -> bool
    ensures { result ≡ live table.now d }
{
    !((link(table, 0, d) == UNUSED)
        & (link(table, 1, d) == UNUSED)
        & (link(table, 2, d) == UNUSED)
        & (link(table, 3, d) == UNUSED))
}

// Link i of d, where the table has it.
pub fn link_in(table: &[u32], i: usize, d: u32) -> u32
    requires { 4 * d + i < length table.now }
    ensures { result ≡ link table.now i d }
{
    table[4 * (d as usize) + i]
}

// The links of x, where the table has it.
pub fn links_in(table: &[u32], x: u32) -> [u32; 4]
    requires { x < slots table.now }
    ensures { result ≡ four (λ j. link table.now j x) }
{
    [
        link_in(table, 0, x),
        link_in(table, 1, x),
        link_in(table, 2, x),
        link_in(table, 3, x),
    ]
}

// "d is i-free if d.i = d."
pub fn is_free(table: &[u32], i: u32, d: u32) -> bool
    requires { i < 4 }
    ensures { result ≡ eqb (link table.now i d) d }
{
    link(table, i as usize, d) == d
}

// The opposite edge 1.0.1 of y.
pub fn opposite_edge(table: &[u32], y: u32) -> u32
    ensures { result ≡ walk table.now (1 ∷ 0 ∷ 1 ∷ []) y }
{
    link(table, 1, link(table, 0, link(table, 1, y)))
}

// Whether d.i.i = d.
fn turned(table: &[u32], d: u32, i: usize) -> bool
    requires { i < 4 }
    ensures { result ≡ turned table.now d i }
{
    link(table, i, link(table, i, d)) == d
}

// Whether going i, j, i, j returns to d.
fn crossed(table: &[u32], d: u32, i: usize, j: usize) -> bool
    requires { (i + 2 ≤ j) × (j < 4) }
    ensures { result ≡ crossed table.now d i j }
{
    link(table, j, link(table, i, link(table, j, link(table, i, d)))) == d
}

// Whether the live slot d keeps the rules: a link that turns back leads to a live slot, so that is not tested.
fn keeps_rules(n: u32, table: &[u32], d: u32) -> bool
    requires { (dim_ok n ≡ pass) × (d < 4294967295) }
    ensures { result ≡ keeps_rules n table.now d }
{
    let links = turned(table, d, 0)
        & turned(table, d, 1)
        & turned(table, d, 2)
        & turned(table, d, 3);
    let flat = links & crossed(table, d, 0, 2);
    if n == 2 {
        flat & (link(table, 3, d) == d)
    } else {
        flat & (crossed(table, d, 0, 3) & crossed(table, d, 1, 3))
    }
}

// Whether d breaks a rule.
pub fn breaks_rule(n: u32, table: &[u32], d: u32) -> bool
    requires { (dim_ok n ≡ pass) × (table_ok table.now ≡ pass) }
    ensures { result ≡ breaks_rule n table.now d }
{
    if live(table, d) {
        !keeps_rules(n, table, d)
    } else {
        false
    }
}

// Whether the slot d, whose links a, b, c and e are slots, keeps the near rules. It is the inner step of the map test, where
// the links stand apart and not in an array.
fn near_rules(n: u32, table: &[u32], d: u32, a: u32, b: u32, c: u32, e: u32) -> bool
    requires { (Sized table.now) × (Row table.now d a b c e) × (Below (slots table.now) a b c e) }
    ensures { result ≡ near_rules n table.now d }
{
    let links = (link_in(table, 0, a) == d)
        & (link_in(table, 1, b) == d)
        & (link_in(table, 2, c) == d)
        & (link_in(table, 3, e) == d);
    let flat = links & (link_in(table, 2, a) == link_in(table, 0, c));
    if n == 2 {
        flat & (e == d)
    } else {
        flat & ((link_in(table, 3, a) == link_in(table, 0, e))
            & (link_in(table, 3, b) == link_in(table, 1, e)))
    }
}

// Whether the slot d is unused or keeps the near rules.
fn keeps_near(n: u32, table: &[u32], end: u32, d: u32) -> bool
    requires n_value { (dim_ok n ≡ pass) × (Sized table.now) }
    requires end_value { (end ≡ slots table.now) × (d < end) }
    ensures { result ≡ keeps_near n table.now d }
{
    let a = link_in(table, 0, d);
    let b = link_in(table, 1, d);
    let c = link_in(table, 2, d);
    let e = link_in(table, 3, d);
    if (a < end) & (b < end) & (c < end) & (e < end) {
        near_rules(n, table, d, a, b, c, e)
    } else {
        (a == UNUSED) & (b == UNUSED) & (c == UNUSED) & (e == UNUSED)
    }
}

// Whether the table is a map: one pass by the near rules.
pub fn is_map(n: u32, table: &[u32]) -> bool
    requires { (dim_ok n ≡ pass) × (table_ok table.now ≡ pass) }
    ensures { result ≡ is_map n table.now }
{
    let end = slots(table);
    for d in 0..end {
        if !keeps_near(n, table, end, d) {
            return false;
        }
    }
    true
}

// The least slot that breaks a rule: slot by slot, with the walks.
fn first_breaking(n: u32, table: &[u32]) -> Option<u32>
    requires { (dim_ok n ≡ pass) × (table_ok table.now ≡ pass) }
    ensures { result ≡ found_below (slots table.now) (least_breaking n table.now) }
{
    let end = slots(table);
    for d in 0..end {
        if breaks_rule(n, table, d) {
            return Some(d);
        }
    }
    None
}

// The least slot that breaks a rule. The walks are made only where the table is no map.
pub fn least_breaking(n: u32, table: &[u32]) -> Option<u32>
    requires { (dim_ok n ≡ pass) × (table_ok table.now ≡ pass) }
    ensures { result ≡ found_below (slots table.now) (least_breaking n table.now) }
{
    if is_map(n, table) {
        return None;
    }
    first_breaking(n, table)
}
