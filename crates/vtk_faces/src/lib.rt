// The cells of a text, in a buffer or block by block: the checks 21, 22 and 23, and for each face the dart that its first one is sewn to.
#![tactic(auto)]

ghost use Rattle.std.specs.Prelude.{◌≡◌, not, List, ℕ, ◌+◌, ◌*◌, ◌/◌, ◌≤◌, ◌<◌, length, get_or, drop};
ghost use Rattle.model.specs.Lists.{all_of};
ghost use Rattle.model.specs.Faces.{listed_at, onward, face_darts, among, same_four, repeats};
ghost use Rattle.vtk_faces.specs.Buffers.{Held};
ghost use Rattle.vtk_faces.specs.Faces.{four, site_at, Sited, held_row, held_face};
ghost use Rattle.vtk_faces.specs.Turns.{turn_back, TurnOf};
ghost use Rattle.vtk_faces.specs.Hashes.{mixed, hash_of};
ghost use Rattle.vtk_faces.specs.Chains.{Chains, SomeChains, entry_of, Found};
ghost use Rattle.vtk_faces.specs.Judged.{order_number, number_found, number_told, Ran, Met, Stepped, Going, Gone};
ghost use Rattle.vtk_faces.specs.Blocks.{CellsIn, SomeCells, Lent, Verdict, JudgedCells, Own, Block};
ghost use Rattle.vtk_faces.specs.Repeats.{all_once};
ghost use Rattle.vtk_faces.specs.Rest.{Later, SomeLater, Chunk, SomeChunk};
ghost use Rattle.vtk_faces.specs.Texts.{CellsAt, SomeCellsAt, Judgeable, SomeJudgeable, face_from, Rest, SomeRest, BlockAt, SomeBlockAt};
ghost use Rattle.refusals.specs.declared.Reason.TheVariants.{FaceShared};

use numbering::cell_link;
use refusals::Reason;
use std::array;
use vtk_rows::read_rows;

// The four vertices of a face, in their order round it.
#[derive(Clone, Copy, PartialEq, Eq)]
struct Face {
    a: u64,
    b: u64,
    c: u64,
    d: u64,
}

// A third face has the same four vertices as two before it: no pass goes on behind it.
#[derive(Clone, Copy)]
struct ThirdFace;

impl From<ThirdFace> for Reason {
    ghost from_gives = { λ _ reason. reason ≡ FaceShared };

    fn from(_third: ThirdFace) -> Reason {
        Reason::FaceShared
    }
}

// ---- where the vertices of a face are listed

// The dart that stands for the face f of a cell: its axis order begins with the two axes of the face, and its vertex has the bit of the
// third axis where f is odd.
pub fn face_dart(f: u32) -> u32
    requires { f < 6 }
    ensures { result ≡ get_or face_darts f 0 }
{
    let pair = f / 2;
    8 * (pair + pair / 2) + f % 2 * (4 >> pair)
}

// From the dart k of a cell, going 0, 1.
fn onward(k: u32) -> u32
    requires { k < 48 }
    ensures { (result ≡ onward k) × (result < 48) }
{
    cell_link(3, 1, cell_link(3, 0, k))
}

// Where the vertex s of a cell is listed: 0, 1, 3, 2, 4, 5, 7, 6.
fn listed(s: u32) -> u32
    requires { s < 8 }
    ensures { result ≡ listed_at s }
{
    s ^ (s / 2 % 2)
}

// Where the (j % 4)-th vertex of the face j / 4 is listed.
fn site(j: u32) -> u32
    requires { j < 24 }
    ensures { (result ≡ site_at j) × (result < 8) }
{
    let mut k = face_dart(j / 4);
    for turn in 0..j % 4 {
        k = onward(k);
    }
    listed(k % 8)
}

// The same for all six faces.
fn sites() -> [u8; 24]
    ensures { Sited result }
{
    array::from_fn(|j| site(j as u32) as u8)
}

// ---- faces in the buffer

// The vertex at the site j, of the cell whose words begin at `row`.
fn vertex(rows: &[u64], sites: &[u8; 24], row: usize, j: usize) -> u64
    requires { (Sited sites.now) × (row + 8 ≤ length rows.now) × (j < 24) }
    ensures { result ≡ get_or rows.now (row + site_at j) 0 }
{
    rows[row + sites[j] as usize]
}

// The face at the position p.
fn face_at(rows: &[u64], sites: &[u8; 24], p: usize) -> Face
    requires { (Sited sites.now) × (8 * (p / 6) + 8 ≤ length rows.now) }
    ensures { four result ≡ held_face rows.now p }
{
    let row = 8 * (p / 6);
    let j = 4 * (p % 6);
    Face {
        a: vertex(rows, sites, row, j),
        b: vertex(rows, sites, row, j + 1),
        c: vertex(rows, sites, row, j + 2),
        d: vertex(rows, sites, row, j + 3),
    }
}

// Whether x is a vertex of the face r.
fn has(r: Face, x: u64) -> bool
    ensures { result ≡ among (four r) x }
{
    (x == r.a) | (x == r.b) | (x == r.c) | (x == r.d)
}

// Whether the vertices of s are among those of r.
fn has_all(r: Face, s: Face) -> bool
    ensures { result ≡ all_of (among (four r)) (four s) }
{
    if !has(r, s.a) {
        return false;
    }
    if !has(r, s.b) {
        return false;
    }
    has(r, s.c) & has(r, s.d)
}

// Whether r and s have the same four vertices.
fn same_four(r: Face, s: Face) -> bool
    ensures { result ≡ same_four (four r) (four s) }
{
    if !has_all(s, r) {
        return false;
    }
    has_all(r, s)
}

// ---- faces turned against each other

// How `want` is turned against `seen`: of the eight darts of `seen`, by links 0, 1, 0, .. from its first, the one from which `want` is read;
// none if the orders differ.
fn turn_of(seen: Face, want: Face) -> Option<u16>
    ensures { TurnOf (four seen) (four want) result }
{
    let mut here = seen;
    for turn in 0..4u16 {
        let Face { a, b, c, d } = here;
        if here == want {
            return Some(2 * turn);
        }
        let across = Face {
            a: b,
            b: a,
            c: d,
            d: c,
        };
        if across == want {
            return Some(2 * turn + 1);
        }
        here = Face {
            a: b,
            b: c,
            c: d,
            d: a,
        };
    }
    None
}

// How `seen` is turned against `want`, then.
fn turn_back(j: u16) -> u16
    requires { j ≤ 8 }
    ensures { (result ≡ turn_back j) × (result < 8) }
{
    if j % 2 == 0 {
        return (8 - j) % 8;
    }
    j
}

// ---- the hash of a face: of its least and greatest vertex, so it is one for the same four

// A number below 16,384 of two numbers.
fn mixed(x: u64, y: u64) -> u64
    ensures { result ≡ mixed x y }
{
    (x % 4_294_967_296 * 407_613_262 + y % 4_294_967_296 * 2_246_822_507) / 262_144 % 16_384
}

fn hash(r: Face) -> usize
    ensures { result ≡ hash_of (four r) }
{
    let least = r.a.min(r.b.min(r.c.min(r.d)));
    let greatest = r.a.max(r.b.max(r.c.max(r.d)));
    mixed(least, greatest) as usize
}

// ---- chains: their entries are words of lent memory, 1 more than a position, and 0 for none

// Faces of the cells in the buffer that are in chains.
#[derive(Clone, Copy)]
struct Chained<'a> {
    rows: &'a [u64],
    sites: &'a [u8; 24],
    heads: &'a [u16],
    nexts: &'a [u16],
}

impl Chained<'_> {
    // The position of a face in the chains with the same four vertices as r, whose hash is h.
    fn find(&self, r: Face, h: usize) -> Option<usize>
        requires { (Sited self.now.sites.now) × (SomeChains self.now.rows.now self.now.heads.now self.now.nexts.now)
            × (h ≡ hash_of (four r)) }
        ensures { (m : ℕ) → Chains (held_face self.now.rows.now) m self.now.heads.now self.now.nexts.now
            → Found (held_face self.now.rows.now) m (four r) (entry_of result) }
    {
        let mut e = self.heads[h] as usize;
        while e != 0 {
            if same_four(face_at(self.rows, self.sites, e - 1), r) {
                return Some(e - 1);
            }
            e = self.nexts[e] as usize;
        }
        None
    }
}

// ---- mates: words of lent memory too, and 0 for none

// The face at the position p meets another with the same four vertices, in the same order or not, and its word is `mark` now: whether in
// the same, unless it has met one already.
fn meet(mates: &mut [u16], p: usize, same_order: bool, mark: u16) -> Result<bool, ThirdFace>
    requires { p + 1 < length mates.old }
    ensures { Met (p + 1) same_order mark mates.old mates.new (number_found result) }
{
    if mates[p + 1] != 0 {
        return Err(ThirdFace);
    }
    mates[p + 1] = mark;
    Ok(same_order)
}

// The face at the position i of the buffer meets one before it with the same four vertices, and is put into the chains.
fn own_face(
    rows: &[u64],
    sites: &[u8; 24],
    heads: &mut [u16],
    nexts: &mut [u16],
    mates: &mut [u16],
    i: usize,
) -> Result<bool, ThirdFace>
    requires { Going rows.now sites.now heads.old nexts.old mates.old i }
    ensures { Gone rows.now mates.old heads.new nexts.new mates.new i (number_found result) }
{
    let r = face_at(rows, sites, i);
    let h = hash(r);
    let seen = Chained {
        rows,
        sites,
        heads,
        nexts,
    }
    .find(r, h);
    nexts[i + 1] = heads[h];
    heads[h] = (i + 1) as u16;
    let Some(p) = seen else {
        mates[i + 1] = 0;
        return Ok(true);
    };
    let turn = turn_of(face_at(rows, sites, p), r);
    let steps = turn.unwrap_or(0);
    let met = meet(
        mates,
        p,
        turn.is_some(),
        8 * (i + 1) as u16 + turn_back(steps),
    );
    mates[i + 1] = 8 * (p + 1) as u16 + steps;
    met
}

// ---- a block

// The faces of the cells in the buffer, one after the other: whether those with the same four vertices have them in the same order, unless
// three have the same four.
fn own_faces(
    rows: &[u64],
    sites: &[u8; 24],
    heads: &mut [u16],
    nexts: &mut [u16],
    mates: &mut [u16],
    cells: usize,
) -> Result<bool, ThirdFace>
    requires { Own rows.now sites.now heads.old nexts.old mates.old cells }
    ensures { Block rows.now (6 * cells) heads.new nexts.new mates.new (number_found result) }
{
    let mut same = true;
    for i in 0..6 * cells {
        same &= own_face(rows, sites, heads, nexts, mates, i)?;
    }
    Ok(same)
}

// What is said of the orders at the end of all passes.
fn ordered(same: bool) -> Result<(), Reason>
    ensures { number_told result ≡ order_number same }
{
    if same {
        Ok(())
    } else {
        Err(Reason::OtherOrder)
    }
}

// 22 and 23 for the cells in the buffer, at most 1,365: the first that does not pass, or the mates of the faces.
pub fn judge_held(
    rows: &[u64],
    cells: usize,
    heads: &mut [u16],
    nexts: &mut [u16],
    mates: &mut [u16],
) -> Result<(), Reason>
    requires { (SomeCells rows.now cells) × (Lent heads.old nexts.old mates.old cells) }
    ensures { (rs : List (List ℕ)) → CellsIn rows.now cells rs → JudgedCells rs mates.new (number_told result) }
{
    heads.fill(0);
    let sites = sites();
    let same = own_faces(rows, &sites, heads, nexts, mates, cells)?;
    ordered(same)
}

// ---- a vertex repeated in a cell

// Whether the i-th word of the row of the cell c stands there once more behind it.
fn stands_behind(rows: &[u64], c: usize, i: usize) -> bool
    requires { (8 * c + 8 ≤ length rows.now) × (i < 8) }
    ensures { result ≡ among (drop (i + 1) (held_row rows.now c)) (get_or (held_row rows.now c) i 0) }
{
    let row = &rows[8 * c..8 * c + 8];
    row[i + 1..].contains(&row[i])
}

// Whether a vertex stands twice in the cell c.
fn repeats(rows: &[u64], c: usize) -> bool
    requires { 8 * c + 8 ≤ length rows.now }
    ensures { result ≡ repeats (held_row rows.now c) }
{
    (0..8).any(|i| stands_behind(rows, c, i))
}

// Whether 21 refuses the cells in the buffer.
pub fn repeated(rows: &[u64], cells: usize) -> bool
    requires { 8 * cells ≤ length rows.now }
    ensures { (rs : List (List ℕ)) → Held rows.now rs → cells ≡ length rs → result ≡ not (all_once rs) }
{
    for c in 0..cells {
        if repeats(rows, c) {
            return true;
        }
    }
    false
}

// ---- the faces behind a block

impl Chained<'_> {
    // The face r, which stands behind the block's, meets one of the block with the same four vertices.
    fn later_face(&self, mates: &mut [u16], r: Face) -> Result<bool, ThirdFace>
        requires { (Sited self.now.sites.now)
            × (SomeLater self.now.rows.now self.now.heads.now self.now.nexts.now mates.old (four r)) }
        ensures { (F : ℕ → List ℕ) (m i : ℕ)
            → Later F m i self.now.rows.now self.now.heads.now self.now.nexts.now mates.old (four r)
            → Stepped F m i mates.new (number_found result) }
    {
        let h = hash(r);
        let Some(p) = self.find(r, h) else {
            return Ok(true);
        };
        let turn = turn_of(face_at(self.rows, self.sites, p), r);
        meet(mates, p, turn.is_some(), 65_535)
    }

    // The faces of the cells in `chunk`, one after the other, where `before` is what was found of the orders before them.
    fn later_faces(
        &self,
        mates: &mut [u16],
        chunk: &[u64],
        cells: usize,
        before: bool,
    ) -> Result<bool, ThirdFace>
        requires { (Sited self.now.sites.now) × (8 * cells ≤ length chunk.now)
            × (SomeChunk self.now.rows.now self.now.heads.now self.now.nexts.now mates.old (order_number before) chunk.now cells) }
        ensures { (F : ℕ → List ℕ) (m i : ℕ)
            → Chunk F m i self.now.rows.now self.now.heads.now self.now.nexts.now mates.old (order_number before) chunk.now cells
            → Ran F m (i + 6 * cells) mates.new (number_found result) }
    {
        let mut same = before;
        for j in 0..6 * cells {
            same &= self.later_face(mates, face_at(chunk, self.sites, j))?;
        }
        Ok(same)
    }
}

// ---- the cells of a text

// The faces of the `cells` cells that stand in the text from `at` on, behind the block's, 24 cells at a time; `before` is what was found of
// the block's own. A stack frame of its own leaves its loops the registers.
#[inline(never)]
fn judge_rest(
    text: &[u8],
    at: usize,
    cells: usize,
    block: &Chained,
    mates: &mut [u16],
    before: bool,
) -> Result<bool, ThirdFace>
    requires { (Sited block.now.sites.now)
        × (SomeRest block.now.rows.now block.now.heads.now block.now.nexts.now mates.old (order_number before) text.now at cells) }
    ensures { (rs : List (List ℕ)) (d k : ℕ)
        → Rest rs d k block.now.rows.now block.now.heads.now block.now.nexts.now mates.old (order_number before) text.now at cells
        → Ran (face_from rs d) (6 * k) (6 * k + 6 * cells) mates.new (number_found result) }
{
    let mut chunk = [0u64; 192];
    let mut p = at;
    let mut left = cells;
    let mut same = before;
    while left != 0 {
        let some = left.min(24);
        p = read_rows(text, p, some, &mut chunk);
        same = block.later_faces(mates, &chunk, some, same)?;
        left -= some;
    }
    Ok(same)
}

// The faces of the block of `block` cells in the buffer, and of the `cells` cells behind them, in the text from `at` on.
fn judge_block(
    text: &[u8],
    at: usize,
    cells: usize,
    rows: &[u64],
    block: usize,
    sites: &[u8; 24],
    heads: &mut [u16],
    nexts: &mut [u16],
    mates: &mut [u16],
) -> Result<bool, ThirdFace>
    requires { (Sited sites.now) × (Lent heads.old nexts.old mates.old block)
        × (SomeBlockAt block rows.now text.now at cells) }
    ensures { (rs : List (List ℕ)) (d : ℕ) → BlockAt rs d block rows.now text.now at cells
        → Ran (face_from rs d) (6 * block) (6 * block + 6 * cells) mates.new (number_found result) }
{
    heads.fill(0);
    let own = own_faces(rows, sites, heads, nexts, mates, block)?;
    let chained = Chained {
        rows,
        sites,
        heads,
        nexts,
    };
    judge_rest(text, at, cells, &chained, mates, own)
}

// 22 and 23 for the cells of a text, of any number, in blocks of at most 1,365: the first that does not pass. Each block is compared with
// itself and with all cells behind it.
pub fn judge(
    text: &[u8],
    at: usize,
    cells: usize,
    rows: &mut [u64],
    heads: &mut [u16],
    nexts: &mut [u16],
    mates: &mut [u16],
) -> Result<(), Reason>
    requires { (SomeJudgeable text.now at cells) × (10920 ≤ length rows.old) × (Lent heads.old nexts.old mates.old 1365) }
    ensures { (rs : List (List ℕ)) → Judgeable text.now at cells rs → Verdict rs (number_told result) }
{
    let sites = sites();
    let mut p = at;
    let mut left = cells;
    let mut same = true;
    while left != 0 {
        let block = left.min(1365);
        p = read_rows(text, p, block, rows);
        left -= block;
        same &= judge_block(text, p, left, rows, block, &sites, heads, nexts, mates)?;
    }
    ordered(same)
}

// Whether 21 refuses the cells of a text, read in blocks of at most 1,365.
pub fn any_repeated(text: &[u8], at: usize, cells: usize, rows: &mut [u64]) -> bool
    requires { (SomeCellsAt text.now at cells) × (10920 ≤ length rows.old) }
    ensures { (rs : List (List ℕ)) → CellsAt text.now at cells rs → result ≡ not (all_once rs) }
{
    let mut p = at;
    let mut left = cells;
    while left != 0 {
        let block = left.min(1365);
        p = read_rows(text, p, block, rows);
        if repeated(rows, block) {
            return true;
        }
        left -= block;
    }
    false
}
