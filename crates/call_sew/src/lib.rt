// sew: the side of d is joined to the side of e by link i; and a list of sews. The calls take any input, and their contracts are
// equations with the model's definitions of them.
#![tactic(auto)]

ghost use Rattle.std.specs.Prelude.{◌≡◌, [], ◌*◌, ◌≤◌};
ghost use Rattle.model.specs.Table.{slots};
ghost use Rattle.model.specs.Checks.{pass, in_order, list_checks};
ghost use Rattle.model.specs.Calls.{sew_call, sew_list_call};
ghost use Rattle.answers.specs.Answers.{outcome};
ghost use Rattle.call_sew.specs.Joins.{Lent};

use answers::{Answer, Done, Reason, Refused};
use item::sew_item;
use reading::{
    LARGE, LARGE_GROUPS, LARGE_HALF, MIDDLE, MIDDLE_GROUPS, MIDDLE_HALF, SMALL, SMALL_GROUPS,
    SMALL_HALF,
};

mod item;

// The items of a list in order, up to the first that is refused, where the checks before them have passed.
fn sew_items(
    n: u32,
    table: &mut [u32],
    journal: &mut [u32],
    tag: u32,
    list: &[u32],
    marks: &mut [u8],
    groups: &mut [u8],
    xs: &mut [u16],
    ys: &mut [u16],
) -> Answer
    requires list_value { in_order (list_checks n table.old journal.old list.now) ≡ pass }
    requires lent { Lent table.old marks.old groups.old xs.old ys.old }
    ensures { outcome result table.new [] journal.new
        ≡ sew_list_call n table.old journal.old tag list.now }
{
    let mut place: u32 = 0;
    let mut count: u32 = 0;
    for item in list.chunks_exact(3) {
        place += 1;
        match sew_item(
            n, table, journal, tag, item[0], item[1], item[2], marks, groups, xs, ys,
        ) {
            Ok(done) => count += done.count,
            Err(refused) => return Err(Refused {
                place,
                count,
                ..refused
            }),
        }
    }
    Ok(Done { place: 0, count })
}

// The same with so many marks and groups, and lists of a half. Each size has a stack frame of its own, which smaller tables and
// refusals do not pay for.
#[inline(never)]
fn sew_with<const SLOTS: usize, const HALF: usize, const GROUPS: usize>(
    n: u32,
    table: &mut [u32],
    journal: &mut [u32],
    tag: u32,
    list: &[u32],
) -> Answer
    requires list_value { in_order (list_checks n table.old journal.old list.now) ≡ pass }
    requires room { (slots table.old ≤ SLOTS) × (SLOTS ≤ 65536) × (SLOTS ≡ 2 * HALF) × (SLOTS ≡ 256 * GROUPS) }
    ensures { outcome result table.new [] journal.new
        ≡ sew_list_call n table.old journal.old tag list.now }
{
    let mut marks = [0u8; SLOTS];
    let mut groups = [0u8; GROUPS];
    let mut xs = [0u16; HALF];
    let mut ys = [0u16; HALF];
    sew_items(
        n,
        table,
        journal,
        tag,
        list,
        &mut marks,
        &mut groups,
        &mut xs,
        &mut ys,
    )
}

// The same, with buffers as large as the table needs.
fn sew_opened(n: u32, table: &mut [u32], journal: &mut [u32], tag: u32, list: &[u32]) -> Answer
    requires { in_order (list_checks n table.old journal.old list.now) ≡ pass }
    ensures { outcome result table.new [] journal.new
        ≡ sew_list_call n table.old journal.old tag list.now }
{
    if table.len() <= 4 * SMALL {
        return sew_with::<SMALL, SMALL_HALF, SMALL_GROUPS>(n, table, journal, tag, list);
    }
    if table.len() <= 4 * MIDDLE {
        return sew_with::<MIDDLE, MIDDLE_HALF, MIDDLE_GROUPS>(n, table, journal, tag, list);
    }
    sew_with::<LARGE, LARGE_HALF, LARGE_GROUPS>(n, table, journal, tag, list)
}

// "Count: entries changed." It is a list of one item, but that its place is not told.
pub fn sew(
    n: u32,
    table: &mut [u32],
    journal: &mut [u32],
    tag: u32,
    i: u32,
    d: u32,
    e: u32,
) -> Answer
    ensures { outcome result table.new [] journal.new
        ≡ sew_call n table.old journal.old tag i d e }
{
    answers::opening(n, table, true, reading::journal_fits(journal))?;
    let list = [i, d, e];
    match sew_opened(n, table, journal, tag, &list) {
        Ok(done) => Ok(Done { place: 0, ..done }),
        Err(refused) => Err(Refused {
            place: 0,
            ..refused
        }),
    }
}

// The items (i, d, e) of the list as single sews in order, up to the first that is refused: the table is tested once for all.
pub fn sew_list(n: u32, table: &mut [u32], journal: &mut [u32], tag: u32, list: &[u32]) -> Answer
    ensures { outcome result table.new [] journal.new
        ≡ sew_list_call n table.old journal.old tag list.now }
{
    answers::opening(n, table, true, reading::journal_fits(journal))?;
    if list.len() % 3 != 0 {
        return Err(Reason::WrongListLength.into());
    }
    sew_opened(n, table, journal, tag, list)
}
