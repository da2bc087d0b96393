// The C interface: the calls, each proved against the same definition of the model as the call below it. The number is
// returned, place and count are stored, and of pick how many darts it took off. include/phlernsap.h says it in C.
#![tactic(auto)]

ghost use Rattle.std.specs.Prelude.{◌≡◌, ◌≢◌, []};
ghost use Rattle.model.specs.Calls.{check_call, orbit_call, sheet_call, pick_call, pick_taken, add_call, sew_call, unsew_call};
ghost use Rattle.model.specs.Calls.{remove_call, split_call, sew_list_call, insert_call, vtk_call, undo_call, redo_call};
ghost use Rattle.answers.specs.Answers.{told};
ghost use Rattle.phlernsap.specs.Given.{given};

use answers::{Answer, Done, Told};

// Stores place and count, and returns the number.
fn give(answer: Answer, place: &mut u32, count: &mut u32) -> u32
    ensures { (result ≡ (told answer).number) × (place.new ≡ (told answer).place) × (count.new ≡ (told answer).count) }
{
    let words = Told::from(answer);
    *place = words.place;
    *count = words.count;
    words.number
}

#[unsafe(no_mangle)]
pub extern "C" fn phl_check(n: u32, table: &[u32], place: &mut u32, count: &mut u32) -> u32
    ensures { given result place.new count.new table.now [] []
        ≡ check_call n table.now }
{
    give(kernel::check(n, table), place, count)
}

#[unsafe(no_mangle)]
pub extern "C" fn phl_orbit(
    n: u32,
    table: &[u32],
    marks: &mut [u8],
    mask: u32,
    d: u32,
    place: &mut u32,
    count: &mut u32,
) -> u32
    ensures { given result place.new count.new table.now marks.new []
        ≡ orbit_call n table.now marks.old mask d }
{
    give(kernel::orbit(n, table, marks, mask, d), place, count)
}

#[unsafe(no_mangle)]
pub extern "C" fn phl_sheet(
    n: u32,
    table: &[u32],
    marks: &mut [u8],
    d: u32,
    place: &mut u32,
    count: &mut u32,
) -> u32
    ensures { given result place.new count.new table.now marks.new []
        ≡ sheet_call n table.now marks.old d }
{
    give(kernel::sheet(n, table, marks, d), place, count)
}

#[unsafe(no_mangle)]
pub extern "C" fn phl_pick(
    n: u32,
    table: &[u32],
    marks: &mut [u8],
    queue: &mut [u32],
    d: u32,
    taken: &mut u32,
    place: &mut u32,
    count: &mut u32,
) -> u32
    ensures marks_after { given result place.new count.new table.now marks.new []
        ≡ pick_call n table.now marks.old queue.old d }
    ensures taken_after { taken.new ≡ pick_taken n table.now marks.old queue.old d }
    ensures queue_unchanged { result ≢ 0 → queue.new ≡ queue.old }
{
    match kernel::pick(n, table, marks, queue, d) {
        Ok(picked) => {
            *taken = picked.taken;
            let done = Done {
                place: 0,
                count: picked.count,
            };
            give(Ok(done), place, count)
        }
        Err(refused) => {
            *taken = 0;
            give(Err(refused), place, count)
        }
    }
}

#[unsafe(no_mangle)]
pub extern "C" fn phl_add(
    n: u32,
    table: &mut [u32],
    journal: &mut [u32],
    tag: u32,
    place: &mut u32,
    count: &mut u32,
) -> u32
    ensures { given result place.new count.new table.new [] journal.new
        ≡ add_call n table.old journal.old tag }
{
    give(kernel::add(n, table, journal, tag), place, count)
}

#[unsafe(no_mangle)]
pub extern "C" fn phl_sew(
    n: u32,
    table: &mut [u32],
    journal: &mut [u32],
    tag: u32,
    i: u32,
    d: u32,
    e: u32,
    place: &mut u32,
    count: &mut u32,
) -> u32
    ensures { given result place.new count.new table.new [] journal.new
        ≡ sew_call n table.old journal.old tag i d e }
{
    give(kernel::sew(n, table, journal, tag, i, d, e), place, count)
}

#[unsafe(no_mangle)]
pub extern "C" fn phl_sew_list(
    n: u32,
    table: &mut [u32],
    journal: &mut [u32],
    tag: u32,
    list: &[u32],
    place: &mut u32,
    count: &mut u32,
) -> u32
    ensures { given result place.new count.new table.new [] journal.new
        ≡ sew_list_call n table.old journal.old tag list.now }
{
    give(kernel::sew_list(n, table, journal, tag, list), place, count)
}

#[unsafe(no_mangle)]
pub extern "C" fn phl_unsew(
    n: u32,
    table: &mut [u32],
    journal: &mut [u32],
    tag: u32,
    i: u32,
    d: u32,
    place: &mut u32,
    count: &mut u32,
) -> u32
    ensures { given result place.new count.new table.new [] journal.new
        ≡ unsew_call n table.old journal.old tag i d }
{
    give(kernel::unsew(n, table, journal, tag, i, d), place, count)
}

#[unsafe(no_mangle)]
pub extern "C" fn phl_remove(
    n: u32,
    table: &mut [u32],
    marks: &mut [u8],
    journal: &mut [u32],
    tag: u32,
    d: u32,
    place: &mut u32,
    count: &mut u32,
) -> u32
    ensures { given result place.new count.new table.new marks.new journal.new
        ≡ remove_call n table.old marks.old journal.old tag d }
{
    give(
        kernel::remove(n, table, marks, journal, tag, d),
        place,
        count,
    )
}

#[unsafe(no_mangle)]
pub extern "C" fn phl_split(
    n: u32,
    table: &mut [u32],
    marks: &mut [u8],
    journal: &mut [u32],
    tag: u32,
    d: u32,
    place: &mut u32,
    count: &mut u32,
) -> u32
    ensures { given result place.new count.new table.new marks.new journal.new
        ≡ split_call n table.old marks.old journal.old tag d }
{
    give(
        kernel::split(n, table, marks, journal, tag, d),
        place,
        count,
    )
}

#[unsafe(no_mangle)]
pub extern "C" fn phl_insert(
    n: u32,
    table: &mut [u32],
    marks: &[u8],
    journal: &mut [u32],
    tag: u32,
    place: &mut u32,
    count: &mut u32,
) -> u32
    ensures { given result place.new count.new table.new marks.now journal.new
        ≡ insert_call n table.old marks.now journal.old tag }
{
    give(kernel::insert(n, table, marks, journal, tag), place, count)
}

#[unsafe(no_mangle)]
pub extern "C" fn phl_read_vtk(
    n: u32,
    table: &mut [u32],
    journal: &mut [u32],
    tag: u32,
    text: &[u8],
    place: &mut u32,
    count: &mut u32,
) -> u32
    ensures { given result place.new count.new table.new [] journal.new
        ≡ vtk_call n table.old journal.old tag text.now }
{
    give(kernel::read_vtk(n, table, journal, tag, text), place, count)
}

#[unsafe(no_mangle)]
pub extern "C" fn phl_undo(
    n: u32,
    table: &mut [u32],
    journal: &mut [u32],
    place: &mut u32,
    count: &mut u32,
) -> u32
    ensures { given result place.new count.new table.new [] journal.new
        ≡ undo_call n table.old journal.old }
{
    give(kernel::undo(n, table, journal), place, count)
}

#[unsafe(no_mangle)]
pub extern "C" fn phl_redo(
    n: u32,
    table: &mut [u32],
    journal: &mut [u32],
    place: &mut u32,
    count: &mut u32,
) -> u32
    ensures { given result place.new count.new table.new [] journal.new
        ≡ redo_call n table.old journal.old }
{
    give(kernel::redo(n, table, journal), place, count)
}
