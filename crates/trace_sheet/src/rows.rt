// A sheet in lent rows, for hosts that sum their own: a row of 2,048 counts for each side, a row of flags for the files, and the totals by
// value. 02, Order 14. All zeros are the sheet of no files.
ghost use Rattle.std.specs.Prelude.{◌≡◌, false, cond, length};
ghost use Rattle.cone.specs.table.Table.{number_of, code_of};
ghost use Rattle.octets.specs.words.Words.{AllBelow};
ghost use Rattle.trace_sheet.specs.counts.Counts.{Fresh, summed};
ghost use Rattle.trace_sheet.specs.rows.Rows.{spills, rows_ok, named_in, names_ok, no_room, sheet_row, join_code, refused_totals};
ghost use Rattle.trace_sheet.specs.rows.Rows.{join_of, add_of};
ghost use Rattle.trace_sheet.specs.rows.Added.{TotalsFit, joined_totals};

use crate::counts::{Largest, NONE, larger_of, moved_up};
use crate::one_file::{nothing, one_file};
use cone::table::{Refusal, trace_row};
use octets::words::{copy, front};
use trace_layout::pieces::MOST_FILES;

const PLACES: usize = 2048;

const LARGEST_COUNT: u64 = 0xffff_ffff_ffff_ffff;

// What a sheet holds beside its rows, or the number of a refusal: its files, skipped ones too, its records, and the largest of each side.
#[repr(C)]
#[derive(Clone, Copy)]
pub struct Totals {
    pub code: u32,
    pub files: u32,
    pub records: u64,
    pub dual: Largest,
    pub primal: Largest,
}

// Whether rows of these lengths hold a sheet of so many files.
pub(crate) fn rows_ok(dual: usize, primal: usize, skipped: usize, files: u32) -> bool
    ensures { result ≡ rows_ok dual primal skipped files }
{
    (dual == PLACES) & (primal == PLACES) & (files as usize <= skipped)
}

// Whether a place of the two rows' sum is too large for it.
fn spills(row: &[u64], more: &[u64]) -> bool
    ensures { result ≡ spills row.now more.now }
{
    // no zip, which looks for two ends at each place: this loop is most of what a join takes
    for (i, x) in row.iter().enumerate() {
        let Some(y) = more.get(i) else {
            return false;
        };
        if LARGEST_COUNT - *x < *y {
            return true;
        }
    }
    false
}

// The two rows' sum, which has room.
fn sum(row: &mut [u64], more: &[u64])
    requires { (length row.old ≡ length more.now) × (spills row.old more.now ≡ false) }
    ensures { row.new ≡ summed row.old more.now }
{
    for (i, x) in more.iter().enumerate() {
        row[i] += *x;
    }
}

// Whether a largest stands in one of so many files. One of size 0 is none: its file number is not read, here or when it moves up.
fn named_in(files: u32, t: Largest) -> bool
    ensures { result ≡ named_in files t }
{
    (t.size == 0) | ((1 <= t.file) & (t.file <= files as u64))
}

// Whether the largest of a sheet of so many files stand in files of it.
fn names_ok(files: u32, dual: Largest, primal: Largest) -> bool
    ensures { result ≡ names_ok files dual primal }
{
    let dual_named = named_in(files, dual);
    let primal_named = named_in(files, primal);
    dual_named & primal_named
}

// Whether files and records are too many: flags is the room for the files.
fn no_room(files: u32, more: u32, flags: usize, records: u64, others: u64) -> bool
    ensures { result ≡ no_room files more flags records others }
{
    let all = files as usize + more as usize;
    (MOST_FILES < all) | (flags < all) | (LARGEST_COUNT - records < others)
}

// The table for a call on a sheet, which these three rows alone can refuse.
pub(crate) fn sheet_row(length: bool, broken: bool, full: bool) -> Result<(), Refusal>
    ensures { code_of result ≡ sheet_row length broken full }
{
    if length {
        return Err(Refusal::WrongLength);
    }
    trace_row(broken, full)
}

// What refuses a sum.
fn join_code(
    sheet: Totals,
    dual: &[u64],
    primal: &[u64],
    skipped: &[u8],
    second: Totals,
    dual2: &[u64],
    primal2: &[u64],
    skipped2: &[u8],
) -> Result<(), Refusal>
    ensures { code_of result ≡ join_code
        (record { totals = sheet; dual = dual.now; primal = primal.now; skipped = skipped.now })
        (record { totals = second; dual = dual2.now; primal = primal2.now; skipped = skipped2.now }) }
{
    let first_ok = rows_ok(dual.len(), primal.len(), skipped.len(), sheet.files);
    let second_ok = rows_ok(dual2.len(), primal2.len(), skipped2.len(), second.files);
    let second_dual = second.dual;
    let second_primal = second.primal;
    let named = names_ok(second.files, second_dual, second_primal);
    let none = no_room(
        sheet.files,
        second.files,
        skipped.len(),
        sheet.records,
        second.records,
    );
    let dual_spills = spills(dual, dual2);
    let primal_spills = spills(primal, primal2);
    sheet_row(
        !(first_ok & second_ok),
        !named,
        none | dual_spills | primal_spills,
    )
}

fn refused(refusal: Refusal) -> Totals
    ensures { result ≡ refused_totals (number_of refusal) }
{
    Totals {
        code: refusal.number(),
        files: 0,
        records: 0,
        dual: NONE,
        primal: NONE,
    }
}

// The totals of a sum, which has room.
fn joined_totals(sheet: Totals, second: Totals) -> Totals
    requires { TotalsFit sheet second }
    ensures { result ≡ joined_totals sheet second }
{
    let files = sheet.files;
    let first_dual = sheet.dual;
    let second_dual = second.dual;
    let first_primal = sheet.primal;
    let second_primal = second.primal;
    let dual = larger_of(first_dual, moved_up(files, second_dual));
    let primal = larger_of(first_primal, moved_up(files, second_primal));
    Totals {
        code: 0,
        files: files + second.files,
        records: sheet.records + second.records,
        dual,
        primal,
    }
}

// 02, Order 14: "Traces joined in two groups and their sheets added". The second sheet stands behind the first, whose rows become the
// sum's.
pub fn join(
    sheet: Totals,
    dual: &mut [u64],
    primal: &mut [u64],
    skipped: &mut [u8],
    second: Totals,
    dual2: &[u64],
    primal2: &[u64],
    skipped2: &[u8],
) -> Totals
    ensures { record { totals = result; dual = dual.new; primal = primal.new; skipped = skipped.new }
        ≡ join_of (record { totals = sheet; dual = dual.old; primal = primal.old; skipped = skipped.old })
        (record { totals = second; dual = dual2.now; primal = primal2.now; skipped = skipped2.now }) }
{
    let judged = join_code(
        sheet, dual, primal, skipped, second, dual2, primal2, skipped2,
    );
    if let Err(refusal) = judged {
        return refused(refusal);
    }
    sum(dual, dual2);
    sum(primal, primal2);
    copy(
        skipped,
        sheet.files as usize,
        front(skipped2, second.files as usize),
    );
    joined_totals(sheet, second)
}

// A row in which nothing was counted.
fn row() -> [u64; 2048]
    ensures { Fresh result }
{
    [0; 2048]
}

fn flag_of(taken: bool) -> u8
    ensures { result ≡ cond taken 0 1 }
{
    if taken { 0 } else { 1 }
}

// The bytes of one file more: the sheet of that file alone, added. Beside the equation the contract says what every call has and the
// theorems ask: the file holds bytes.
pub fn add(
    sheet: Totals,
    dual: &mut [u64],
    primal: &mut [u64],
    skipped: &mut [u8],
    file: &[u8],
) -> Totals
    ensures { (record { totals = result; dual = dual.new; primal = primal.new; skipped = skipped.new }
        ≡ add_of (record { totals = sheet; dual = dual.old; primal = primal.old; skipped = skipped.old })
        file.now)
        × AllBelow 256 file.now }
{
    let mut dual2 = row();
    let mut primal2 = row();
    let counted = one_file(file, &mut dual2, &mut primal2);
    let part = counted.unwrap_or(nothing());
    let part_dual = part.dual;
    let part_primal = part.primal;
    let one = Totals {
        code: 0,
        files: 1,
        records: part.records,
        dual: part_dual,
        primal: part_primal,
    };
    let flags = [flag_of(counted.is_some())];
    join(sheet, dual, primal, skipped, one, &dual2, &primal2, &flags)
}
