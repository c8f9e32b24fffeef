// What one file adds to a sheet. 02, Order 14.
ghost use Rattle.std.specs.Prelude.{◌≡◌, true, false, cond, ◌-◌, ◌≤◌, length};
ghost use Rattle.octets.specs.words.Words.{word_at, AllBelow};
ghost use Rattle.trace_layout.specs.Records.{dual_step_back, dual_count_back, primal_step_back, primal_count_back, fixed_size};
ghost use Rattle.trace.specs.whole.Whole.{whole_records};
ghost use Rattle.trace_sheet.specs.counts.Counts.{Fresh, counts_of};
ghost use Rattle.trace_sheet.specs.counts.Sheet.{entries_in, entries_of};
ghost use Rattle.trace_sheet.specs.one_file.Part.{tally_of, part_of, nothing};

use crate::counts::{Largest, NONE, count, larger_of};
use octets::words::{behind, u32_at, u64_at};
use trace::judge::open;
use trace::reader::current_in;
use trace_layout::pieces::{
    DUAL_COUNT_BACK, DUAL_STEP_BACK, MOST_BYTES, MOST_RECORDS, PRIMAL_COUNT_BACK, PRIMAL_STEP_BACK,
};

// How many searches of one side there are, and the largest of them.
#[derive(Clone, Copy)]
pub struct Tally {
    pub records: u64,
    pub largest: Largest,
}

// How many records a file has, and the largest of each side. Its own number is 1.
#[derive(Clone, Copy)]
pub struct Part {
    pub records: u64,
    pub dual: Largest,
    pub primal: Largest,
}

// The step of one side, in a record of that size.
fn step_at(t: &[u8], size: usize, primal: bool) -> u64
    requires { fixed_size ≤ size }
    ensures { result
        ≡ cond primal (word_at 8 t.now (size - primal_step_back)) (word_at 8 t.now (size - dual_step_back)) }
{
    if primal {
        return u64_at(t, size - PRIMAL_STEP_BACK);
    }
    u64_at(t, size - DUAL_STEP_BACK)
}

// The tests of that search.
fn tests_at(t: &[u8], size: usize, primal: bool) -> u32
    requires { fixed_size ≤ size }
    ensures { result
        ≡ cond primal (word_at 4 t.now (size - primal_count_back)) (word_at 4 t.now (size - dual_count_back)) }
{
    if primal {
        return u32_at(t, size - PRIMAL_COUNT_BACK);
    }
    u32_at(t, size - DUAL_COUNT_BACK)
}

// The searches of one side of the whole records at the front of bytes, which of a good trace are all its records: steps counted in the row.
pub(crate) fn tally_side(edition: u32, bytes: &[u8], primal: bool, row: &mut [u64]) -> Tally
    requires { Fresh row.old }
    ensures { (result ≡ tally_of (entries_in primal 1 edition 0 (whole_records edition bytes.now)))
        × (row.new ≡ counts_of (entries_in primal 1 edition 0 (whole_records edition bytes.now))) }
{
    let mut at = 0;
    let mut largest = NONE;
    for i in 0..MOST_RECORDS {
        let t = behind(bytes, at);
        let Some(shape) = current_in(bytes, at, edition) else {
            return Tally {
                records: i as u64,
                largest,
            };
        };
        let size = shape.size;
        let step = step_at(t, size, primal);
        let tests = tests_at(t, size, primal);
        count(row, step);
        let here = Largest {
            size: tests as u64 + 1,
            file: 1,
            at: at as u64,
        };
        largest = larger_of(largest, here);
        at += size;
    }
    Tally {
        records: MOST_RECORDS as u64,
        largest,
    }
}

// A file that is skipped adds nothing.
pub(crate) fn nothing() -> Part
    ensures { result ≡ nothing }
{
    Part {
        records: 0,
        dual: NONE,
        primal: NONE,
    }
}

// 02, Order 14: "a broken one, or one above 65,536 bytes, is .. left uncounted". Beside the equations the contract says what every call has
// and the laws ask:
// the file holds bytes.
pub(crate) fn one_file(bytes: &[u8], dual: &mut [u64], primal: &mut [u64]) -> Option<Part>
    requires { Fresh dual.old × Fresh primal.old }
    ensures { (result ≡ part_of bytes.now) × (dual.new ≡ counts_of (entries_of false 1 bytes.now))
        × (primal.new ≡ counts_of (entries_of true 1 bytes.now)) × AllBelow 256 bytes.now }
{
    if MOST_BYTES < bytes.len() {
        return None;
    }
    let opened = open(bytes);
    if opened.code != 0 {
        return None;
    }
    let duals = tally_side(opened.edition, bytes, false, dual);
    let primals = tally_side(opened.edition, bytes, true, primal);
    let dual_largest = duals.largest;
    let primal_largest = primals.largest;
    Some(Part {
        records: duals.records,
        dual: dual_largest,
        primal: primal_largest,
    })
}
