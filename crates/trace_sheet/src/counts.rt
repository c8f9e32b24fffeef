// One side of a sheet: steps counted by binary exponent in a lent row of 2,048 numbers, and the largest count of tests. 02, Order 14.
ghost use Rattle.std.specs.Prelude.{◌≡◌, ◌+◌, ◌<◌, ◌^◌, length, get_or};
ghost use Rattle.trace_sheet.specs.counts.Counts.{place_of, counted, larger_of, moved_up};

// The largest count of tests so far: size is one more than it, and 0 where there are no records; the file's number and the record's offset.
#[repr(C)]
#[derive(Clone, Copy)]
pub struct Largest {
    pub size: u64,
    pub file: u64,
    pub at: u64,
}

// Of no records.
pub const NONE: Largest = Largest {
    size: 0,
    file: 0,
    at: 0,
};

// The place of a step in its row: 0 of zero, 1 of the subnormal ones, and f + 1 of the exponent field f.
pub(crate) fn place_of(step: u64) -> usize
    ensures { result ≡ place_of step }
{
    if step == 0 {
        return 0;
    }
    (step / 0x10_0000_0000_0000) as usize + 1
}

// One step more in its place.
pub(crate) fn count(row: &mut [u64], step: u64)
    requires { (place_of step < length row.old) × (get_or row.old (place_of step) 0 + 1 < 2 ^ 64) }
    ensures { row.new ≡ counted row.old step }
{
    let place = place_of(step);
    row[place] += 1;
}

// 02, Order 14: "the earlier largest kept on a tie". s is the earlier.
pub(crate) fn larger_of(s: Largest, t: Largest) -> Largest
    ensures { result ≡ larger_of s t }
{
    if s.size < t.size { t } else { s }
}

// 02, Order 14: "the second group's file numbers moved up by the first's file count". Where there are no records, no number is read.
pub(crate) fn moved_up(files: u32, t: Largest) -> Largest
    requires { (t.size ≡ 0 → ⊥) → t.file + files < 2 ^ 64 }
    ensures { result ≡ moved_up files t }
{
    if t.size == 0 {
        return NONE;
    }
    Largest {
        size: t.size,
        file: t.file + files as u64,
        at: t.at,
    }
}
