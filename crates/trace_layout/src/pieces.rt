// A trace of step searches: records from byte 0, the list of their offsets, and a trailer that points back to the list. 02, Order 1.
pub mod layout;

// 02, Order 1: "the four bytes `STEP`" and "four bytes `BACK`", as numbers of four bytes, the first lowest.
pub const STEP_MARK: u32 = b'S' as u32
    + b'T' as u32 * 0x100
    + b'E' as u32 * 0x1_0000
    + b'P' as u32 * 0x100_0000;

pub const BACK_MARK: u32 = b'B' as u32
    + b'A' as u32 * 0x100
    + b'C' as u32 * 0x1_0000
    + b'K' as u32 * 0x100_0000;

// 02, Order 9: "New traces are edition 3".
pub const NEWEST_EDITION: u32 = 3;

// 02, Order 1: "At most 4,096 records".
pub const MOST_RECORDS: usize = 4096;

// 02, Orders 2 and 14: the largest file that is taken has 65,536 bytes.
pub const MOST_BYTES: usize = 65536;

// 02, Order 14: "At most 1,000 files".
pub const MOST_FILES: usize = 1000;

// 02, Order 1: "a 20-byte trailer". A trace without records is its trailer.
pub const TRAILER_SIZE: usize = 20;

// A record's head: its mark, its length, kind, dim1 and dim2.
pub const HEAD_SIZE: usize = 20;

// How many bytes before a record's end its steps and counts begin.
pub const DUAL_STEP_BACK: usize = 24;

pub const DUAL_COUNT_BACK: usize = 16;

pub const PRIMAL_STEP_BACK: usize = 12;

pub const PRIMAL_COUNT_BACK: usize = 4;

// The parts that every record has: the head, start, flag, steps and counts. No record is shorter.
pub const FIXED_SIZE: usize = 56;

// The numbers that a record's parts depend on, and its whole length.
#[derive(Clone, Copy)]
pub struct Shape {
    pub kind: u32,
    pub dim1: u32,
    pub dim2: u32,
    pub flag: u32,
    pub size: usize,
}

// The numbers of a record beside its vectors: of a double, its bits.
#[derive(Clone, Copy)]
pub struct Entry {
    pub kind: u32,
    pub dim1: u32,
    pub dim2: u32,
    pub rule: u32,
    pub start: u64,
    pub flag: u32,
    pub step: u64,
    pub smallest: u64,
    pub dualstep: u64,
    pub dualcount: u32,
    pub primalstep: u64,
    pub primalcount: u32,
}

// Where a record goes: the number of a refusal, or 0; the trace's edition, count of records and list; the record's length.
#[derive(Clone, Copy)]
pub struct Place {
    pub code: u32,
    pub edition: u32,
    pub count: u32,
    pub list: usize,
    pub size: usize,
}
