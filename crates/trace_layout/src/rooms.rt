// Arrays as large as the limits ask for. They are functions, so that a caller's proof does not walk through so many zeros: the length is
// said beside the answer, because lending the array asks for it.
ghost use Rattle.std.specs.Prelude.{◌≡◌, length, replicate};
ghost use Rattle.trace_layout.specs.Traces.{most_records, file_room};

use crate::pieces::{MOST_BYTES, MOST_RECORDS};

// One byte more than a file may have, so that a larger one shows.
const FILE_ROOM: usize = MOST_BYTES + 1;

// Room for an offset of each record that a trace may have.
pub fn row() -> [u64; MOST_RECORDS]
    ensures { (length result ≡ most_records) × (result ≡ replicate most_records 0) }
{
    [0; MOST_RECORDS]
}

// Room for a file.
pub fn file_room() -> [u8; FILE_ROOM]
    ensures { (length result ≡ file_room) × (result ≡ replicate file_room 0) }
{
    [0; FILE_ROOM]
}

// How many bytes of a text and of an output a program on a file has written.
#[derive(Clone, Copy)]
pub struct Lengths {
    pub text: usize,
    pub output: usize,
}
