// Traces: bytes of any origin read record by record (reader), judged whole (judge), as values (value); records laid out (record_writer),
// put, read and sealed as searches are made (recording), a trace created and appended to (entries, places, writer); the whole records at
// the front of bytes (whole), list and trailer behind records (seal); and what is read back of all that was written (kept, laws only).
#![tactic(auto)]

pub mod entries;
pub mod judge;
pub mod kept;
pub mod places;
pub mod reader;
pub mod record_writer;
pub mod recording;
pub mod seal;
pub mod value;
pub mod whole;
pub mod writer;
