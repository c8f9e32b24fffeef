// The reader of records, for bytes of any origin: what record of an edition stands at a place, and where the next one begins. 02, Order 2:
// "The reader keeps hold of the trace and its place between records; the engineers want the same reader for later tools". The judge,
// replay, the sheet and the readers of one record run over it, and so does the walk of `whole`, by which rescue, seal and thin find their
// records.
//
// The methods of a Reader are thin, and leave the work to a function over the slice, the place and the edition. `current_in` and
// `place_in` make a Reader for one call, so that a loop keeps a plain slice and a place.
ghost use Rattle.std.specs.Prelude.{◌≡◌};
ghost use Rattle.trace.specs.reader.Reading.{found_from, place_after};

use octets::words::behind;
use trace_layout::pieces::Shape;
use trace_layout::pieces::layout::found_at;

#[derive(Clone, Copy)]
pub struct Reader<'a> {
    pub bytes: &'a [u8],
    pub at: usize,
}

// The record at a place, if one stands there.
pub(crate) fn found_from(bytes: &[u8], at: usize, edition: u32) -> Option<Shape>
    ensures { result ≡ found_from bytes.now at edition }
{
    found_at(edition, behind(bytes, at))
}

// The place behind the record at a place; where none stands there, the same place.
pub(crate) fn place_after(bytes: &[u8], at: usize, edition: u32) -> usize
    ensures { result ≡ place_after bytes.now at edition }
{
    let Some(shape) = found_from(bytes, at, edition) else {
        return at;
    };
    at + shape.size
}

impl<'a> Reader<'a> {
    pub fn make(bytes: &'a [u8], at: usize) -> Reader<'a>
        ensures { (result.bytes ≡ bytes.entry) × (result.at ≡ at) }
    {
        Reader { bytes, at }
    }

    pub fn place(self) -> usize
        ensures { result ≡ self.entry.at }
    {
        self.at
    }

    pub fn current(self, edition: u32) -> Option<Shape>
        ensures { result ≡ found_from self.entry.bytes.now self.entry.at edition }
    {
        found_from(self.bytes, self.at, edition)
    }

    pub fn next(self, edition: u32) -> Reader<'a>
        ensures { (result.bytes ≡ self.entry.bytes) × (result.at ≡ place_after self.entry.bytes.now self.entry.at edition) }
    {
        let at = place_after(self.bytes, self.at, edition);
        Reader {
            bytes: self.bytes,
            at,
        }
    }
}

pub fn current_in(bytes: &[u8], at: usize, edition: u32) -> Option<Shape>
    ensures { result ≡ found_from bytes.now at edition }
{
    Reader::make(bytes, at).current(edition)
}

pub fn place_in(bytes: &[u8], at: usize, edition: u32) -> usize
    ensures { result ≡ place_after bytes.now at edition }
{
    Reader::make(bytes, at).next(edition).place()
}
