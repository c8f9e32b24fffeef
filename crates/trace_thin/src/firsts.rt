// Pieces are rows of bytes that say their own lengths, as the records of a trace do. The walk over the reader finds the places of a trace's
// records, the first of each kind is chosen, then they are moved to the front, of another slice or of the same. 02, Order 13. A piece that
// says more than there is ends where the bytes do.
ghost use Rattle.std.specs.Prelude.{◌≡◌, cond, not, map, ◌+◌, ◌-◌, ◌≤◌, ◌<◌, length, take, drop, set, replicate};
ghost use Rattle.std.proofs.lemmas.List.Edits.{sets};
ghost use Rattle.octets.specs.equal_bytes.Equal.{equal_bytes, among, number_of};
ghost use Rattle.trace_layout.specs.Traces.{most_records};
ghost use Rattle.trace_thin.specs.firsts.Pieces.{piece_at, pieces_at, first_at, joined, offsets, Ahead};
ghost use Rattle.trace_thin.specs.firsts.Firsts.{starts_in, firsts_in, numbers_at, chosen_of};

use octets::equal_bytes::{number_of, same};
use octets::words::{behind, copy, front, u32_at};
use trace::whole::walk;

// How many pieces are chosen, and how many bytes they have.
#[derive(Clone, Copy)]
pub struct Chosen {
    pub kept: usize,
    pub size: usize,
}

// The piece at a place. Its length stands four bytes behind its begin.
fn piece_at(bytes: &[u8], place: usize) -> &[u8]
    ensures { result.now ≡ piece_at bytes.now place }
{
    let rest = behind(bytes, place);
    front(rest, u32_at(rest, 4) as usize)
}

fn size_at(bytes: &[u8], place: usize) -> usize
    ensures { result ≡ length (piece_at bytes.now place) }
{
    let piece = piece_at(bytes, place);
    piece.len()
}

// ---- choosing

// Whether a piece is equal to the one at a place: their numbers first, so that most pairs cost one comparison.
fn alike(bytes: &[u8], piece: &[u8], number: u64, place: usize, other: u64) -> bool
    requires { (number ≡ number_of piece.now) × (other ≡ number_of (piece_at bytes.now place)) }
    ensures { result ≡ equal_bytes piece.now (piece_at bytes.now place) }
{
    if other != number {
        return false;
    }
    same(piece, piece_at(bytes, place))
}

// Whether a piece is equal to one of those at the places.
fn seen(bytes: &[u8], piece: &[u8], number: u64, places: &[u64], numbers: &[u64]) -> bool
    requires { (number ≡ number_of piece.now) × (numbers.now ≡ map number_of (pieces_at bytes.now places.now)) }
    ensures { result ≡ among piece.now (pieces_at bytes.now places.now) }
{
    for (place, other) in places.iter().zip(numbers) {
        if alike(bytes, piece, number, *place as usize, *other) {
            return true;
        }
    }
    false
}

// One piece more: its place joins the others where it is equal to none of theirs. The answer says whether it did.
fn keep(bytes: &[u8], place: usize, places: &mut [u64], numbers: &mut [u64], kept: usize) -> bool
    requires kept_in_bounds { (kept < length places.old) × (kept < length numbers.old) }
    requires numbers_value { take kept numbers.old ≡ map number_of (first_at bytes.now kept places.old) }
    ensures { (result ≡ not (among (piece_at bytes.now place) (first_at bytes.now kept places.old)))
        × (places.new ≡ cond result (set places.old kept place) places.old)
        × (numbers.new
        ≡ cond result (set numbers.old kept (number_of (piece_at bytes.now place))) numbers.old) }
{
    let piece = piece_at(bytes, place);
    let number = number_of(piece);
    if seen(bytes, piece, number, &places[..kept], &numbers[..kept]) {
        return false;
    }
    places[kept] = place as u64;
    numbers[kept] = number;
    true
}

// The first of each kind among the records before the list. The walk leaves their places in the one row, the chosen ones come to its front,
// and their numbers go to the other: no row of pairs, since seal takes the places as they are.
pub(crate) fn choose(
    bytes: &[u8],
    list: u64,
    edition: u32,
    places: &mut [u64],
    numbers: &mut [u64],
) -> Chosen
    requires { (most_records ≤ length places.old) × (most_records ≤ length numbers.old) }
    ensures { (result ≡ chosen_of bytes.now (firsts_in bytes.now list edition))
        × (places.new ≡ sets (sets places.old 0 (starts_in bytes.now list edition)) 0
        (firsts_in bytes.now list edition))
        × (numbers.new
        ≡ sets numbers.old 0 (numbers_at bytes.now (firsts_in bytes.now list edition))) }
{
    let walked = walk(edition, front(bytes, list as usize), places);
    let count = walked.count;
    let mut kept = 0;
    let mut size = 0;
    for i in 0..count {
        let place = places[i] as usize;
        let n = size_at(bytes, place);
        let new = keep(bytes, place, places, numbers, kept);
        if new {
            kept += 1;
            size += n;
        }
    }
    Chosen { kept, size }
}

// ---- moving

// The pieces at the places, copied to the front of another slice. Their new places take the old ones' place.
pub(crate) fn gather(output: &mut [u8], bytes: &[u8], places: &mut [u64], kept: usize)
    requires { (kept ≤ length places.old) × (length (joined (first_at bytes.now kept places.old)) ≤ length output.old) }
    ensures { (output.new ≡ sets output.old 0 (joined (first_at bytes.now kept places.old)))
        × (places.new ≡ sets places.old 0 (offsets 0 (first_at bytes.now kept places.old))) }
{
    let mut to = 0;
    for j in 0..kept {
        let from = places[j] as usize;
        let piece = piece_at(bytes, from);
        copy(output, to, piece);
        places[j] = to as u64;
        to += piece.len();
    }
}

// Moves n bytes down, the first one first, since the two places may overlap. No `copy_within`: the library needs memcpy and memset alone.
fn slide(bytes: &mut [u8], to: usize, from: usize, n: usize)
    requires { (to ≤ from) × (from + n ≤ length bytes.old) }
    ensures { bytes.new ≡ sets bytes.old to (take n (drop from bytes.old)) }
{
    for i in 0..n {
        bytes[to + i] = bytes[from + i];
    }
}

// The same within one slice. No piece lies before where those in front of it end, so that none is overwritten before it is read.
pub(crate) fn move_down(bytes: &mut [u8], places: &mut [u64], kept: usize)
    requires { (kept ≤ length places.old) × Ahead bytes.old 0 (take kept places.old) }
    ensures { (bytes.new ≡ sets bytes.old 0 (joined (first_at bytes.old kept places.old)))
        × (places.new ≡ sets places.old 0 (offsets 0 (first_at bytes.old kept places.old))) }
{
    let mut end = 0;
    for j in 0..kept {
        let from = places[j] as usize;
        let n = size_at(bytes, from);
        slide(bytes, end, from, n);
        places[j] = end as u64;
        end += n;
    }
}

// Zeros from a place to the end.
pub(crate) fn clear(bytes: &mut [u8], place: usize)
    ensures { bytes.new ≡ sets bytes.old place (replicate (length bytes.old - place) 0) }
{
    if place < bytes.len() {
        bytes[place..].fill(0);
    }
}
