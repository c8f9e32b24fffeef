// When bytes are a trace.
ghost use Rattle.std.specs.Prelude.{◌≡◌, ◌+◌, ◌*◌, ◌-◌, ◌≤◌, eqb};
ghost use Rattle.trace_layout.specs.Traces.{most_records, trailer_size, known, walks};
ghost use Rattle.trace.specs.judge.Opening.{trailer_at, trailer_ok_with, good_with, open_of};

use crate::reader::current_in;
use octets::words::{behind, front, u32_at, u64_at};
use trace_layout::pieces::{BACK_MARK, MOST_RECORDS, NEWEST_EDITION, TRAILER_SIZE};

// As many records as a trace may have, as its trailer counts them.
pub(crate) const MOST_COUNT: u32 = MOST_RECORDS as u32;

// What a trailer says.
#[derive(Clone, Copy)]
pub struct Trailer {
    pub list: u64,
    pub count: u32,
    pub edition: u32,
    pub mark: u32,
}

// A trace that was judged: 0 or 9, its edition and count, and where its records end.
#[derive(Clone, Copy)]
pub struct Judged {
    pub code: u32,
    pub edition: u32,
    pub count: u32,
    pub list: u64,
}

pub fn known(edition: u32) -> bool
    ensures { result ≡ known edition }
{
    (1 <= edition) & (edition <= NEWEST_EDITION)
}

// n less k, and 0 where k is more.
fn less(n: usize, k: usize) -> usize
    ensures { result ≡ n - k }
{
    if k <= n { n - k } else { 0 }
}

// The last bytes as a trailer, whatever they are.
pub fn trailer_at(bytes: &[u8]) -> Trailer
    ensures { result ≡ trailer_at bytes.now }
{
    let n = bytes.len();
    let list = u64_at(bytes, less(n, TRAILER_SIZE));
    let count = u32_at(bytes, less(n, 12));
    let edition = u32_at(bytes, less(n, 8));
    let mark = u32_at(bytes, less(n, 4));
    Trailer {
        list,
        count,
        edition,
        mark,
    }
}

// Whether list, entries and trailer fill n bytes. The list's offset may be any number of 64 bits, so it is not added to.
fn fills(list: u64, count: u32, n: usize) -> bool
    ensures { result ≡ eqb (list + 8 * count + trailer_size) n }
{
    let after = 8 * (count as usize) + TRAILER_SIZE;
    if n < after {
        return false;
    }
    list as usize == n - after
}

fn trailer_ok(n: usize, trailer: Trailer) -> bool
    ensures { result ≡ trailer_ok_with n trailer }
{
    (TRAILER_SIZE <= n)
        & (trailer.mark == BACK_MARK)
        & known(trailer.edition)
        & (trailer.count <= MOST_COUNT)
        & fills(trailer.list, trailer.count, n)
}

// Whether count records lie end to end in the body and their offsets are the entries.
fn walk(edition: u32, body: &[u8], entries: &[u8], count: usize) -> bool
    requires { count ≤ most_records }
    ensures { result ≡ walks edition count 0 body.now entries.now }
{
    let mut at = 0;
    // By number: the entries may be fewer than count.
    for i in 0..count {
        let Some(shape) = current_in(body, at, edition) else {
            return false;
        };
        if u64_at(entries, 8 * i) as usize != at {
            return false;
        }
        at += shape.size;
    }
    at == body.len()
}

// Whether the bytes before the trailer are its records and their offsets.
fn good_with(bytes: &[u8], trailer: Trailer) -> bool
    ensures { result ≡ good_with bytes.now trailer }
{
    if !trailer_ok(bytes.len(), trailer) {
        return false;
    }
    let list = trailer.list as usize;
    walk(
        trailer.edition,
        front(bytes, list),
        behind(bytes, list),
        trailer.count as usize,
    )
}

// 02: "9 a trace or record that breaks the layout". Never in its caller's frame: built the way for Arm, a record that is read by its number
// took 6 KB of stack more so.
#[inline(never)]
pub fn open(bytes: &[u8]) -> Judged
    ensures { result ≡ open_of bytes.now }
{
    let trailer = trailer_at(bytes);
    if good_with(bytes, trailer) {
        Judged {
            code: 0,
            edition: trailer.edition,
            count: trailer.count,
            list: trailer.list,
        }
    } else {
        Judged {
            code: 9,
            edition: 0,
            count: 0,
            list: 0,
        }
    }
}
