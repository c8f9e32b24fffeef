// A cut trace rescued. 02, Order 7: "Walk from byte 0, keep every whole record until the first that is cut or malformed, write a good list
// and trailer, and report records kept, bytes dropped, and whether list and trailer were rebuilt or already right (the input was a good
// trace)".
ghost use Rattle.std.specs.Prelude.{◌≡◌, cond};
ghost use Rattle.cone.specs.table.Table.{number_of};
ghost use Rattle.octets.specs.words.Words.{AllBelow};
ghost use Rattle.trace_rescue.specs.call.Rescue.{edition_for, refused_with, rescue_of};

use cone::table::{Refusal, trace_row};
use octets::words::{copy, front};
use trace::judge::{known, open, trailer_at};
use trace::seal::seal;
use trace::whole::walk;
use trace_layout::pieces::{BACK_MARK, TRAILER_SIZE};
use trace_layout::rooms::row;

// What a rescue answers: its number, the records kept, the bytes dropped, the output's length, and whether the input was a good trace.
#[repr(C)]
#[derive(Clone, Copy)]
pub struct Rescued {
    pub code: u32,
    pub kept: u32,
    pub dropped: u64,
    pub length: u64,
    pub right: bool,
}

fn refused(refusal: Refusal) -> Rescued
    ensures { result ≡ refused_with (number_of refusal) }
{
    Rescued {
        code: refusal.number(),
        kept: 0,
        dropped: 0,
        length: 0,
        right: false,
    }
}

// The edition of what is written. 02, Order 8: "Rescue keeps the edition if the input ends in a known edition and `BACK`, and otherwise
// takes it from its caller".
fn edition_for(input: &[u8], given: u32) -> u32
    ensures { result ≡ edition_for input.now given }
{
    let trailer = trailer_at(input);
    let kept = (8 <= input.len()) & (trailer.mark == BACK_MARK) & known(trailer.edition);
    if kept { trailer.edition } else { given }
}

// How many bytes of the input are taken over: the records, and list and trailer where these were right.
fn taken(right: bool, length: usize, end: usize) -> usize
    ensures { result ≡ cond right length end }
{
    if right { length } else { end }
}

// A good trace is written anew as every other input is, and comes out byte for byte. The output's length is known before its first byte is
// written. Beside the equation the contract says what every call has and the theorems ask: the input holds bytes.
pub fn rescue(input: &[u8], output: &mut [u8], edition: u32) -> Rescued
    ensures { (record { answer = result; output = output.new } ≡ rescue_of input.now output.old edition)
        × AllBelow 256 input.now }
{
    let opened = open(input);
    let chosen = edition_for(input, edition);
    let mut starts = row();
    let walked = walk(chosen, input, &mut starts);
    let end = walked.end;
    let length = end + 8 * walked.count + TRAILER_SIZE;
    if let Err(refusal) = trace_row(!known(chosen), output.len() < length) {
        return refused(refusal);
    }
    copy(output, 0, front(input, end));
    seal(output, end, &starts[..walked.count], chosen);
    let right = opened.code == 0;
    Rescued {
        code: 0,
        kept: walked.count as u32,
        dropped: (input.len() - taken(right, length, end)) as u64,
        length: length as u64,
        right,
    }
}
