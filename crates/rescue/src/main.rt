// rescue IN OUT [EDITION]: a cut trace rescued. 02, Orders 7 and 8. It reads, calls and writes; what it is to print is `printed_of` and what
// it is to write `written_of` of trace_rescue::file. EDITION is the one that the new trace has where IN does not end in one: where it is needed and
// not given, the program asks for it, and says what each would keep. OUT may be IN. It is left alone where IN is refused, where an edition is
// asked for, and where no record would be kept of bytes that are there. The file, its text and the output lie on the stack.
#![tactic(auto)]

ghost use Rattle.std.specs.Prelude.{◌≡◌, length};
ghost use Rattle.trace_rescue.specs.call.Rescue.{kept_of, rescue_of};
ghost use Rattle.rescue.specs.Deeds.{edition_named, number_of, deed_by, deed_of};

use octets::words::front;
use program_files::{argument, argument_count, print_text, read_argument, say, write_argument};
use trace::whole::walk;
use trace_layout::pieces::MOST_BYTES;
use trace_layout::rooms::{file_room, row};
use trace_rescue::call::{Rescued, rescue};
use trace_rescue::file::{edition_of, put_rescue};

// What is done: the trace is written or IN refused, an edition is asked for, or OUT is left alone.
#[derive(Clone, Copy)]
enum Deed {
    Write,
    Ask,
    Leave,
}

// Room for every text. The `ensures` gives the length alone, which lending the array needs.
fn text_room() -> [u8; 63]
    ensures { length result ≡ 63 }
{
    [0; 63]
}

// Room for every trace that comes of a file that is taken.
fn output_room() -> [u8; 74916]
    ensures { length result ≡ 74916 }
{
    [0; 74916]
}

// The edition that the caller's word names, where there is a word.
#[tactic(auto, unfolding(crate::specs::Deeds::edition_named))]
fn edition_named(named: bool, word: &[u8]) -> Option<u32>
    ensures { result ≡ edition_named named word.now }
{
    if named {
        return Some(edition_of(word));
    }
    None
}

// 0 is no edition.
#[tactic(auto, unfolding(crate::specs::Deeds::number_of))]
fn number_of(edition: Option<u32>) -> u32
    ensures { result ≡ number_of edition }
{
    edition.unwrap_or(0)
}

// How many records of the file an edition's layout keeps.
#[tactic(auto, unfolding(trace::specs::whole::Whole::walked_of))]
fn kept_by(file: &[u8], edition: u32) -> usize
    ensures { result ≡ length (kept_of edition file.now) }
{
    let mut starts = row();
    walk(edition, file, &mut starts).count
}

#[tactic(auto, unfolding(crate::specs::Deeds::deed_by))]
fn deed_by(edition: Option<u32>, answer: Rescued) -> Deed
    ensures { result ≡ deed_by edition answer }
{
    if answer.code == 9 {
        if edition.is_some() {
            return Deed::Write;
        }
        return Deed::Ask;
    }
    if answer.kept != 0 {
        return Deed::Write;
    }
    if 0 < answer.dropped {
        return Deed::Leave;
    }
    Deed::Write
}

// What is to be done with OUT. The rescue is tried in the output's room.
#[tactic(auto, using(trace_layout::proofs::Limits::is_large, trace_layout::proofs::Limits::is_small), unfolding(crate::specs::Deeds::deed_of))]
fn deed_for(file: &[u8], output: &mut [u8], edition: Option<u32>) -> Deed
    ensures { result ≡ deed_of edition file.now (rescue_of file.now output.old (number_of edition)).answer }
{
    if MOST_BYTES < file.len() {
        return Deed::Write;
    }
    deed_by(edition, rescue(file, output, number_of(edition)))
}

fn say_number(rt: &HostRuntime, n: usize) {
    let _ = eprint!(rt; "{n}");
}

// What each edition would keep, the one that keeps the most first. Editions 1 and 2 have one layout.
fn ask(rt: &HostRuntime, file: &[u8]) {
    let older = kept_by(file, 1);
    let newest = kept_by(file, 3);
    say(rt, b"rescue: IN does not tell its edition: name it; ");
    if older <= newest {
        say(rt, b"edition 3 would keep ");
        say_number(rt, newest);
        say(rt, b" records, 1 and 2 would keep ");
        say_number(rt, older);
    } else {
        say(rt, b"editions 1 and 2 would keep ");
        say_number(rt, older);
        say(rt, b" records, 3 would keep ");
        say_number(rt, newest);
    }
    say(rt, b"\n");
}

// The text is printed, and the trace written where there is one.
fn write(rt: &HostRuntime, file: &[u8], output: &mut [u8], edition: u32)
    requires { length output.old ≡ 74916 }
{
    let mut text = text_room();
    let n = put_rescue(file, &mut text, output, edition);
    // a trace has at least 20 bytes: none is a refusal
    if n.output == 0 {
        print_text(rt, front(&text, n.text));
        return;
    }
    if write_argument(rt, 2, b"OUT", front(output, n.output)) {
        print_text(rt, front(&text, n.text));
    }
}

fn save(rt: &HostRuntime, file: &[u8], edition: Option<u32>) {
    let mut output = output_room();
    match deed_for(file, &mut output, edition) {
        Deed::Write => write(rt, file, &mut output, number_of(edition)),
        Deed::Ask => ask(rt, file),
        Deed::Leave => say(
            rt,
            b"rescue: no record would be kept: OUT is left as it was\n",
        ),
    }
}

fn main(rt: HostRuntime) {
    let count = argument_count(&rt);
    if count != 3 && count != 4 {
        say(&rt, b"usage: rescue IN OUT [EDITION]\n");
        return;
    }
    let mut file = file_room();
    let Some(length) = read_argument(&rt, 1, b"IN", &mut file) else {
        return;
    };
    // a word that is too long to be taken is empty here, and names no edition
    let mut word = io::buffer();
    let n = argument(&rt, 3, &mut word);
    let edition = edition_named(count == 4, &word[..n]);
    save(&rt, &file[..length], edition);
}
