// thin IN OUT: a trace without the records that are equal to an earlier one. 02, Order 13. It reads, calls and writes; what it is
// to print is `printed_of` and what it is to write `written_of` of `trace_thin::file`. OUT is opened when all is known, and may be IN: a file that is refused
// leaves it alone. The file, its text and the output lie on the stack.
#![tactic(auto)]

ghost use Rattle.std.specs.Prelude.{◌≡◌, length};
ghost use Rattle.trace_layout.specs.Traces.{most_bytes};

use octets::words::front;
use program_files::{argument_count, print_text, read_argument, say, write_argument};
use trace_layout::pieces::MOST_BYTES;
use trace_layout::rooms::file_room;
use trace_thin::file::put_thin;

// Room for every text. The `ensures` gives the length alone, which lending the array needs.
fn text_room() -> [u8; 83]
    ensures { length result ≡ 83 }
{
    [0; 83]
}

// Room for every trace that comes of a file that is taken.
fn output_room() -> [u8; MOST_BYTES]
    ensures { length result ≡ most_bytes }
{
    [0; MOST_BYTES]
}

fn save(rt: &HostRuntime, file: &[u8]) {
    let mut text = text_room();
    let mut output = output_room();
    let n = put_thin(file, &mut text, &mut output);
    // a trace has at least 20 bytes: none is a refusal
    if n.output == 0 {
        print_text(rt, front(&text, n.text));
        return;
    }
    if write_argument(rt, 2, b"OUT", front(&output, n.output)) {
        print_text(rt, front(&text, n.text));
    }
}

fn main(rt: HostRuntime) {
    if argument_count(&rt) != 3 {
        say(&rt, b"usage: thin IN OUT\n");
        return;
    }
    let mut file = file_room();
    if let Some(n) = read_argument(&rt, 1, b"IN", &mut file) {
        save(&rt, &file[..n]);
    }
}
