// replay FILE: the searches of a trace, run again. 02, Order 2. It reads, calls and writes; what it is to print is `printed_of`
// of `trace_replay::file`. The file, its text and the offsets lie on the stack.
#![tactic(auto)]

ghost use Rattle.std.specs.Prelude.{◌≡◌, length};

use program_files::{argument_count, print_text, read_argument, say};
use trace_layout::rooms::file_room;
use trace_replay::file::put_replay;

// Room for every text. The `ensures` gives the length alone, which lending the array needs.
fn text_room() -> [u8; 98391]
    ensures { length result ≡ 98391 }
{
    [0; 98391]
}

fn print(rt: &HostRuntime, file: &[u8]) {
    let mut text = text_room();
    let n = put_replay(&mut text, file);
    // it has room for every text, so this holds
    if n <= text.len() {
        print_text(rt, &text[..n]);
    }
}

fn main(rt: HostRuntime) {
    if argument_count(&rt) != 2 {
        say(&rt, b"usage: replay FILE\n");
        return;
    }
    let mut file = file_room();
    if let Some(n) = read_argument(&rt, 1, b"FILE", &mut file) {
        print(&rt, &file[..n]);
    }
}
