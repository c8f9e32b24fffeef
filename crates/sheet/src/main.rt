// sheet FILE ..: the monthly sheet of traces, files numbered from 1 as given. 02, Order 14. It reads, calls and writes. By its contract
// `put_files` leaves the text of the sheet of as many files as it is told; that these are the files named, in their order, and that the text
// is printed, tests/traces checks. A file that cannot be read is said in one line, and then no sheet is printed. One file at a time, the rows
// and the text lie on the stack.
#![tactic(auto)]

ghost use Rattle.std.specs.Prelude.{◌≡◌, [], ◌≤◌, length};
ghost use Rattle.trace_layout.specs.Traces.{most_files};
ghost use Rattle.trace_sheet.specs.counts.Counts.{Fresh};
ghost use Rattle.trace_sheet.specs.counts.Sheet.{sheet_of};
ghost use Rattle.trace_sheet.specs.rows.Rows.{totals_of};
ghost use Rattle.trace_sheet.specs.text.Printed.{text_room};
ghost use Rattle.sheet.specs.Counting.{FilesCounted, FilesPrinted};

use octets::words::front;
use program_files::{argument_count, print_text, read_argument, say};
use trace_layout::pieces::MOST_FILES;
use trace_layout::rooms::file_room;
use trace_sheet::counts::Largest;
use trace_sheet::rows::{Totals, add};
use trace_sheet::text::put_sheet;

fn count_room() -> [u64; 2048]
    ensures { Fresh result }
{
    [0; 2048]
}

fn flag_room() -> [u8; MOST_FILES]
    ensures { length result ≡ most_files }
{
    [0; MOST_FILES]
}

// Room for every text.
fn text_room() -> [u8; 326464]
    ensures { length result ≡ 326464 }
{
    [0; 326464]
}

// The sheet of no files.
fn nothing() -> Totals
    ensures { result ≡ totals_of (sheet_of []) }
{
    let none = Largest {
        size: 0,
        file: 0,
        at: 0,
    };
    Totals {
        code: 0,
        files: 0,
        records: 0,
        dual: none,
        primal: none,
    }
}

// The files one after the other, each into the same room; None where one could not be read. What stands in them is no argument, so that the
// contract says of some files what the rows hold.
fn count_files(
    rt: &HostRuntime,
    files: usize,
    file: &mut [u8],
    dual: &mut [u64],
    primal: &mut [u64],
    skipped: &mut [u8],
) -> Option<Totals>
    ensures { FilesCounted files result
        (record { totals = totals_of (sheet_of []); dual = dual.old; primal = primal.old; skipped = skipped.old })
        dual.new primal.new skipped.new }
{
    let mut totals = nothing();
    for i in 0..files {
        let n = read_argument(rt, i + 1, b"FILE", file)?;
        totals = add(totals, dual, primal, skipped, front(file, n));
    }
    Some(totals)
}

// The text of their sheet, and its length; 0 where one could not be read.
fn put_files(rt: &HostRuntime, files: usize, text: &mut [u8]) -> usize
    requires { (files ≤ most_files) × (text_room ≤ length text.old) }
    ensures { FilesPrinted files result text.old text.new }
{
    let mut file = file_room();
    let mut dual = count_room();
    let mut primal = count_room();
    let mut skipped = flag_room();
    let Some(sheet) = count_files(rt, files, &mut file, &mut dual, &mut primal, &mut skipped) else {
        return 0;
    };
    let printed = put_sheet(text, sheet, &dual, &primal, &skipped);
    printed.length as usize
}

fn main(rt: HostRuntime) {
    let count = argument_count(&rt);
    if count < 2 {
        say(&rt, b"usage: sheet FILE ..\n");
        return;
    }
    let files = count - 1;
    if MOST_FILES < files {
        say(&rt, b"sheet: at most 1,000 files\n");
        return;
    }
    let mut text = text_room();
    let n = put_files(&rt, files, &mut text);
    print_text(&rt, front(&text, n));
}
