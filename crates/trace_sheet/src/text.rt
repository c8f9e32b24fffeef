// The sheet's text, as bytes in a lent slice. 02, Order 14.
ghost use Rattle.std.specs.Prelude.{◌≡◌};
ghost use Rattle.trace_sheet.specs.text.Printed.{print_of};

use crate::lines::{put_flags, put_side};
use crate::rows::{Totals, rows_ok, sheet_row};
use octets::words::front;
use trace_layout::pieces::MOST_FILES;

// Room for every text: 1,000 lines of skipped files and 2,049 of each side, 64 bytes each, and 96 for the largest of each side.
const ROOM: usize = 326464;

// The most files of a sheet, as its totals count them.
const MOST_COUNT: u32 = MOST_FILES as u32;

// The number of a refusal, or the text's length.
#[repr(C)]
#[derive(Clone, Copy)]
pub struct Printed {
    pub code: u32,
    pub length: u64,
}

// The whole text, from the slice's first byte on. A slice that would not hold every sheet's text is refused, so that nothing is measured
// first.
pub fn put_sheet(
    text: &mut [u8],
    sheet: Totals,
    dual: &[u64],
    primal: &[u64],
    skipped: &[u8],
) -> Printed
    ensures { record { answer = result; text = text.new }
        ≡ print_of text.old
        (record { totals = sheet; dual = dual.now; primal = primal.now; skipped = skipped.now }) }
{
    let rows = rows_ok(dual.len(), primal.len(), skipped.len(), sheet.files);
    if let Err(refusal) = sheet_row(!rows, MOST_COUNT < sheet.files, text.len() < ROOM) {
        return Printed {
            code: refusal.number(),
            length: 0,
        };
    }
    let dual_largest = sheet.dual;
    let primal_largest = sheet.primal;
    let second = put_flags(text, front(skipped, sheet.files as usize));
    let third = put_side(text, second, false, sheet.records, dual, dual_largest);
    let end = put_side(text, third, true, sheet.records, primal, primal_largest);
    Printed {
        code: 0,
        length: end as u64,
    }
}
