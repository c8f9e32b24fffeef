// The sheet's lines, as bytes in a lent slice. 02, Order 14: "Lines read, for the side `dual` and then `primal`: `dual records 3`, `dual
// zero 1`, `dual exp 0 1`, `dual exp -3 1`, `dual subnormal 0`, `dual most 42 file 1 at 0`".
ghost use Rattle.std.specs.Prelude.{◌≡◌, ◌++◌, ◌+◌, ◌*◌, ◌≤◌, ◌<◌, length};
ghost use Rattle.std.proofs.lemmas.List.Edits.{sets};
ghost use Rattle.octets.specs.decimal.Decimal.{decimal_of};
ghost use Rattle.octets.specs.lines.Lines.{line_of};
ghost use Rattle.trace_layout.specs.Traces.{most_files};
ghost use Rattle.trace_sheet.specs.counts.Counts.{places};
ghost use Rattle.trace_sheet.specs.lines.Text.{name_of, exp_part, exp_line, count_line, exp_lines, most_line, side_text};
ghost use Rattle.trace_sheet.specs.lines.Text.{flag_line, skipped_lines};

use crate::counts::Largest;
use octets::decimal::put_decimal;
use octets::lines::put_line;
use octets::words::copy;

// The fields of normal numbers are 1 to 2,046.
const FIELDS: usize = 2046;

// A side's name.
fn put_name(text: &mut [u8], place: usize, primal: bool) -> usize
    requires { place + 7 ≤ length text.old }
    ensures { (result ≡ place + length (name_of primal)) × (text.new ≡ sets text.old place (name_of primal)) }
{
    if primal {
        copy(text, place, b"primal ");
        return place + 7;
    }
    copy(text, place, b"dual ");
    place + 5
}

// A side's name, a word, a number and a line feed.
fn put_named(text: &mut [u8], place: usize, primal: bool, word: &[u8], n: u64) -> usize
    requires { (place + 64 ≤ length text.old) × (length word.now ≤ 10) }
    ensures { (result ≡ place + length (line_of (name_of primal ++ word.now) n))
        × (text.new ≡ sets text.old place (line_of (name_of primal ++ word.now) n)) }
{
    let second = put_name(text, place, primal);
    put_line(text, second, word, n)
}

// A word and a number.
fn put_part(text: &mut [u8], place: usize, word: &[u8], n: u64) -> usize
    requires { place + length word.now + 20 ≤ length text.old }
    ensures { (result ≡ place + length (word.now ++ decimal_of n))
        × (text.new ≡ sets text.old place (word.now ++ decimal_of n)) }
{
    copy(text, place, word);
    put_decimal(text, place + word.len(), n)
}

// `exp ` and the exponent that a field stands for.
fn put_exponent(text: &mut [u8], place: usize, field: u64) -> usize
    requires { place + 25 ≤ length text.old }
    ensures { (result ≡ place + length (exp_part field)) × (text.new ≡ sets text.old place (exp_part field)) }
{
    if field < 1023 {
        return put_part(text, place, b"exp -", 1023 - field);
    }
    put_part(text, place, b"exp ", field - 1023)
}

fn put_exp(text: &mut [u8], place: usize, primal: bool, field: u64, count: u64) -> usize
    requires { place + 64 ≤ length text.old }
    ensures { (result ≡ place + length (exp_line primal field count))
        × (text.new ≡ sets text.old place (exp_line primal field count)) }
{
    let second = put_name(text, place, primal);
    let third = put_exponent(text, second, field);
    put_line(text, third, b" ", count)
}

// A line for an exponent that occurs.
fn put_count(text: &mut [u8], place: usize, primal: bool, field: u64, count: u64) -> usize
    requires { place + 64 ≤ length text.old }
    ensures { (result ≡ place + length (count_line primal field count))
        × (text.new ≡ sets text.old place (count_line primal field count)) }
{
    if count == 0 {
        return place;
    }
    put_exp(text, place, primal, field, count)
}

// 02, Order 14: "one line per exponent that occurs, largest first".
fn put_exps(text: &mut [u8], place: usize, primal: bool, row: &[u64]) -> usize
    requires { (place + 130944 ≤ length text.old) × (length row.now ≡ places) }
    ensures { (result ≡ place + length (exp_lines primal row.now 2046))
        × (text.new ≡ sets text.old place (exp_lines primal row.now 2046)) }
{
    let mut at = place;
    for i in 0..FIELDS {
        let field = FIELDS - i;
        at = put_count(text, at, primal, field as u64, row[field + 1]);
    }
    at
}

// 02, Order 14: "the last is left out when there are no records".
fn put_most(text: &mut [u8], place: usize, primal: bool, largest: Largest) -> usize
    requires { place + 96 ≤ length text.old }
    ensures { (result ≡ place + length (most_line primal largest))
        × (text.new ≡ sets text.old place (most_line primal largest)) }
{
    if largest.size == 0 {
        return place;
    }
    let second = put_name(text, place, primal);
    let third = put_part(text, second, b"most ", largest.size - 1);
    let fourth = put_part(text, third, b" file ", largest.file);
    put_line(text, fourth, b" at ", largest.at)
}

// The lines of a side, the first line at a place.
pub(crate) fn put_side(
    text: &mut [u8],
    place: usize,
    primal: bool,
    records: u64,
    row: &[u64],
    largest: Largest,
) -> usize
    requires { (place + 131232 ≤ length text.old) × (length row.now ≡ places) }
    ensures { (result ≡ place + length (side_text primal records (record { counts = row.now; largest = largest })))
        × (text.new
        ≡ sets text.old place (side_text primal records (record { counts = row.now; largest = largest }))) }
{
    let second = put_named(text, place, primal, b"records ", records);
    let third = put_named(text, second, primal, b"zero ", row[0]);
    let fourth = put_exps(text, third, primal, row);
    let fifth = put_named(text, fourth, primal, b"subnormal ", row[1]);
    put_most(text, fifth, primal, largest)
}

// A line for a file that is skipped.
fn put_flag(text: &mut [u8], place: usize, file: u64, flag: u8) -> usize
    requires { place + 64 ≤ length text.old }
    ensures { (result ≡ place + length (flag_line file flag))
        × (text.new ≡ sets text.old place (flag_line file flag)) }
{
    if flag == 0 {
        return place;
    }
    put_line(text, place, b"skipped file ", file)
}

// 02, Order 14: "is named first in a line `skipped file N`".
pub(crate) fn put_flags(text: &mut [u8], flags: &[u8]) -> usize
    requires { (64 * length flags.now ≤ length text.old) × (length flags.now ≤ most_files) }
    ensures { (result ≡ 0 + length (skipped_lines 1 flags.now))
        × (text.new ≡ sets text.old 0 (skipped_lines 1 flags.now)) }
{
    let mut at = 0;
    for (i, flag) in flags.iter().enumerate() {
        at = put_flag(text, at, i as u64 + 1, *flag);
    }
    at
}
