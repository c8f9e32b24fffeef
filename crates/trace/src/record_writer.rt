// A record's parts, one behind the other, into a lent slice. 02, Order 1.
ghost use Rattle.std.specs.Prelude.{◌≡◌, ◌+◌, ◌*◌, ◌≤◌, length};
ghost use Rattle.std.proofs.lemmas.List.Edits.{sets};
ghost use Rattle.octets.specs.words.Words.{row_bytes};
ghost use Rattle.trace_layout.specs.Records.{head_size, dual_step_back, rules_in, settings_in};
ghost use Rattle.trace_layout.specs.pieces.Entries.{bits_of};
ghost use Rattle.trace.specs.record_writer.Parts.{head_row, rule_row, search_bytes, answer_bytes, result_bytes, vector_bytes, entry_bytes};

use double::to_bits;
use octets::words::{put, put_words};
use trace_layout::pieces::layout::{has_rule, rules_in, settings_in, size_for};
use trace_layout::pieces::{Entry, HEAD_SIZE, STEP_MARK};

fn put_row(bytes: &mut [u8], place: usize, row: &[f64])
    requires { place + 8 * length row.now ≤ length bytes.old }
    ensures { bytes.new ≡ sets bytes.old place (row_bytes 8 (bits_of row.now)) }
{
    for (i, x) in row.iter().enumerate() {
        put(bytes, place + 8 * i, 8, to_bits(*x));
    }
}

fn put_head(bytes: &mut [u8], place: usize, size: usize, x: Entry)
    requires { place + head_size ≤ length bytes.old }
    ensures { bytes.new ≡ sets bytes.old place (row_bytes 4 (head_row size x)) }
{
    let row = [
        STEP_MARK as u64,
        size as u64,
        x.kind as u64,
        x.dim1 as u64,
        x.dim2 as u64,
    ];
    put_words(bytes, place, 4, &row);
}

// The rule, in an edition that has one.
fn put_rule(bytes: &mut [u8], place: usize, edition: u32, rule: u32)
    requires { place + 4 * rules_in edition ≤ length bytes.old }
    ensures { bytes.new ≡ sets bytes.old place (row_bytes 4 (rule_row edition rule)) }
{
    if has_rule(edition) {
        put(bytes, place, 4, rule as u64);
    }
}

// Start, flag, and the settings that follow a flag of 0.
fn put_search(bytes: &mut [u8], place: usize, x: Entry)
    requires { place + 12 + 8 * settings_in x.flag ≤ length bytes.old }
    ensures { bytes.new ≡ sets bytes.old place (search_bytes x) }
{
    put(bytes, place, 8, x.start);
    put(bytes, place + 8, 4, x.flag as u64);
    if x.flag == 0 {
        let row = [x.step, x.smallest];
        put_words(bytes, place + 12, 8, &row);
    }
}

fn put_answer(bytes: &mut [u8], place: usize, step: u64, count: u32)
    requires { place + 12 ≤ length bytes.old }
    ensures { bytes.new ≡ sets bytes.old place (answer_bytes step count) }
{
    put(bytes, place, 8, step);
    put(bytes, place + 8, 4, count as u64);
}

// Both answers: dual step, dual count, primal step, primal count.
fn put_results(bytes: &mut [u8], place: usize, x: Entry)
    requires { place + dual_step_back ≤ length bytes.old }
    ensures { bytes.new ≡ sets bytes.old place (result_bytes x) }
{
    put_answer(bytes, place, x.dualstep, x.dualcount);
    put_answer(bytes, place + 12, x.primalstep, x.primalcount);
}

fn put_vectors(bytes: &mut [u8], place: usize, dz: &[f64], ds: &[f64], z: &[f64], s: &[f64])
    requires { place + length (vector_bytes dz.now ds.now z.now s.now) ≤ length bytes.old }
    ensures { bytes.new
        ≡ sets bytes.old place (vector_bytes dz.now ds.now z.now s.now) }
{
    let second = place + 8 * dz.len();
    let third = second + 8 * ds.len();
    let fourth = third + 8 * z.len();
    put_row(bytes, place, dz);
    put_row(bytes, second, ds);
    put_row(bytes, third, z);
    put_row(bytes, fourth, s);
}

// The whole record.
pub(crate) fn put_record(
    bytes: &mut [u8],
    place: usize,
    edition: u32,
    x: Entry,
    exps: &[f64],
    dz: &[f64],
    ds: &[f64],
    z: &[f64],
    s: &[f64],
)
    requires { place + length (entry_bytes edition x exps.now dz.now ds.now z.now s.now) ≤ length bytes.old }
    ensures { bytes.new
        ≡ sets bytes.old place
        (entry_bytes edition x exps.now dz.now ds.now z.now s.now) }
{
    let size = size_for(edition, x.kind, x.dim1, x.dim2, x.flag);
    let second = place + HEAD_SIZE;
    let third = second + 4 * rules_in(edition);
    let fourth = third + 8 * exps.len();
    let fifth = fourth + 12 + 8 * settings_in(x.flag);
    let sixth = fifth + 8 * (dz.len() + ds.len() + z.len() + s.len());
    put_head(bytes, place, size, x);
    put_rule(bytes, second, edition, x.rule);
    put_row(bytes, third, exps);
    put_search(bytes, fourth, x);
    put_vectors(bytes, fifth, dz, ds, z, s);
    put_results(bytes, sixth, x);
}
