// What a replay prints, as bytes in a lent slice. 02, Order 2: "print three lines: `records N`, `same N`, `differ N`, followed by one line
// `at OFFSET` per differing record in file order".
ghost use Rattle.std.specs.Prelude.{◌≡◌, ◌+◌, ◌*◌, ◌≤◌, length};
ghost use Rattle.std.proofs.lemmas.List.Edits.{sets};
ghost use Rattle.octets.specs.lines.Lines.{ascii, line_of};
ghost use Rattle.trace_replay.specs.text.Text.{offset_lines, replay_text};

use octets::lines::put_line;

fn put_offset(bytes: &mut [u8], place: usize, offset: u64) -> usize
    requires { place + 24 ≤ length bytes.old }
    ensures { (result ≡ place + length (line_of (ascii "at ") offset))
        × (bytes.new ≡ sets bytes.old place (line_of (ascii "at ") offset)) }
{
    put_line(bytes, place, b"at ", offset)
}

// A line for each offset.
fn put_offsets(bytes: &mut [u8], place: usize, offsets: &[u64]) -> usize
    requires { place + 24 * length offsets.now ≤ length bytes.old }
    ensures { (result ≡ place + length (offset_lines offsets.now))
        × (bytes.new ≡ sets bytes.old place (offset_lines offsets.now)) }
{
    let mut at = place;
    for offset in offsets {
        at = put_offset(bytes, at, *offset);
    }
    at
}

// The whole text, from the slice's first byte on. The answer is its length.
pub(crate) fn put_text(
    bytes: &mut [u8],
    records: u32,
    same: u32,
    differ: u32,
    offsets: &[u64],
) -> usize
    requires { 87 + 24 * length offsets.now ≤ length bytes.old }
    ensures { (result ≡ length (replay_text records same differ offsets.now))
        × (bytes.new ≡ sets bytes.old 0 (replay_text records same differ offsets.now)) }
{
    let second = put_line(bytes, 0, b"records ", records as u64);
    let third = put_line(bytes, second, b"same ", same as u64);
    let fourth = put_line(bytes, third, b"differ ", differ as u64);
    put_offsets(bytes, fourth, offsets)
}
