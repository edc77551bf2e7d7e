// What is printed of the sum of some bytes, a table's or any others: the sum, what is left of it modulo 256, and whether the checksum is right.
#![tactic(auto)]

ghost use Rattle.std.specs.Prelude.{◌≡◌};
ghost use Rattle.text.specs.Text.{laid, with};
ghost use Rattle.sums.specs.Lines.{entire, verdict, behind_line, checked, lines_of};

use header::TableHeader;
use text::Text;

// Whether there is a table with all of its bytes: at least a header, and as many as its length says.
fn entire(bytes: &[u8]) -> bool
    ensures { result ≡ entire bytes.now }
{
    let n = TableHeader::length_in(bytes) as usize;
    if n < TableHeader::LEN {
        return false;
    }
    n <= bytes.len()
}

fn verdict(right: bool, text: &mut Text)
    ensures { text.new ≡ with text.old (verdict right) }
{
    if right {
        return text.bytes(b"checksum right\n");
    }
    text.bytes(b"checksum wrong\n");
}

// What stands behind the table, if anything does: the sum has it, and the checksum does not cover it.
#[tactic(auto, using(text::proofs::Texts::with_with), unfolding(crate::specs::Lines::behind_line))]
fn behind_line(rest: &[u8], text: &mut Text)
    ensures { text.new ≡ with text.old (behind_line rest.now) }
{
    if rest.is_empty() {
        return;
    }
    text.bytes(b"bytes behind the table");
    text.spaced(rest.len() as u64);
    text.byte(b'\n');
}

// The lines about the checksum.
#[tactic(auto, using(text::proofs::Texts::with_with), unfolding(crate::specs::Lines::checked))]
fn checked(bytes: &[u8], text: &mut Text)
    ensures { text.new ≡ with text.old (checked bytes.now) }
{
    if !entire(bytes) {
        return text.bytes(b"no whole table\n");
    }
    verdict(frames::right(bytes), text);
    let len = TableHeader::length_in(bytes) as usize;
    behind_line(field::rest(bytes, len), text);
}

// All lines, at the front of out. How far they reach.
pub fn lines(bytes: &[u8], out: &mut [u8]) -> usize
    ensures { (result, out.new) ≡ laid out.old 0 (lines_of bytes.now) }
{
    let sum = field::u8sum(bytes);
    let mut text = Text::new(out);
    text.summed(sum);
    text.bytes(b"\nremainder");
    text.spaced(sum.low as u64);
    text.byte(b'\n');
    checked(bytes, &mut text);
    text.len()
}
