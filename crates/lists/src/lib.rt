// The lines of a table: it is judged once, and then its records are shown one after the other.
#![tactic(auto)]

ghost use Rattle.std.specs.Prelude.{◌≡◌};
ghost use Rattle.format.specs.Read.{accept};
ghost use Rattle.format.specs.Out.{every};
ghost use Rattle.format.specs.Listing.{whether, first_line, record_line, record_lines, lines_of};
ghost use Rattle.read.specs.Places.{first_place, seen_from};
ghost use Rattle.read.specs.Answers.{row_in};
ghost use Rattle.text.specs.Text.{laid, with};

use header::TableHeader;
use read::{Node, Shown};
use text::Text;

// All rows are known.
const EVERY: u32 = 0xffff_ffff;

// The end of a record's line: whether its row is known.
fn whether(node: Option<Node>, text: &mut Text)
    ensures { text.new ≡ with text.old (whether (row_in node)) }
{
    match node {
        Some(_) => text.bytes(b" known\n"),
        None => text.bytes(b" unknown\n"),
    }
}

// A record's line: place, type and length, and whether the row is known.
#[tactic(auto, using(text::proofs::Texts::with_with), unfolding(format::specs::Listing::record_line))]
fn record_line(s: Shown, text: &mut Text)
    ensures { text.new ≡ with text.old (record_line s.place s.ty s.length (row_in s.node)) }
{
    text.decimal(s.place as u64);
    text.spaced(s.ty as u64);
    text.spaced(s.length as u64);
    let node = s.node;
    whether(node, text);
}

// The lines of count records, from the first one on.
fn record_lines(table: &[u8], count: usize, text: &mut Text)
    ensures { text.new ≡ with text.old (record_lines (seen_from table.now every count (first_place table.now))) }
{
    let mut place = read::first_place(table);
    for _ in 0..count {
        let s = read::record_at(table, EVERY, place);
        record_line(s, text);
        place += s.length;
    }
}

// The first line of a table: signature, revision, length and number of records.
fn first_line(table: &[u8], count: usize, text: &mut Text)
    ensures { text.new ≡ with text.old (first_line table.now count) }
{
    text.bytes(frames::first(table, 4));
    text.spaced(TableHeader::revision_in(table) as u64);
    text.spaced(TableHeader::length_in(table) as u64);
    text.spaced(count as u64);
    text.byte(b'\n');
}

// The lines of a table: the first one and one for each record, or the refusal.
fn listing(table: &[u8], text: &mut Text)
    ensures { text.new ≡ with text.old (lines_of table.now (accept table.now every)) }
{
    match read::accept(table, EVERY) {
        Ok(count) => {
            first_line(table, count, text);
            record_lines(table, count, text);
        }
        Err(r) => {
            text.refused(r.number() as u64, r.place() as u64);
            text.byte(b'\n');
        }
    }
}

// The same, at the front of out. How far they reach.
pub fn lines(table: &[u8], out: &mut [u8]) -> usize
    ensures { (result, out.new) ≡ laid out.old 0 (lines_of table.now (accept table.now every)) }
{
    let mut text = Text::new(out);
    listing(table, &mut text);
    text.len()
}
