// The answer to a line of text: the calls for a partner that speaks docs/CALLS.md.
#![tactic(auto)]

ghost use Rattle.std.specs.Prelude.{◌≡◌, length, replicate};
ghost use Rattle.format.specs.Read as format;
ghost use Rattle.text.specs.Text.{laid, listed, with};
ghost use Rattle.read.specs.Answers.{row_in, fields_in, shown_as};
ghost use Rattle.talk.specs.Hex.{all_are};
ghost use Rattle.answers.specs.Lines.{too_long, bad, kept_if, refusal, fill, success, carried_out, content, ending, found, seen, total, writing, asking, adding, answer_to};

use read::{Node, Reading};
use talk::{Call, DataError};
use text::Text;

// What the lent bytes hold before a call.
const FILL: u8 = 0xa5;

// ---- the lines

// Also of a line for which there is no room.
pub fn too_long(text: &mut [u8]) -> usize
    ensures { (result, text.new) ≡ laid text.old 0 too_long }
{
    let mut line = Text::new(text);
    line.bytes(b"too long\n");
    line.len()
}

// Of words that cannot be read.
fn bad(e: DataError, text: &mut Text)
    ensures { text.new ≡ with text.old (bad e) }
{
    match e {
        DataError::TooLong => text.bytes(b"too long\n"),
        DataError::Other => text.bytes(b"what?\n"),
    }
}

fn last_word(kept: bool, text: &mut Text)
    ensures { text.new ≡ with text.old (kept_if kept) }
{
    if kept {
        return text.bytes(b" kept\n");
    }
    text.bytes(b" changed\n");
}

// Every byte of what was lent has to be as before.
#[tactic(auto, using(text::proofs::Texts::with_with), unfolding(crate::specs::Lines::refusal))]
fn refused(number: u64, place: usize, out: &[u8], text: &mut Text)
    ensures { text.new ≡ with text.old (refusal number place (all_are fill out.now)) }
{
    let kept = talk::all_are(out, FILL);
    text.refused(number, place as u64);
    last_word(kept, text);
}

// ---- building and reading out

// Every byte behind those written has to be as before.
fn succeeded(len: usize, out: &[u8], text: &mut Text)
    ensures { text.new ≡ with text.old (success len out.now) }
{
    let kept = talk::all_are(field::rest(out, len), FILL);
    text.bytes(b"ok");
    text.spaced(len as u64);
    text.byte(b' ');
    text.hex(frames::first(out, len));
    last_word(kept, text);
}

// The calls that write into a lent buffer.
#[derive(Clone, Copy)]
enum Writes {
    Build,
    Out,
}

// The call on a buffer that is lent.
fn carry_out(call: Writes, bytes: &[u8], out: &mut [u8], text: &mut Text)
    ensures { text.new ≡ with text.old (carried_out call bytes.now (replicate (length out.old) fill)) }
{
    let len = out.len();
    field::fill(out, 0, len, FILL);
    match call {
        Writes::Build => match build::build(bytes, out) {
            Ok(n) => succeeded(n, out, text),
            Err(e) => refused(e.number() as u64, e.place(), out, text),
        },
        Writes::Out => match readout::read_out(bytes, out) {
            Ok(n) => succeeded(n, out, text),
            Err(e) => refused(e.number() as u64, e.place(), out, text),
        },
    }
}

// The words behind 'build' or 'out': room and bytes. Lent are the first bytes of a buffer, or all that there are.
fn write(call: Writes, words: &[u8], given: &mut [u8], lent: &mut [u8], text: &mut Text)
    ensures { text.new ≡ with text.old (writing (length given.old) (length lent.old) call words.now) }
{
    let Some(room) = talk::decimal(talk::word(words), u64::MAX) else {
        return bad(DataError::Other, text);
    };
    let digits = talk::behind(words);
    match talk::count(digits, given.len()) {
        Ok(k) => {
            talk::unhex(digits, given);
            let len = lent.len().min(room as usize);
            carry_out(call, frames::first(given, k), &mut lent[..len], text);
        }
        Err(e) => bad(e, text),
    }
}

// ---- reading

fn values(node: Option<Node>, text: &mut Text)
    ensures { text.new ≡ with text.old (listed (fields_in node)) }
{
    let k = numbers::fields_count(node);
    let mut vs = [0u64; 8];
    numbers::put_fields(node, &mut vs, 0);
    text.list(&vs[..k]);
}

// A record's row and values.
fn describe(node: Option<Node>, text: &mut Text)
    ensures { text.new ≡ with text.old (content (row_in node) (fields_in node)) }
{
    if node.is_none() {
        return text.bytes(b"- -");
    }
    text.decimal(numbers::row_number(node));
    text.byte(b' ');
    values(node, text);
}

// The same and the record's part.
#[tactic(auto, using(text::proofs::Texts::with_with), unfolding(crate::specs::Lines::ending))]
fn finish(node: Option<Node>, part: &[u8], text: &mut Text)
    ensures { text.new ≡ with text.old (ending (row_in node) (fields_in node) part.now) }
{
    text.byte(b' ');
    describe(node, text);
    text.byte(b' ');
    text.hex(part);
    text.byte(b'\n');
}

#[tactic(auto, using(text::proofs::Texts::with_with), unfolding(crate::specs::Lines::found))]
fn show(reading: Reading, part: &[u8], text: &mut Text)
    ensures { text.new ≡ with text.old (found (shown_as reading.count reading.«record») part.now) }
{
    let s = reading.record;
    let node = s.node;
    text.bytes(b"record");
    text.spaced(reading.count as u64);
    text.spaced(s.ty as u64);
    text.spaced(s.place as u64);
    text.spaced(s.length as u64);
    finish(node, part, text);
}

// A table's record number k, by the rows that the mask has.
fn look(table: &[u8], mask: u32, k: usize, text: &mut Text)
    ensures { text.new ≡ with text.old (seen (format.read table.now mask k) (format.read_part table.now mask k)) }
{
    match read::read(table, mask, k) {
        Ok(reading) => {
            let part = read::part_at(table, mask, reading.record.place);
            show(reading, part, text);
        }
        Err(r) => refused(r.number() as u64, r.place(), b"", text),
    }
}

// The words behind 'read': mask, record number and bytes.
fn ask(words: &[u8], given: &mut [u8], text: &mut Text)
    ensures { text.new ≡ with text.old (asking (length given.old) words.now) }
{
    let Some(mask) = talk::decimal(talk::word(words), u32::MAX as u64) else {
        return bad(DataError::Other, text);
    };
    let rest = talk::behind(words);
    let Some(k) = talk::decimal(talk::word(rest), u64::MAX) else {
        return bad(DataError::Other, text);
    };
    let digits = talk::behind(rest);
    match talk::count(digits, given.len()) {
        Ok(len) => {
            talk::unhex(digits, given);
            look(frames::first(given, len), mask as u32, k as usize, text);
        }
        Err(e) => bad(e, text),
    }
}

// ---- adding up

// The sum of some bytes.
fn total(bytes: &[u8], text: &mut Text)
    ensures { text.new ≡ with text.old (total bytes.now) }
{
    text.summed(field::u8sum(bytes));
    text.byte(b'\n');
}

// The word behind 'sum': bytes.
fn add_up(digits: &[u8], given: &mut [u8], text: &mut Text)
    ensures { text.new ≡ with text.old (adding (length given.old) digits.now) }
{
    match talk::count(digits, given.len()) {
        Ok(len) => {
            talk::unhex(digits, given);
            total(frames::first(given, len), text);
        }
        Err(e) => bad(e, text),
    }
}

// ---- a line

// By the call that a line's first word names.
fn called(line: &[u8], given: &mut [u8], lent: &mut [u8], text: &mut Text)
    ensures { text.new ≡ with text.old (answer_to (length given.old) (length lent.old) line.now) }
{
    let words = talk::behind(line);
    match talk::named(talk::word(line)) {
        Some(Call::Build) => write(Writes::Build, words, given, lent, text),
        Some(Call::Out) => write(Writes::Out, words, given, lent, text),
        Some(Call::Read) => ask(words, given, text),
        Some(Call::Sum) => add_up(words, given, text),
        None => bad(DataError::Other, text),
    }
}

// The answer to a line, at the beginning of a text. Lent are room for the bytes that it has, and for what a call writes.
pub fn answer(line: &[u8], given: &mut [u8], lent: &mut [u8], text: &mut [u8]) -> usize
    ensures { (result, text.new) ≡ laid text.old 0 (answer_to (length given.old) (length lent.old) line.now) }
{
    let mut lines = Text::new(text);
    called(line, given, lent, &mut lines);
    lines.len()
}
