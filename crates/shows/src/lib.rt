// All that a table says, in words: it is judged once, and then its header and each record are printed, field by field.
#![tactic(auto)]

ghost use Rattle.std.specs.Prelude.{◌+◌, ◌^◌, ◌<◌};

mod nodes;
mod windows;

use frames::Refusal;
use header::TableHeader;
use read::{Node, Shown};
use std::io;

// All rows are known.
const EVERY: u32 = 0xffff_ffff;

// The line that names the table.
fn signature(rt: &impl Print, table: &[u8]) -> io::Result<()> {
    print!(rt; "table ")?;
    if let Some(t) = frames::signed(table) {
        rt.write_all(&t.signature())?;
    }
    println!(rt)
}

// A field of so many bytes of text.
fn text_line(rt: &impl Print, word: &str, s: &[u8], n: usize) -> io::Result<()> {
    print!(rt; "  {word} ")?;
    words::text(rt, s, n)?;
    println!(rt)
}

// The header, and the number of records.
fn head(rt: &impl Print, table: &[u8], count: usize) -> io::Result<()> {
    signature(rt, table)?;
    words::line(rt, b"revision", TableHeader::revision_in(table) as u64)?;
    words::line(rt, b"length", TableHeader::length_in(table) as u64)?;
    words::hex_line(rt, b"checksum", field::get::<u8>(table, 9) as u64)?;
    text_line(rt, "OEM ID", field::rest(table, 10), 6)?;
    text_line(rt, "OEM table ID", field::rest(table, 16), 8)?;
    words::hex_line(rt, b"OEM revision", field::get::<u32>(table, 24) as u64)?;
    text_line(rt, "creator ID", field::rest(table, 28), 4)?;
    words::hex_line(rt, b"creator revision", field::get::<u32>(table, 32) as u64)?;
    words::line(rt, b"records", count as u64)
}

// A record of no known row: its bytes.
fn unknown(rt: &impl Print, part: &[u8]) -> io::Result<()> {
    println!(rt; "unknown")?;
    words::bytes(rt, part)
}

// The name of the row of the record at a place, and its fields; of an unknown one its bytes.
fn fields(
    rt: &impl Print,
    table: &[u8],
    place: usize,
    node: Option<Node>,
    all: bool,
) -> io::Result<()> {
    let Some(node) = node else {
        return unknown(rt, read::part_at(table, EVERY, place));
    };
    match node {
        Node::Processor(n) => nodes::processor(rt, table, place, n),
        Node::Cache(n) => nodes::cache(rt, table, n),
        Node::Memory(n) => domains::memory(rt, n),
        Node::Initiator(n) => domains::initiator(rt, n),
        Node::OldRintc(n) => domains::old_rintc(rt, n),
        Node::Domain(n) => domains::domain(rt, n),
        Node::Matrix(n) => domains::matrix(rt, table, place, n, all),
        Node::Side(n) => domains::side(rt, table, place, n),
        Node::Bridge(n) => windows::bridge(rt, n),
        Node::Window(n) => windows::window(rt, table, place, n),
        Node::Xor(n) => windows::maths(rt, table, place, n),
        Node::Rintc(n) => domains::rintc(rt, n),
    }
}

// Record i: its number, place, type, length and row, then its fields. What a recipe would count as a node has its number as such.
fn record(rt: &impl Print, table: &[u8], i: u64, s: Shown, all: bool) -> io::Result<()>
    requires { i + 1 < 2 ^ 64 }
{
    let node = s.node;
    print!(rt; "record {i}")?;
    if matches!(node, Some(Node::Processor(_) | Node::Cache(_))) {
        print!(rt; " (node {})", i + 1)?;
    }
    print!(rt; " at {}: type {}, length {}, ", s.place, s.ty, s.length)?;
    fields(rt, table, s.place, node, all)
}

// The records of an accepted table, of which there are so many.
fn records(rt: &impl Print, table: &[u8], count: usize, all: bool) -> io::Result<()> {
    let mut place = read::first_place(table);
    for i in 0..count {
        let s = read::record_at(table, EVERY, place);
        record(rt, table, i as u64, s, all)?;
        place = place.saturating_add(s.length);
    }
    Ok(())
}

// The name of a refusal.
fn name(r: Refusal) -> &'static str {
    match r {
        Refusal::Short => "SHORT",
        Refusal::BadSign => "BAD SIGN",
        Refusal::BadLength => "BAD LENGTH",
        Refusal::BadSum => "BAD SUM",
        Refusal::BadFront => "BAD FRONT",
        Refusal::BadFrame(_) => "BAD FRAME",
        Refusal::BadRecord(_) => "BAD RECORD",
        Refusal::BadRef(_) => "BAD REF",
        Refusal::NoRecord(_) => "NO RECORD",
    }
}

// The header and each record of a table; or the refusal. Of the initiators and targets of a matrix, where there are more than 64, the first
// and the last eight, or all where they are asked for.
pub fn show(rt: &impl Print, table: &[u8], all: bool) -> io::Result<()> {
    match read::accept(table, EVERY) {
        Ok(count) => {
            head(rt, table, count)?;
            records(rt, table, count, all)
        }
        Err(r) => println!(rt; "refused {} {} {}", r.number(), name(r), r.place()),
    }
}
