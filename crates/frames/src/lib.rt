// The header of a table, the frames of its records, and the references between them.
// Any bytes are allowed: what is read past their end counts as 0.
#![tactic(auto)]

ghost use Rattle.std.specs.Prelude.{◌≡◌, ◌+◌, ◌≤◌, length, take, drop};
ghost use Rattle.format.specs.Bytes.{value, part, given, unless};
ghost use Rattle.format.specs.Layout.{fixed_ok};
ghost use Rattle.format.specs.Table.{tail, least};
ghost use Rattle.format.specs.Read.{signed, own, right, head_fault, judge_head, type_in, size_in, framed};
ghost use Rattle.header.specs.Header.{meant};
ghost use Rattle.field.specs.Place.{place_or_none};
ghost use Rattle.frames.specs.Refusals.{refusal_number, refusal_place, spelled_as, judged_as};
ghost use Rattle.frames.specs.Frames.{ahead, number_from, named, record_in};

use header::{Table, TableHeader};
use marks::Mark;

// What a reading call refuses, in the order of the tests.
#[derive(Clone, Copy, Debug, PartialEq, Eq)]
pub enum Refusal {
    // Under 36 bytes are lent.
    Short,
    BadSign,
    BadLength,
    BadSum,
    BadFront,
    // These have the place of a record.
    BadFrame(usize),
    BadRecord(usize),
    BadRef(usize),
    // This has the number of records.
    NoRecord(usize),
}

impl Refusal {
    pub fn number(self) -> u32
        ensures { result ≡ refusal_number self }
    {
        match self {
            Refusal::Short => 20,
            Refusal::BadSign => 21,
            Refusal::BadLength => 22,
            Refusal::BadSum => 23,
            Refusal::BadFront => 24,
            Refusal::BadFrame(_) => 25,
            Refusal::BadRecord(_) => 26,
            Refusal::BadRef(_) => 27,
            Refusal::NoRecord(_) => 28,
        }
    }

    pub fn place(self) -> usize
        ensures { result ≡ refusal_place self }
    {
        match self {
            Refusal::BadFrame(at)
            | Refusal::BadRecord(at)
            | Refusal::BadRef(at)
            | Refusal::NoRecord(at) => at,
            _ => 0,
        }
    }
}

// ---- bytes

// The first n bytes, or as many as there are.
pub fn first(s: &[u8], n: usize) -> &[u8]
    ensures { result.now ≡ take n s.now }
{
    &s[..n.min(s.len())]
}

// ---- the header

// The table that the first four bytes spell.
pub fn signed(table: &[u8]) -> Option<Table>
    ensures { spelled_as result ≡ signed table.now }
{
    if table.starts_with(b"PPTT") {
        Some(Table::Pptt)
    } else if table.starts_with(b"SRAT") {
        Some(Table::Srat)
    } else if table.starts_with(b"HMAT") {
        Some(Table::Hmat)
    } else if table.starts_with(b"CEDT") {
        Some(Table::Cedt)
    } else {
        None
    }
}

// The table's own bytes: those that its length covers.
pub fn own(table: &[u8]) -> &[u8]
    ensures { result.now ≡ own table.now }
{
    first(table, TableHeader::length_in(table) as usize)
}

// Whether the checksum is right: the table's own bytes add up to 0 modulo 256.
pub fn right(table: &[u8]) -> bool
    ensures { result ≡ right table.now }
{
    field::u8sum(own(table)).low == 0
}

// Whether the bytes after the header are those of the table's front.
fn tail_stands(t: Table, table: &[u8]) -> bool
    ensures { result ≡ fixed_ok (tail (meant t)) (drop 36 table.now) }
{
    match t {
        Table::Pptt => true,
        Table::Srat => field::get::<u32>(table, 36) == 1 && field::get::<u64>(table, 40) == 0,
        Table::Hmat => field::get::<u32>(table, 36) == 0,
        Table::Cedt => true,
    }
}

// The header of a table that is signed as t.
fn judge_as(t: Table, table: &[u8]) -> Result<Table, Refusal>
    ensures { judged_as result ≡ unless (head_fault (meant t) table.now) 0 (given (meant t)) }
{
    let n = TableHeader::length_in(table) as usize;
    if n < t.front() || table.len() < n || header::LIMIT < n {
        return Err(Refusal::BadLength);
    }
    if !right(table) {
        return Err(Refusal::BadSum);
    }
    if !tail_stands(t, table) {
        return Err(Refusal::BadFront);
    }
    Ok(t)
}

// Which table it is, or what is wrong with its header.
pub fn judge_head(table: &[u8]) -> Result<Table, Refusal>
    ensures { judged_as result ≡ judge_head table.now }
{
    if table.len() < TableHeader::LEN {
        return Err(Refusal::Short);
    }
    let t = signed(table).ok_or(Refusal::BadSign)?;
    judge_as(t, table)
}

// ---- frames: s is what stands from a record's place on

// The length of a frame, the shortest record.
fn least(t: Table) -> usize
    ensures { result ≡ least (meant t) }
{
    match t {
        Table::Pptt => 2,
        Table::Srat => 2,
        Table::Hmat => 8,
        Table::Cedt => 4,
    }
}

// The type in a frame of PPTT, SRAT or CEDT, and in one of HMAT.
pub fn short_type(s: &[u8]) -> u8
    ensures { result ≡ value (part s.now 0 1) }
{
    field::get::<u8>(s, 0)
}

pub fn long_type(s: &[u8]) -> u16
    ensures { result ≡ value (part s.now 0 2) }
{
    field::get::<u16>(s, 0)
}

// The type in a frame.
pub fn type_in(t: Table, s: &[u8]) -> u16
    ensures { result ≡ type_in (meant t) s.now }
{
    match t {
        Table::Pptt => short_type(s) as u16,
        Table::Srat => short_type(s) as u16,
        Table::Hmat => long_type(s),
        Table::Cedt => short_type(s) as u16,
    }
}

// The length in a frame.
fn size_in(t: Table, s: &[u8]) -> usize
    ensures { result ≡ size_in (meant t) s.now }
{
    match t {
        Table::Pptt => field::get::<u8>(s, 1) as usize,
        Table::Srat => field::get::<u8>(s, 1) as usize,
        Table::Hmat => field::get::<u32>(s, 4) as usize,
        Table::Cedt => field::get::<u16>(s, 2) as usize,
    }
}

// Whether a frame stands there: its length is neither below the least nor past the end.
pub fn framed(t: Table, s: &[u8]) -> bool
    ensures { result ≡ framed (meant t) s.now }
{
    let n = size_in(t, s);
    least(t) <= n && n <= s.len()
}

// The bytes of the record.
pub fn record_in(t: Table, s: &[u8]) -> &[u8]
    ensures { result.now ≡ record_in (meant t) s.now }
{
    first(s, size_in(t, s))
}

// ---- references

// The length in the frame at a place that has room for one.
fn size_at(t: Table, c: &[u8], p: usize) -> u32
    requires { p + least (meant t) ≤ length c.now }
    ensures { result ≡ size_in (meant t) (drop p c.now) }
{
    match t {
        Table::Pptt => c[p + 1] as u32,
        Table::Srat => c[p + 1] as u32,
        Table::Hmat => field::get::<u32>(c, p + 4),
        Table::Cedt => field::get::<u16>(c, p + 2) as u32,
    }
}

// The number of the record at v on the walk from a mark on, which counts those before it, if the walk comes to one there.
// A length past the end is found where the walk would go on: only what is too short is tested on the way.
pub fn number(t: Table, c: &[u8], from: Mark, v: usize) -> Option<usize>
    ensures { result ≡ place_or_none (number_from (meant t) c.now v from) }
{
    if !framed(t, field::rest(c, v)) {
        return None;
    }
    let min = least(t);
    let mut p = from.place as usize;
    let mut k = from.nodes as usize + 1;
    while p < v {
        let n = size_at(t, c, p) as usize;
        if n < min {
            return None;
        }
        p += n;
        k += 1;
    }
    if v < p {
        return None;
    }
    Some(k)
}

// Whether the walk from a mark on comes to v, and to a record of type ty.
pub fn starts(t: Table, c: &[u8], from: Mark, v: usize, ty: u16) -> bool
    ensures { result ≡ named (meant t) (ahead (meant t) c.now from.place) v ty }
{
    number(t, c, from, v).is_some() && type_in(t, field::rest(c, v)) == ty
}
