// The reader: whether a table is accepted, what its records are, and their parts of the lent bytes.
#![tactic(auto)]

ghost use Rattle.std.specs.Prelude.{◌≡◌, [], ℕ, ◌/◌, ◌≤◌, length};
ghost use Rattle.std.proofs.Math.Option.{some};
ghost use Rattle.format.specs.Layout.{is_good, or_none};
ghost use Rattle.format.specs.Table.{pptt, limit};
ghost use Rattle.format.specs.Row.{processors};
ghost use Rattle.format.specs.Read.{seen_as, walk, fields_of, reading_of};
ghost use Rattle.format.specs.Read as format;
ghost use Rattle.header.specs.Header.{meant};
ghost use Rattle.pptt.specs.Processor.{processor_shown};
ghost use Rattle.rows.specs.Rows.{meant_row, row_meant};
ghost use Rattle.marks.specs.Marks.{Every};
ghost use Rattle.frames.specs.Frames.{frames_of, Passed, refers};
ghost use Rattle.read.specs.Places.{RowOf, longest_processor, Fits, linked, refs_in, judged_at, counted, body_at, seen_at, part_at, first_place, behind};
ghost use Rattle.read.specs.Answers.{node_row, node_fields, row_in, fields_in, shown_as, accepted_as, shown};

use cedt::{CxlFixedMemory, CxlHostBridge, XorInterleaveMath};
use frames::Refusal;
use header::{Table, TableHeader};
use hmat::{MemoryProximityDomain, MemorySideCache, SystemLocality};
use marks::{FEW, LONG, MANY, MOST, Mark, Marks};
use pptt::{CacheNode, ProcessorNode, Resource};
use rows::Row;
use srat::{GenericInitiator, MemoryAffinity, OldRintcAffinity, RintcAffinity};

// ---- the judgement

// The records before the one at own, in a PPTT's own bytes c: the walk has come to each that is marked. Only a PPTT has references: it is the table here.
#[derive(Clone, Copy)]
struct Before<'a, const N: usize> {
    c: &'a [u8],
    marks: &'a Marks<N>,
    own: usize,
    ghost few: { N ≤ 65536 },
    ghost passed: { Every (Passed pptt c.now) marks.now.slots },
}

impl<'a, const N: usize> Before<'a, N> {
    // Whether v is the start of one of type ty: being below own is not enough.
    fn refers(&self, v: u32, ty: u8) -> bool
        ensures { result ≡ refers pptt self.now.c.now self.now.own v ty }
    {
        let v = v as usize;
        v < self.own
            && frames::starts(
                Table::Pptt,
                self.c,
                self.marks.toward_place(Mark::first(), v),
                v,
                ty as u16,
            )
    }

    // Whether v is none, or such a start.
    fn refers_or_none(&self, v: u32, ty: u8) -> bool
        ensures { result ≡ is_good (refers pptt self.now.c.now self.now.own) (or_none ty) v }
    {
        v == 0 || self.refers(v, ty)
    }

    // Whether each of the resources is a cache.
    fn links(&self, resources: &[u8]) -> bool
        ensures { result ≡ linked (refers pptt self.now.c.now self.now.own) (length resources.now / 4) resources.now }
    {
        for i in 0..resources.len() / Resource::LEN {
            if !self.refers(
                field::get::<u32>(resources, Resource::LEN * i),
                CacheNode::TYPE,
            ) {
                return false;
            }
        }
        true
    }

    // Whether the references of a record are good: a processor's parent and resources, a cache's next level.
    fn refs_good(&self, row: Option<Row>, body: &[u8]) -> bool
        ensures { result ≡ refs_in (refers pptt self.now.c.now self.now.own) (row_meant row) body.now }
    {
        let Some(row) = row else {
            return true;
        };
        match row {
            Row::Processors => {
                self.refers_or_none(ProcessorNode::parent_of(body).0, ProcessorNode::TYPE)
                    && self.links(field::rest(body, ProcessorNode::LEN))
            }
            Row::Caches => self.refers_or_none(CacheNode::next_level_of(body).0, CacheNode::TYPE),
            _ => true,
        }
    }
}

// What is judged: a table's own bytes c, its revision, and the mask of a reader.
#[derive(Clone, Copy)]
struct Pass<'a> {
    t: Table,
    c: &'a [u8],
    revision: u8,
    mask: u32,
    ghost short: { length c.now ≤ limit },
}

impl<'a> Pass<'a> {
    // Whether the references of the record at own are good: no row of another table than a PPTT has any.
    fn refs_stand<const N: usize>(
        &self,
        marks: &Marks<N>,
        own: usize,
        row: Option<Row>,
        body: &[u8],
    ) -> bool
        requires few { N ≤ 65536 }
        requires passed { Every (Passed (meant self.now.t) self.now.c.now) marks.now.slots }
        requires of_table { RowOf (meant self.now.t) (row_meant row) }
        ensures { result ≡ refs_in (refers (meant self.now.t) self.now.c.now own) (row_meant row) body.now }
    {
        match self.t {
            Table::Pptt => {
                let earlier = Before {
                    c: self.c,
                    marks,
                    own,
                };
                earlier.refs_good(row, body)
            }
            _ => true,
        }
    }

    // The judgement of the record at a place: where the next one starts, or what is refused.
    fn judge<const N: usize>(&self, marks: &Marks<N>, p: usize) -> Result<usize, Refusal>
        requires few { N ≤ 65536 }
        requires passed { Every (Passed (meant self.now.t) self.now.c.now) marks.now.slots }
        ensures { accepted_as result ≡ judged_at (meant self.now.t) self.now.c.now self.now.revision self.now.mask p }
    {
        let s = field::rest(self.c, p);
        if !frames::framed(self.t, s) {
            return Err(Refusal::BadFrame(p));
        }
        let body = frames::record_in(self.t, s);
        let row = rows::known(rows::row_of(self.t, self.revision, body), self.mask);
        if !rows::sound(row, body) {
            return Err(Refusal::BadRecord(p));
        }
        if !self.refs_stand(marks, p, row, body) {
            return Err(Refusal::BadRef(p));
        }
        Ok(p + body.len())
    }

    // All records, one after the other, each marked before it is judged.
    fn judge_all<const N: usize>(&self, marks: &mut Marks<N>) -> Result<usize, Refusal>
        requires few { N ≤ 65536 }
        requires passed { Every (Passed (meant self.now.t) self.now.c.now) marks.old.slots }
        ensures { accepted_as result ≡ counted (walk (meant self.now.t) self.now.revision self.now.mask [] (frames_of (meant self.now.t) self.now.c.now)) }
    {
        let mut p = self.t.front();
        let mut count = 0;
        while p < self.c.len() {
            let here = Mark {
                nodes: count as u32,
                place: p as u32,
            };
            marks.note(here, p);
            p = self.judge(marks, p)?;
            count += 1;
        }
        Ok(count)
    }

    // The same, with room for N marks.
    fn scan_with<const N: usize>(&self) -> Result<usize, Refusal>
        requires few { N ≤ 65536 }
        ensures { accepted_as result ≡ counted (walk (meant self.now.t) self.now.revision self.now.mask [] (frames_of (meant self.now.t) self.now.c.now)) }
    {
        let mut marks = Marks::<N>::none(self.c.len());
        self.judge_all(&mut marks)
    }

    // The same, with room for the most marks. LLVM does not inline a function that calls itself, so that no other table pays for that room;
    // again is 0, since no slice has usize::MAX bytes, but LLVM does not know it.
    fn scan_long(&self, again: usize) -> Result<usize, Refusal>
        ensures { accepted_as result ≡ counted (walk (meant self.now.t) self.now.revision self.now.mask [] (frames_of (meant self.now.t) self.now.c.now)) }
    {
        if 0 < again {
            return self.scan_long(again - 1);
        }
        let mut marks = Marks::<MOST>::none(self.c.len());
        self.judge_all(&mut marks)
    }

    // The same, with room for marks where there are references: in a PPTT, for more the longer it is. again is for scan_long.
    fn scan(&self, again: usize) -> Result<usize, Refusal>
        ensures { accepted_as result ≡ counted (walk (meant self.now.t) self.now.revision self.now.mask [] (frames_of (meant self.now.t) self.now.c.now)) }
    {
        match self.t {
            Table::Pptt if self.c.len() < ProcessorNode::LEN * FEW => self.scan_with::<FEW>(),
            Table::Pptt if self.c.len() <= LONG => self.scan_with::<MANY>(),
            Table::Pptt => self.scan_long(again),
            _ => self.scan_with::<1>(),
        }
    }
}

// Judges a table by the rows that the mask has: how many records it has, or what is refused first.
pub fn accept(table: &[u8], mask: u32) -> Result<usize, Refusal>
    ensures { accepted_as result ≡ counted (format.accept table.now mask) }
{
    let t = frames::judge_head(table)?;
    let pass = Pass {
        t,
        c: frames::own(table),
        revision: TableHeader::revision_in(table),
        mask,
    };
    pass.scan(table.len() / usize::MAX)
}

// ---- one record after the other: of an accepted table these are its records, of other bytes what a table would have there

// What a record says, as the node of its row.
#[derive(Clone, Copy)]
pub enum Node {
    Processor(ProcessorNode),
    Cache(CacheNode),
    Memory(MemoryAffinity),
    Initiator(GenericInitiator),
    OldRintc(OldRintcAffinity),
    Domain(MemoryProximityDomain),
    Matrix(SystemLocality),
    Side(MemorySideCache),
    Bridge(CxlHostBridge),
    Window(CxlFixedMemory),
    Xor(XorInterleaveMath),
    Rintc(RintcAffinity),
}

// A record: its type, place and length, and its row and fields as a node, if its row is known.
#[derive(Clone, Copy)]
pub struct Shown {
    pub ty: u16,
    pub place: usize,
    pub length: usize,
    pub node: Option<Node>,
}

// Where the first record starts.
pub fn first_place(table: &[u8]) -> usize
    ensures { result ≡ first_place table.now }
{
    match frames::signed(table) {
        Some(t) => t.front(),
        None => 0,
    }
}

// The bytes of the record at a place. The next record starts behind them.
fn body_at(table: &[u8], place: usize) -> &[u8]
    ensures { result.now ≡ body_at table.now place }
{
    match frames::signed(table) {
        Some(t) => frames::record_in(t, field::rest(frames::own(table), place)),
        None => &table[..0],
    }
}

// The place of record number n.
fn place_of(table: &[u8], n: usize) -> usize
    ensures { result ≡ behind table.now n (first_place table.now) }
{
    let mut p = first_place(table);
    for _ in 0..n {
        p += body_at(table, p).len();
    }
    p
}

// A processor has as many resources as its record has room for: what it says of their number is tested elsewhere.
fn processor_in(body: &[u8]) -> ProcessorNode
    requires { length body.now ≤ longest_processor }
    ensures { processor_shown result ≡ fields_of (some processors) body.now }
{
    let mut n = ProcessorNode::get(body, 0);
    n.resources = ProcessorNode::resources_in(body.len()) as u32;
    n
}

// What a record of a row says.
fn node_in(row: Row, body: &[u8]) -> Node
    requires { Fits (some (meant_row row)) body.now }
    ensures { (node_row result ≡ meant_row row) × (node_fields result ≡ fields_of (some (meant_row row)) body.now) }
{
    match row {
        Row::Processors => Node::Processor(processor_in(body)),
        Row::Caches => Node::Cache(CacheNode::get(body, 0)),
        Row::Memories => Node::Memory(MemoryAffinity::get(body, 0)),
        Row::Initiators => Node::Initiator(GenericInitiator::get(body, 0)),
        Row::OldRintcs => Node::OldRintc(OldRintcAffinity::get(body, 0)),
        Row::Domains => Node::Domain(MemoryProximityDomain::get(body, 0)),
        Row::Matrices(_) => Node::Matrix(SystemLocality::get(body, 0)),
        Row::Sides => Node::Side(MemorySideCache::get(body, 0)),
        Row::Bridges => Node::Bridge(CxlHostBridge::get(body, 0)),
        Row::Windows => Node::Window(CxlFixedMemory::get(body, 0)),
        Row::Xors => Node::Xor(XorInterleaveMath::get(body, 0)),
        Row::Rintcs => Node::Rintc(RintcAffinity::get(body, 0)),
    }
}

// The same of a row that may be unknown.
fn known_node(row: Option<Row>, body: &[u8]) -> Option<Node>
    requires { Fits (row_meant row) body.now }
    ensures { (row_in result ≡ row_meant row) × (fields_in result ≡ fields_of (row_meant row) body.now) }
{
    Some(node_in(row?, body))
}

fn show(t: Table, revision: u8, mask: u32, place: usize, body: &[u8]) -> Shown
    ensures { (count : ℕ) → shown_as count result ≡ reading_of count (seen_as (meant t) revision mask place body.now) }
{
    let row = rows::row_of(t, revision, body);
    Shown {
        ty: frames::type_in(t, body),
        place,
        length: body.len(),
        node: known_node(rows::known(row, mask), body),
    }
}

// The record at a place, by the rows that the mask has.
pub fn record_at(table: &[u8], mask: u32, place: usize) -> Shown
    ensures { (count : ℕ) → shown_as count result ≡ reading_of count (seen_at table.now mask place) }
{
    let body = body_at(table, place);
    match frames::signed(table) {
        Some(t) => show(t, TableHeader::revision_in(table), mask, place, body),
        None => Shown {
            ty: 0,
            place,
            length: body.len(),
            node: None,
        },
    }
}

// The list inside the record at a place, or the whole of it where it is unknown.
pub fn part_at(table: &[u8], mask: u32, place: usize) -> &[u8]
    ensures { result.now ≡ part_at table.now mask place }
{
    let body = body_at(table, place);
    match frames::signed(table) {
        Some(t) => {
            let row = rows::row_of(t, TableHeader::revision_in(table), body);
            rows::part(rows::known(row, mask), body)
        }
        None => body,
    }
}

// ---- the reading call

// How many records a table has, and the one that was asked for.
#[derive(Clone, Copy)]
pub struct Reading {
    pub count: usize,
    pub record: Shown,
}

// Record number n of a table, by the rows that the mask has.
pub fn read(table: &[u8], mask: u32, n: usize) -> Result<Reading, Refusal>
    ensures { shown result ≡ format.read table.now mask n }
{
    let count = accept(table, mask)?;
    if count <= n {
        return Err(Refusal::NoRecord(count));
    }
    let record = record_at(table, mask, place_of(table, n));
    Ok(Reading { count, record })
}

// The part of the table that comes back with record number n.
pub fn part<'a>(table: &'a [u8], mask: u32, n: usize) -> &'a [u8]
    ensures { result.now ≡ format.read_part table.now mask n }
{
    match accept(table, mask) {
        Ok(count) if n < count => part_at(table, mask, place_of(table, n)),
        _ => &table[..0],
    }
}
