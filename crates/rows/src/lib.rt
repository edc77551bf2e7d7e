// What a reader says of one record, by the record's bytes alone: its row, whether it is known, whether it is sound, and its list.
#![tactic(auto)]

ghost use Rattle.std.specs.Prelude.{◌≡◌};
ghost use Rattle.std.proofs.Math.Option.{none, some};
ghost use Rattle.format.specs.Bytes.{pick};
ghost use Rattle.format.specs.Table.{pptt, srat, hmat, cedt, revision};
ghost use Rattle.format.specs.Form.{byte, pair};
ghost use Rattle.format.specs.Row.{old_rintcs, rintcs, matrices, row_number, column, row_of, knows, known};
ghost use Rattle.format.specs.Read.{type_in, part_of};
ghost use Rattle.header.specs.Header.{meant};
ghost use Rattle.rows.specs.Rows.{meant_row, row_meant, sound_as};

use cedt::{CxlFixedMemory, CxlHostBridge, XorInterleaveMath};
use header::Table;
use hmat::{MemoryProximityDomain, MemorySideCache, SystemLocality, Width};
use pptt::{CacheNode, ProcessorNode};
use srat::{GenericInitiator, MemoryAffinity, OldRintcAffinity, RintcAffinity};

// The layout rows, in order.
#[derive(Clone, Copy)]
pub enum Row {
    Processors,
    Caches,
    Memories,
    Initiators,
    OldRintcs,
    Domains,
    // with counts that a recipe writes in this width
    Matrices(Width),
    Sides,
    Bridges,
    Windows,
    Xors,
    Rintcs,
}

impl Row {
    // The row's number, which is that of its bit in a reader's mask.
    fn number(self) -> u32
        ensures { result ≡ row_number (meant_row self) }
    {
        match self {
            Row::Processors => 0,
            Row::Caches => 1,
            Row::Memories => 2,
            Row::Initiators => 3,
            Row::OldRintcs => 4,
            Row::Domains => 5,
            Row::Matrices(Width::Byte) => 6,
            Row::Sides => 7,
            Row::Bridges => 8,
            Row::Windows => 9,
            Row::Xors => 10,
            Row::Rintcs => 11,
            Row::Matrices(Width::Pair) => 12,
        }
    }

    // Whether the mask has the row.
    fn in_mask(self, mask: u32) -> bool
        ensures { result ≡ knows mask (meant_row self) }
    {
        mask >> self.number() & 1 == 1
    }
}

// ---- which row

fn pptt_row(body: &[u8]) -> Option<Row>
    ensures { row_meant result ≡ row_of pptt (revision pptt) (type_in pptt body.now) body.now }
{
    match frames::short_type(body) {
        ProcessorNode::TYPE => ProcessorNode::fits(body).then_some(Row::Processors),
        CacheNode::TYPE => (body.len() == CacheNode::LEN).then_some(Row::Caches),
        _ => None,
    }
}

// Two rows have one type: the length tells them apart.
#[tactic(auto, unfolding(format::specs::Row::column))]
fn rintc_row(body: &[u8]) -> Option<Row>
    ensures { row_meant result ≡ pick (column old_rintcs body.now) (some old_rintcs) (pick (column rintcs body.now) (some rintcs) none) }
{
    if body.len() == OldRintcAffinity::LEN {
        return Some(Row::OldRintcs);
    }
    (body.len() == RintcAffinity::LEN).then_some(Row::Rintcs)
}

fn srat_row(body: &[u8]) -> Option<Row>
    ensures { row_meant result ≡ row_of srat (revision srat) (type_in srat body.now) body.now }
{
    match frames::short_type(body) {
        MemoryAffinity::TYPE => (body.len() == MemoryAffinity::LEN).then_some(Row::Memories),
        GenericInitiator::TYPE => (body.len() == GenericInitiator::LEN).then_some(Row::Initiators),
        RintcAffinity::TYPE => rintc_row(body),
        _ => None,
    }
}

// Two rows have one type: the counts tell them apart.
fn matrix_row(body: &[u8]) -> Option<Row>
    ensures { row_meant result ≡ pick (column (matrices byte) body.now) (some (matrices byte)) (pick (column (matrices pair) body.now) (some (matrices pair)) none) }
{
    if SystemLocality::fits(Width::Byte, body) {
        return Some(Row::Matrices(Width::Byte));
    }
    SystemLocality::fits(Width::Pair, body).then_some(Row::Matrices(Width::Pair))
}

fn hmat_row(body: &[u8]) -> Option<Row>
    ensures { row_meant result ≡ row_of hmat (revision hmat) (type_in hmat body.now) body.now }
{
    match frames::long_type(body) {
        MemoryProximityDomain::TYPE => (body.len() == MemoryProximityDomain::LEN).then_some(
            Row::Domains,
        ),
        SystemLocality::TYPE => matrix_row(body),
        MemorySideCache::TYPE => MemorySideCache::fits(body).then_some(Row::Sides),
        _ => None,
    }
}

fn cedt_row(body: &[u8]) -> Option<Row>
    ensures { row_meant result ≡ row_of cedt (revision cedt) (type_in cedt body.now) body.now }
{
    match frames::short_type(body) {
        CxlHostBridge::TYPE => CxlHostBridge::fits(body).then_some(Row::Bridges),
        CxlFixedMemory::TYPE => CxlFixedMemory::fits(body).then_some(Row::Windows),
        XorInterleaveMath::TYPE => XorInterleaveMath::fits(body).then_some(Row::Xors),
        _ => None,
    }
}

// The row that a record of a table of this revision matches.
pub fn row_of(table: Table, revision: u8, body: &[u8]) -> Option<Row>
    ensures { row_meant result ≡ row_of (meant table) revision (type_in (meant table) body.now) body.now }
{
    if revision != table.revision() {
        return None;
    }
    match table {
        Table::Pptt => pptt_row(body),
        Table::Srat => srat_row(body),
        Table::Hmat => hmat_row(body),
        Table::Cedt => cedt_row(body),
    }
}

// The row, where a reader of the mask knows it: the mask chooses between the row and none.
pub fn known(row: Option<Row>, mask: u32) -> Option<Row>
    ensures { row_meant result ≡ known mask (row_meant row) }
{
    row.filter(|row| row.in_mask(mask))
}

// ---- whether a record of a row is sound

// Whether zeros, fixed values, ranges, bit rules and inner counts are as the row has them; of an unknown record nothing is asked.
#[tactic(auto, using(crate::proofs::Laws::processor_fixed, crate::proofs::Laws::domain_fixed), unfolding(format::specs::Row::form_in))]
#[inline(always)]
pub fn sound(row: Option<Row>, body: &[u8]) -> bool
    ensures { result ≡ sound_as (row_meant row) body.now }
{
    let Some(row) = row else {
        return true;
    };
    match row {
        Row::Processors => ProcessorNode::is_fixed(body),
        Row::Caches => CacheNode::is_sound(body),
        Row::Memories => MemoryAffinity::is_sound(body),
        Row::Initiators => GenericInitiator::is_sound(body),
        Row::OldRintcs => OldRintcAffinity::is_sound(body),
        Row::Domains => MemoryProximityDomain::is_fixed(body),
        Row::Matrices(_) => SystemLocality::is_sound(body),
        Row::Sides => MemorySideCache::is_sound(body),
        Row::Bridges => CxlHostBridge::is_sound(body),
        Row::Windows => CxlFixedMemory::is_sound(body),
        Row::Xors => XorInterleaveMath::is_sound(body),
        Row::Rintcs => RintcAffinity::is_sound(body),
    }
}

// The part of a record that is its list, empty where the row has none; an unknown record whole.
#[tactic(auto, using(crate::proofs::Laws::no_handle_list), unfolding(format::specs::Read::part_of, format::specs::Read::list_in, format::specs::Row::form_in))]
pub fn part<'a>(row: Option<Row>, body: &'a [u8]) -> &'a [u8]
    ensures { result.now ≡ part_of (row_meant row) body.now }
{
    match row {
        Some(Row::Processors) => field::rest(body, ProcessorNode::LEN),
        Some(Row::Matrices(_)) => field::rest(body, SystemLocality::LEN),
        Some(Row::Sides) => field::rest(body, MemorySideCache::LEN),
        Some(Row::Windows) => field::rest(body, CxlFixedMemory::LEN),
        Some(Row::Xors) => field::rest(body, XorInterleaveMath::LEN),
        Some(_) => &body[..0],
        None => body,
    }
}
