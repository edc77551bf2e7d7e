// A record as numbers: its row, and its fields in the order of its layout.
#![tactic(auto)]

ghost use Rattle.std.specs.Prelude.{◌≡◌, length};
ghost use Rattle.format.specs.Bytes.{over};
ghost use Rattle.format.specs.Row.{matrices, row_number};
ghost use Rattle.hmat.specs.Widths.{meant_width};
ghost use Rattle.read.specs.Answers.{row_in, fields_in};
ghost use Rattle.numbers.specs.Rows.{row_as};

use cedt::{CxlFixedMemory, CxlHostBridge, XorInterleaveMath};
use hmat::{MemoryProximityDomain, MemorySideCache, SystemLocality, Width};
use pptt::{CacheNode, ProcessorNode};
use read::Node;
use srat::{MemoryAffinity, OldRintcAffinity, RintcAffinity};

// The row of a record that no known row fits.
pub const UNKNOWN: u64 = 255;

// The number of a matrix's row: the width of its counts tells the two apart.
fn matrix_row(width: Width) -> u64
    ensures { result ≡ row_number (matrices (meant_width width)) }
{
    match width {
        Width::Byte => 6,
        Width::Pair => 12,
    }
}

// The number of a record's row.
pub fn row_number(node: Option<Node>) -> u64
    ensures { result ≡ row_as (row_in node) }
{
    let Some(node) = node else {
        return UNKNOWN;
    };
    match node {
        Node::Processor(_) => 0,
        Node::Cache(_) => 1,
        Node::Memory(_) => 2,
        Node::Initiator(_) => 3,
        Node::OldRintc(_) => 4,
        Node::Domain(_) => 5,
        Node::Matrix(n) => matrix_row(n.width()),
        Node::Side(_) => 7,
        Node::Bridge(_) => 8,
        Node::Window(_) => 9,
        Node::Xor(_) => 10,
        Node::Rintc(_) => 11,
    }
}

// The fields of a record, from a place on.
pub fn put_fields(node: Option<Node>, answer: &mut [u64], at: usize)
    ensures { answer.new ≡ over answer.old at (fields_in node) }
{
    let Some(node) = node else {
        return;
    };
    match node {
        Node::Processor(n) => n.put_fields(answer, at),
        Node::Cache(n) => n.put_fields(answer, at),
        Node::Memory(n) => n.put_fields(answer, at),
        Node::Initiator(n) => n.put_fields(answer, at),
        Node::OldRintc(n) => n.put_fields(answer, at),
        Node::Domain(n) => n.put_fields(answer, at),
        Node::Matrix(n) => n.put_fields(answer, at),
        Node::Side(n) => n.put_fields(answer, at),
        Node::Bridge(n) => n.put_fields(answer, at),
        Node::Window(n) => n.put_fields(answer, at),
        Node::Xor(n) => n.put_fields(answer, at),
        Node::Rintc(n) => n.put_fields(answer, at),
    }
}

// How many fields a record has.
pub fn fields_count(node: Option<Node>) -> usize
    ensures { result ≡ length (fields_in node) }
{
    let Some(node) = node else {
        return 0;
    };
    match node {
        Node::Processor(_) => ProcessorNode::FIELDS,
        Node::Cache(_) => CacheNode::FIELDS,
        Node::Memory(_) => MemoryAffinity::FIELDS,
        Node::Initiator(n) => n.fields_count(),
        Node::OldRintc(_) => OldRintcAffinity::FIELDS,
        Node::Domain(_) => MemoryProximityDomain::FIELDS,
        Node::Matrix(_) => SystemLocality::FIELDS,
        Node::Side(_) => MemorySideCache::FIELDS,
        Node::Bridge(_) => CxlHostBridge::FIELDS,
        Node::Window(_) => CxlFixedMemory::FIELDS,
        Node::Xor(_) => XorInterleaveMath::FIELDS,
        Node::Rintc(_) => RintcAffinity::FIELDS,
    }
}
