// A place of a recipe in words, for people: the field that begins there, its record, and where that begins.
// Where the fields stand in a body is asked of the node types; what they are called stands here.
#![tactic(auto, unfolding(crate::specs::Words::field_of, crate::specs::Words::of_the, crate::specs::Words::name_at, crate::specs::Words::field_names, crate::specs::Words::record_name, format::specs::Kind::body))]

ghost use Rattle.std.specs.Prelude.{◌≡◌, ◌+◌, [], drop};
ghost use Rattle.format.specs.Kind as format;
ghost use Rattle.format.specs.Recipe.{cut};
ghost use Rattle.header.specs.Header.{meant};
ghost use Rattle.hmat.specs.Widths.{meant_width};
ghost use Rattle.recipe.specs.Kinds.{meant_kind};
ghost use Rattle.text.specs.Text.{laid, with};
ghost use Rattle.blames.specs.Words.{words, field_of, holder, head_words, record_words, field_words};
ghost use Rattle.blames.specs.Holders.{held_by};

use cedt::{CxlFixedMemory, CxlHostBridge, CxlTarget, XorInterleaveMath, XorMap};
use header::{Table, TableHeader};
use hmat::{
    Cell, MemoryProximityDomain, MemorySideCache, SmbiosHandle, SystemLocality, Value, Width,
};
use pptt::{CacheNode, ProcessorNode, Resource};
use recipe::Kind;
use srat::{GenericInitiator, MemoryAffinity, RintcAffinity};
use text::Text;

// ---- the fields of each kind, by their places in a body; nothing where none begins

fn processor(at: usize) -> &'static [u8]
    ensures { result.now ≡ field_of format.Processor 0 at }
{
    match at {
        ProcessorNode::FLAGS_AT => b"flags of the processor",
        ProcessorNode::PARENT_AT => b"parent of the processor",
        ProcessorNode::ID_AT => b"processor ID of the processor",
        _ => b"",
    }
}

fn resource(at: usize) -> &'static [u8]
    ensures { result.now ≡ field_of format.Resource 0 at }
{
    match at {
        Resource::CACHE_AT => b"cache of the resource",
        _ => b"",
    }
}

fn cache(at: usize) -> &'static [u8]
    ensures { result.now ≡ field_of format.Cache 0 at }
{
    match at {
        CacheNode::FLAGS_AT => b"flags of the cache",
        CacheNode::NEXT_LEVEL_AT => b"next level of the cache",
        CacheNode::SIZE_AT => b"size of the cache",
        CacheNode::SETS_AT => b"sets of the cache",
        CacheNode::ASSOCIATIVITY_AT => b"associativity of the cache",
        CacheNode::ATTRIBUTES_AT => b"attributes of the cache",
        CacheNode::LINE_SIZE_AT => b"line size of the cache",
        CacheNode::ID_AT => b"ID of the cache",
        _ => b"",
    }
}

fn memory(at: usize) -> &'static [u8]
    ensures { result.now ≡ field_of format.Memory 0 at }
{
    match at {
        MemoryAffinity::DOMAIN_AT => b"domain of the memory affinity",
        MemoryAffinity::BASE_AT => b"base of the memory affinity",
        MemoryAffinity::LENGTH_AT => b"length of the memory affinity",
        MemoryAffinity::FLAGS_AT => b"flags of the memory affinity",
        _ => b"",
    }
}

fn acpi(at: usize) -> &'static [u8]
    ensures { result.now ≡ field_of format.Acpi 0 at }
{
    match at {
        GenericInitiator::DOMAIN_AT => b"domain of the generic initiator",
        GenericInitiator::HID_AT => b"hid of the generic initiator",
        GenericInitiator::UID_AT => b"uid of the generic initiator",
        GenericInitiator::ACPI_FLAGS_AT => b"flags of the generic initiator",
        _ => b"",
    }
}

fn pci(at: usize) -> &'static [u8]
    ensures { result.now ≡ field_of format.Pci 0 at }
{
    match at {
        GenericInitiator::DOMAIN_AT => b"domain of the generic initiator",
        GenericInitiator::SEGMENT_AT => b"segment of the generic initiator",
        GenericInitiator::BUS_AT => b"bus of the generic initiator",
        GenericInitiator::DEVICE_AT => b"device of the generic initiator",
        GenericInitiator::FUNCTION_AT => b"function of the generic initiator",
        GenericInitiator::PCI_FLAGS_AT => b"flags of the generic initiator",
        _ => b"",
    }
}

fn rintc(at: usize) -> &'static [u8]
    ensures { result.now ≡ field_of format.Rintc 0 at }
{
    match at {
        RintcAffinity::DOMAIN_AT => b"domain of the RINTC affinity",
        RintcAffinity::UID_AT => b"uid of the RINTC affinity",
        RintcAffinity::FLAGS_AT => b"flags of the RINTC affinity",
        RintcAffinity::CLOCK_DOMAIN_AT => b"clock domain of the RINTC affinity",
        _ => b"",
    }
}

fn domain(at: usize) -> &'static [u8]
    ensures { result.now ≡ field_of format.Domain 0 at }
{
    match at {
        MemoryProximityDomain::INITIATOR_AT => b"initiator of the proximity domain",
        MemoryProximityDomain::MEMORY_AT => b"memory of the proximity domain",
        _ => b"",
    }
}

fn matrix(width: Width, at: usize) -> &'static [u8]
    ensures { result.now ≡ field_of (format.Matrix (meant_width width)) 0 at }
{
    // its place goes by the width: no constant for an arm
    if at == SystemLocality::targets_at(width) {
        return b"targets of the matrix";
    }
    match at {
        SystemLocality::FLAGS_AT => b"flags of the matrix",
        SystemLocality::DATA_TYPE_AT => b"data type of the matrix",
        SystemLocality::TRANSFER_SIZE_AT => b"transfer size of the matrix",
        SystemLocality::BASE_UNIT_AT => b"base unit of the matrix",
        SystemLocality::INITIATORS_AT => b"initiators of the matrix",
        _ => b"",
    }
}

// Of the two sides of a matrix the words differ, each as a whole: one function for both would be told all four.
fn initiator(width: Width, at: usize) -> &'static [u8]
    ensures { result.now ≡ field_of (format.Initiator (meant_width width)) 0 at }
{
    if at == Value::INDEX_AT {
        return b"index of the initiator value";
    }
    if at == Value::value_at(width) {
        return b"value of the initiator value";
    }
    b""
}

fn target(width: Width, at: usize) -> &'static [u8]
    ensures { result.now ≡ field_of (format.Target (meant_width width)) 0 at }
{
    if at == Value::INDEX_AT {
        return b"index of the target value";
    }
    if at == Value::value_at(width) {
        return b"value of the target value";
    }
    b""
}

fn cell(width: Width, at: usize) -> &'static [u8]
    ensures { result.now ≡ field_of (format.Cell (meant_width width)) 0 at }
{
    if at == Cell::INITIATOR_AT {
        return b"initiator of the cell";
    }
    if at == Cell::target_at(width) {
        return b"target of the cell";
    }
    if at == Cell::value_at(width) {
        return b"value of the cell";
    }
    b""
}

fn side(at: usize) -> &'static [u8]
    ensures { result.now ≡ field_of format.Side 0 at }
{
    match at {
        MemorySideCache::DOMAIN_AT => b"domain of the side cache",
        MemorySideCache::SIZE_AT => b"size of the side cache",
        MemorySideCache::ATTRIBUTES_AT => b"attributes of the side cache",
        _ => b"",
    }
}

fn handle(at: usize) -> &'static [u8]
    ensures { result.now ≡ field_of format.Handle 0 at }
{
    match at {
        SmbiosHandle::HANDLE_AT => b"handle of the SMBIOS handle",
        _ => b"",
    }
}

fn bridge(at: usize) -> &'static [u8]
    ensures { result.now ≡ field_of format.Bridge 0 at }
{
    match at {
        CxlHostBridge::UID_AT => b"uid of the CXL host bridge",
        CxlHostBridge::VERSION_AT => b"version of the CXL host bridge",
        CxlHostBridge::BASE_AT => b"base of the CXL host bridge",
        _ => b"",
    }
}

fn window(at: usize) -> &'static [u8]
    ensures { result.now ≡ field_of format.Window 0 at }
{
    match at {
        CxlFixedMemory::BASE_AT => b"base of the CXL window",
        CxlFixedMemory::SIZE_AT => b"size of the CXL window",
        CxlFixedMemory::WAYS_AT => b"ways of the CXL window",
        CxlFixedMemory::ARITHMETIC_AT => b"arithmetic of the CXL window",
        CxlFixedMemory::GRANULARITY_AT => b"granularity of the CXL window",
        CxlFixedMemory::RESTRICTIONS_AT => b"restrictions of the CXL window",
        CxlFixedMemory::QTG_AT => b"QTG of the CXL window",
        _ => b"",
    }
}

fn window_target(at: usize) -> &'static [u8]
    ensures { result.now ≡ field_of format.WindowTarget 0 at }
{
    match at {
        CxlTarget::UID_AT => b"uid of the target of a CXL window",
        _ => b"",
    }
}

fn xor(at: usize) -> &'static [u8]
    ensures { result.now ≡ field_of format.Xor 0 at }
{
    match at {
        XorInterleaveMath::GRANULARITY_AT => b"granularity of the XOR maths",
        _ => b"",
    }
}

fn map(at: usize) -> &'static [u8]
    ensures { result.now ≡ field_of format.Map 0 at }
{
    match at {
        XorMap::MAP_AT => b"map of the XOR map",
        _ => b"",
    }
}

// The field of a body of this kind that begins at a place.
fn field_of(kind: Kind, at: usize) -> &'static [u8]
    ensures { result.now ≡ field_of (meant_kind kind) 0 at }
{
    match kind {
        Kind::Processor => processor(at),
        Kind::Resource => resource(at),
        Kind::Cache => cache(at),
        Kind::Memory => memory(at),
        Kind::Acpi => acpi(at),
        Kind::Pci => pci(at),
        Kind::Rintc => rintc(at),
        Kind::Domain => domain(at),
        Kind::Matrix => matrix(Width::Byte, at),
        Kind::Initiator => initiator(Width::Byte, at),
        Kind::Target => target(Width::Byte, at),
        Kind::Cell => cell(Width::Byte, at),
        Kind::Side => side(at),
        Kind::Handle => handle(at),
        Kind::Bridge => bridge(at),
        Kind::Window => window(at),
        Kind::WindowTarget => window_target(at),
        Kind::Xor => xor(at),
        Kind::Map => map(at),
        Kind::WideMatrix => matrix(Width::Pair, at),
        Kind::WideInitiator => initiator(Width::Pair, at),
        Kind::WideTarget => target(Width::Pair, at),
        Kind::WideCell => cell(Width::Pair, at),
    }
}

// ---- words

// Lays the words for a field and the place of its record; nothing of no field.
fn lay(field: &[u8], at: usize, text: &mut Text)
    ensures { text.new ≡ with text.old (words field.now at) }
{
    if field.is_empty() {
        return;
    }
    text.bytes(field);
    text.bytes(b" at");
    text.spaced(at as u64);
}

// A record that holds a place: its kind, and where it begins.
#[derive(Clone, Copy)]
struct Held {
    kind: Kind,
    at: usize,
}

impl Held {
    // The field that begins at a place of the record; none does before its body.
    fn field(self, place: usize) -> &'static [u8]
        ensures { result.now ≡ field_of (meant_kind self.kind) (self.at + 1) place }
    {
        if place <= self.at {
            return b"";
        }
        field_of(self.kind, place - self.at - 1)
    }
}

// The record behind the head that holds a place.
fn holder(recipe: &[u8], table: Table, place: usize) -> Option<Held>
    ensures { held_by result ≡ holder place (cut (meant table) 0 28 (drop 28 recipe.now)) }
{
    let mut at = recipe::HEAD_LEN;
    while at < recipe.len() {
        let Ok(kind) = recipe::kind_of(table, recipe[at]) else {
            return None;
        };
        let end = at + 1 + kind.body_len();
        if place < end {
            return Some(Held { kind, at });
        }
        at = end;
    }
    None
}

// Lays the words for the field that begins at a place behind the head.
#[tactic(auto, using(text::proofs::Texts::with_none), unfolding(crate::specs::Words::record_words))]
fn behind_head(recipe: &[u8], table: Table, place: usize, text: &mut Text)
    ensures { text.new ≡ with text.old (record_words place (holder place (cut (meant table) 0 28 (drop 28 recipe.now)))) }
{
    match holder(recipe, table, place) {
        Some(held) => lay(held.field(place), held.at, text),
        None => (),
    }
}

// Lays the words for the field that begins at a place of the head: only the table code can be bad.
#[tactic(auto, using(text::proofs::Texts::with_none), unfolding(crate::specs::Words::head_words, crate::specs::Words::words, crate::specs::Words::of_the, format::specs::Listing::digits))]
fn in_head(place: usize, text: &mut Text)
    ensures { text.new ≡ with text.old (head_words place) }
{
    if place != 1 + TableHeader::CODE_AT {
        return;
    }
    lay(b"table code of the head", 0, text);
}

// Lays the words for the field that begins at a place of a recipe; nothing where none does.
fn find(recipe: &[u8], place: usize, text: &mut Text)
    ensures { text.new ≡ with text.old (field_words recipe.now place) }
{
    if field::get::<u8>(recipe, 0) != TableHeader::KIND {
        return;
    }
    if recipe.len() <= place {
        return;
    }
    if place < recipe::HEAD_LEN {
        return in_head(place, text);
    }
    match Table::of_code(field::get::<u8>(recipe, 1 + TableHeader::CODE_AT)) {
        Some(table) => behind_head(recipe, table, place, text),
        None => (),
    }
}

// The same behind the n bytes that out is filled with, as `size of the cache at 28`. How far it is filled then.
pub fn field(recipe: &[u8], place: usize, out: &mut [u8], n: usize) -> usize
    ensures { (result, out.new) ≡ laid out.old n (field_words recipe.now place) }
{
    let mut text = Text::behind(out, n);
    find(recipe, place, &mut text);
    text.len()
}
