// What one record of a recipe does to the table that the records before it made: which of its bytes change, how many come at its end, which
// record is the newest then, and what is written there. `build` goes from record to record by it, and has found what a record names.
#![tactic(auto)]

ghost use Rattle.std.specs.Prelude.{◌≡◌, ℕ, List};
ghost use Rattle.format.specs.Bytes.{at as at_byte, le, over};
ghost use Rattle.format.specs.Layout.{fields};
ghost use Rattle.format.specs.Kind.{body};
ghost use Rattle.format.specs.Kind as format;
ghost use Rattle.recipe.specs.Kinds.{meant_kind};
ghost use Rattle.hmat.specs.Widths.{meant_width};
ghost use Rattle.writes.specs.Writes.{windowed, fields_in, wrote, making, counting, growing, filling, change_of};

use cedt::{CxlFixedMemory, CxlHostBridge, CxlTarget, XorInterleaveMath, XorMap};
use header::Checksum;
use hmat::{
    Cell, MemoryProximityDomain, MemorySideCache, SmbiosHandle, SystemLocality, Value, Width,
};
use pptt::{CacheHandle, CacheNode, ProcessorHandle, ProcessorNode, Resource};
use recipe::Kind;
use srat::{GenericInitiator, MemoryAffinity, RintcAffinity};

// The newest record: how many there are with it, its place, how many items its list has, a matrix's I and T.
#[derive(Clone, Copy)]
pub struct Latest {
    pub nodes: u32,
    pub place: usize,
    pub count: u32,
    pub initiators: u32,
    pub targets: u32,
}

// The place of the record that a record names: a processor's, or a cache's.
#[derive(Clone, Copy)]
pub struct Found {
    pub processor: ProcessorHandle,
    pub cache: CacheHandle,
}

// Where the pass stands: the next record of the recipe, the end of the table, its newest record, and the sum of its bytes.
#[derive(Clone, Copy)]
pub struct State {
    pub at: usize,
    pub end: usize,
    pub latest: Latest,
    pub sum: Checksum,
}

// What a record does to the table: so many bytes from a place on change, and so many more come at the end.
#[derive(Clone, Copy)]
pub struct Change {
    pub from: usize,
    pub len: usize,
    pub more: usize,
    pub latest: Latest,
}

// ---- what changes

impl State {
    // A record is made at the end; i and t are a matrix's own.
    fn making(self, more: usize, initiators: u32, targets: u32) -> Change
        ensures { result ≡ making self more initiators targets }
    {
        Change {
            from: self.end,
            len: 0,
            more,
            latest: Latest {
                nodes: self.latest.nodes.wrapping_add(1),
                place: self.end,
                count: 0,
                initiators,
                targets,
            },
        }
    }

    // The newest record with one item more.
    fn counting(self) -> Latest
        ensures { result ≡ counting self }
    {
        Latest {
            count: self.latest.count.wrapping_add(1),
            ..self.latest
        }
    }

    // The newest record gets one item more, and its first bytes say so.
    fn growing(self, len: usize, more: usize) -> Change
        ensures { result ≡ growing self len more }
    {
        Change {
            from: self.latest.place,
            len,
            more,
            latest: self.counting(),
        }
    }

    // The newest record has room for its next item: it is set.
    fn filling(self, from: usize, len: usize) -> Change
        ensures { result ≡ filling self from len }
    {
        Change {
            from,
            len,
            more: 0,
            latest: self.counting(),
        }
    }

    // Some bytes of the newest record are set.
    fn setting(self, from: usize, len: usize) -> Change
        ensures { result ≡ record { from = from; len = len; more = 0; latest = self.latest } }
    {
        Change {
            from,
            len,
            more: 0,
            latest: self.latest,
        }
    }
}

// A matrix is made at the end.
fn making_matrix(width: Width, bytes: &[u8], s: State) -> Change
    ensures { result ≡ change_of (format.Matrix (meant_width width)) s (fields (body (format.Matrix (meant_width width))) bytes.now) }
{
    let node = SystemLocality::from_body(width, bytes);
    s.making(node.len(), node.initiators, node.targets)
}

// A value or a cell of the newest matrix is set. An initiator's place and a target's go by other numbers: one function of both would match on the side.
fn setting_initiator(width: Width, bytes: &[u8], s: State) -> Change
    ensures { result ≡ change_of (format.Initiator (meant_width width)) s (fields (body (format.Initiator (meant_width width))) bytes.now) }
{
    let idx = Value::from_body(width, bytes).idx as usize;
    s.setting(
        SystemLocality::initiator_place(s.latest.place, idx),
        Value::LEN,
    )
}

fn setting_target(width: Width, bytes: &[u8], s: State) -> Change
    ensures { result ≡ change_of (format.Target (meant_width width)) s (fields (body (format.Target (meant_width width))) bytes.now) }
{
    let latest = s.latest;
    let idx = Value::from_body(width, bytes).idx as usize;
    s.setting(
        SystemLocality::target_place(latest.place, latest.initiators as usize, idx),
        Value::LEN,
    )
}

fn setting_cell(width: Width, bytes: &[u8], s: State) -> Change
    ensures { result ≡ change_of (format.Cell (meant_width width)) s (fields (body (format.Cell (meant_width width))) bytes.now) }
{
    let latest = s.latest;
    let x = Cell::from_body(width, bytes);
    s.setting(
        SystemLocality::cell_place(
            latest.place,
            latest.initiators,
            latest.targets,
            x.initiator_idx as u32,
            x.target_idx as u32,
        ),
        Cell::LEN,
    )
}

// A window is made at the end, with room for its targets.
fn making_window(bytes: &[u8], s: State) -> Change
    ensures { result ≡ change_of format.Window s (fields (body format.Window) bytes.now) }
{
    let node = CxlFixedMemory::from_body(bytes);
    s.making(node.len(), 0, 0)
}

// The newest window's next target is set.
fn filling_window(s: State) -> Change
    ensures { (vs : List ℕ) → result ≡ change_of format.WindowTarget s vs }
{
    let latest = s.latest;
    s.filling(
        CxlFixedMemory::target_place(latest.place, latest.count as usize),
        CxlTarget::LEN,
    )
}

// What the record of a kind changes.
#[tactic(auto, unfolding(crate::specs::Writes::change_of))]
#[inline(always)]
pub fn change_of(kind: Kind, bytes: &[u8], s: State) -> Change
    ensures { result ≡ change_of (meant_kind kind) s (fields (body (meant_kind kind)) bytes.now) }
{
    match kind {
        Kind::Processor => s.making(ProcessorNode::LEN, 0, 0),
        Kind::Resource => s.growing(ProcessorNode::LEN, Resource::LEN),
        Kind::Cache => s.making(CacheNode::LEN, 0, 0),
        Kind::Memory => s.making(MemoryAffinity::LEN, 0, 0),
        Kind::Acpi => s.making(GenericInitiator::LEN, 0, 0),
        Kind::Pci => s.making(GenericInitiator::LEN, 0, 0),
        Kind::Rintc => s.making(RintcAffinity::LEN, 0, 0),
        Kind::Domain => s.making(MemoryProximityDomain::LEN, 0, 0),
        Kind::Matrix => making_matrix(Width::Byte, bytes, s),
        Kind::Initiator => setting_initiator(Width::Byte, bytes, s),
        Kind::Target => setting_target(Width::Byte, bytes, s),
        Kind::Cell => setting_cell(Width::Byte, bytes, s),
        Kind::Side => s.making(MemorySideCache::LEN, 0, 0),
        Kind::Handle => s.growing(MemorySideCache::LEN, SmbiosHandle::LEN),
        Kind::Bridge => s.making(CxlHostBridge::LEN, 0, 0),
        Kind::Window => making_window(bytes, s),
        Kind::WindowTarget => filling_window(s),
        Kind::Xor => s.making(XorInterleaveMath::LEN, 0, 0),
        Kind::Map => s.growing(XorInterleaveMath::LEN, XorMap::LEN),
        Kind::WideMatrix => making_matrix(Width::Pair, bytes, s),
        Kind::WideInitiator => setting_initiator(Width::Pair, bytes, s),
        Kind::WideTarget => setting_target(Width::Pair, bytes, s),
        Kind::WideCell => setting_cell(Width::Pair, bytes, s),
    }
}

// ---- what is written

// Sets a value of the newest matrix, whose place is known.
fn set_value(width: Width, bytes: &[u8], out: &mut [u8], place: usize)
    ensures { out.new ≡ over out.old place (le 4 (at_byte (fields (body (format.Initiator (meant_width width))) bytes.now) 1)) }
{
    field::put(out, place, Value::from_body(width, bytes).value);
}

fn set_cell(width: Width, bytes: &[u8], out: &mut [u8], place: usize)
    ensures { out.new ≡ over out.old place (le 2 (at_byte (fields (body (format.Cell (meant_width width))) bytes.now) 2)) }
{
    field::put(out, place, Cell::from_body(width, bytes).value);
}

// The first n bytes; none where there are fewer. The compiler then knows the length wherever n is a constant, and no field tests its bounds.
fn first(bytes: &[u8], n: usize) -> &[u8]
    ensures { result.now ≡ windowed n bytes.now }
{
    if bytes.len() < n {
        return &bytes[..0];
    }
    &bytes[..n]
}

// Writes the record of a kind whose body the bytes begin with, zeros for a body that is cut; found: the record that it names; from: the place
// of the bytes that it changes.
#[inline(always)]
pub fn put(kind: Kind, bytes: &[u8], out: &mut [u8], s: State, found: Found, from: usize)
    ensures { out.new ≡ wrote (meant_kind kind) s found from (fields_in (meant_kind kind) bytes.now) out.old }
{
    let end = s.end;
    let latest = s.latest;
    let place = latest.place;
    match kind {
        Kind::Processor => ProcessorNode::from_body(first(bytes, ProcessorNode::BODY))
            .named(found.processor)
            .put(out, end),
        Kind::Resource => ProcessorNode::add_cache(out, place, latest.count, found.cache),
        Kind::Cache => CacheNode::from_body(first(bytes, CacheNode::BODY))
            .named(found.cache)
            .put(out, end),
        Kind::Memory => MemoryAffinity::from_body(first(bytes, MemoryAffinity::BODY)).put(out, end),
        Kind::Acpi => GenericInitiator::from_acpi_body(first(
            bytes,
            GenericInitiator::ACPI_BODY,
        )).put(out, end),
        Kind::Pci => GenericInitiator::from_pci_body(first(bytes, GenericInitiator::PCI_BODY)).put(
            out, end,
        ),
        Kind::Rintc => RintcAffinity::from_body(first(bytes, RintcAffinity::BODY)).put(out, end),
        Kind::Domain => MemoryProximityDomain::from_body(first(
            bytes,
            MemoryProximityDomain::BODY,
        )).put(out, end),
        Kind::Matrix => SystemLocality::from_body(
            Width::Byte,
            first(bytes, SystemLocality::BODY),
        ).put(out, end),
        Kind::Initiator => set_value(Width::Byte, first(bytes, Value::BODY), out, from),
        Kind::Target => set_value(Width::Byte, first(bytes, Value::BODY), out, from),
        Kind::Cell => set_cell(Width::Byte, first(bytes, Cell::BODY), out, from),
        Kind::Side => MemorySideCache::from_body(first(bytes, MemorySideCache::BODY)).put(out, end),
        Kind::Handle => MemorySideCache::grow(
            out,
            place,
            (latest.count % 65536) as u16,
            SmbiosHandle::from_body(first(bytes, SmbiosHandle::BODY)),
        ),
        Kind::Bridge => CxlHostBridge::from_body(first(bytes, CxlHostBridge::BODY)).put(out, end),
        Kind::Window => CxlFixedMemory::from_body(first(bytes, CxlFixedMemory::BODY)).put(out, end),
        Kind::WindowTarget => CxlFixedMemory::add_target(
            out,
            place,
            latest.count as usize,
            CxlTarget::from_body(first(bytes, CxlTarget::BODY)),
        ),
        Kind::Xor => XorInterleaveMath::from_body(first(bytes, XorInterleaveMath::BODY)).put(
            out, end,
        ),
        Kind::Map => XorInterleaveMath::add_xormap(
            out,
            place,
            (latest.count % 65536) as u16,
            XorMap::from_body(first(bytes, XorMap::BODY)),
        ),
        Kind::WideMatrix => SystemLocality::from_body(
            Width::Pair,
            first(bytes, SystemLocality::WIDE_BODY),
        ).put(out, end),
        Kind::WideInitiator => set_value(Width::Pair, first(bytes, Value::WIDE_BODY), out, from),
        Kind::WideTarget => set_value(Width::Pair, first(bytes, Value::WIDE_BODY), out, from),
        Kind::WideCell => set_cell(Width::Pair, first(bytes, Cell::WIDE_BODY), out, from),
    }
}
