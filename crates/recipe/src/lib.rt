// The recipe: the kinds of its records, and the pass that judges it whole before anything is written.
#![tactic(auto)]

ghost use Rattle.std.specs.Prelude.{◌≡◌, ℕ, ◌+◌, ◌≤◌, ◌<◌, List, [], true, length, drop, eqb};
ghost use Rattle.format.specs.Bytes.{pick, has, part};
ghost use Rattle.format.specs.Layout.{width};
ghost use Rattle.format.specs.Table.{pptt, srat, hmat, cedt, limit, Head, head_of};
ghost use Rattle.format.specs.Kind.{kind_of, retired, body};
ghost use Rattle.format.specs.Recipe.{cut, run, meaning};
ghost use Rattle.format.specs.Form.{byte, pair};
ghost use Rattle.format.specs.Form as form;
ghost use Rattle.format.specs.Kind as format;
ghost use Rattle.header.specs.Header.{meant};
ghost use Rattle.hmat.specs.Widths.{meant_width};
ghost use Rattle.recipe.specs.Kinds.{meant_kind, coming, named, is_retired, reference_of};
ghost use Rattle.recipe.specs.Answers.{shown, outlined};
ghost use Rattle.recipe.specs.Machine.{counts, lacks, bit_at, Clear, noted, of_type, Roomy, Typed, Turns, TurnsBegun, TurnsWith, Stands};

mod state;

use cedt::{CxlFixedMemory, CxlHostBridge, CxlTarget, XorInterleaveMath, XorMap};
use header::{Table, TableHeader};
use hmat::{
    Cell, MemoryProximityDomain, MemorySideCache, SmbiosHandle, SystemLocality, Value, Width,
};
use pptt::{CacheHandle, CacheNode, ProcessorHandle, ProcessorNode, Resource};
use srat::{GenericInitiator, MemoryAffinity, OldRintcAffinity, RintcAffinity};
use state::State;

// The length of a head's record.
pub const HEAD_LEN: usize = 1 + TableHeader::BODY;

// Where the table's code stands in a recipe: the head's first field.
const CODE_AT: usize = 1 + TableHeader::CODE_AT;

// ---- kinds

#[derive(Clone, Copy, Debug, PartialEq, Eq)]
pub enum Kind {
    Processor,
    Resource,
    Cache,
    Memory,
    Acpi,
    Pci,
    Rintc,
    Domain,
    Matrix,
    Initiator,
    Target,
    Cell,
    Side,
    Handle,
    Bridge,
    Window,
    WindowTarget,
    Xor,
    Map,
    // with counts or indices of two bytes
    WideMatrix,
    WideInitiator,
    WideTarget,
    WideCell,
}

// Why a byte names no kind: the kind is retired, or there is none.
#[derive(Clone, Copy, Debug, PartialEq, Eq)]
pub enum Unnamed {
    Retired,
    Nothing,
}

// What a record names, by ordinal: 0 for none.
#[derive(Clone, Copy)]
pub enum Reference {
    Processor(ProcessorHandle),
    Cache(CacheHandle),
}

impl Kind {
    // The number of bytes that follow the kind byte.
    #[tactic(auto, unfolding(format::specs::Layout::width, format::specs::Kind::body))]
    pub fn body_len(self) -> usize
        ensures { result ≡ width (body (meant_kind self)) }
    {
        match self {
            Kind::Processor => ProcessorNode::BODY,
            Kind::Resource => Resource::BODY,
            Kind::Cache => CacheNode::BODY,
            Kind::Memory => MemoryAffinity::BODY,
            Kind::Acpi => GenericInitiator::ACPI_BODY,
            Kind::Pci => GenericInitiator::PCI_BODY,
            Kind::Rintc => RintcAffinity::BODY,
            Kind::Domain => MemoryProximityDomain::BODY,
            Kind::Matrix => SystemLocality::BODY,
            Kind::Initiator => Value::BODY,
            Kind::Target => Value::BODY,
            Kind::Cell => Cell::BODY,
            Kind::Side => MemorySideCache::BODY,
            Kind::Handle => SmbiosHandle::BODY,
            Kind::Bridge => CxlHostBridge::BODY,
            Kind::Window => CxlFixedMemory::BODY,
            Kind::WindowTarget => CxlTarget::BODY,
            Kind::Xor => XorInterleaveMath::BODY,
            Kind::Map => XorMap::BODY,
            Kind::WideMatrix => SystemLocality::WIDE_BODY,
            Kind::WideInitiator => Value::WIDE_BODY,
            Kind::WideTarget => Value::WIDE_BODY,
            Kind::WideCell => Cell::WIDE_BODY,
        }
    }

    // What a record of this kind names, whose body the bytes begin with.
    pub fn refers(self, bytes: &[u8]) -> Option<Reference>
        ensures { result ≡ reference_of (meant_kind self) bytes.now }
    {
        match self {
            Kind::Processor => Some(Reference::Processor(ProcessorNode::parent_in(bytes))),
            Kind::Resource => Some(Reference::Cache(Resource::from_body(bytes).cache)),
            Kind::Cache => Some(Reference::Cache(CacheNode::next_level_in(bytes))),
            _ => None,
        }
    }
}

#[tactic(auto, unfolding(format::specs::Kind::kind_of))]
fn of_pptt(byte: u8) -> Result<Kind, Unnamed>
    ensures result_value { named result ≡ kind_of pptt byte }
    ensures result_value_2 { is_retired result ≡ has (retired pptt) byte }
{
    match byte {
        ProcessorNode::KIND => Ok(Kind::Processor),
        Resource::KIND => Ok(Kind::Resource),
        CacheNode::KIND => Ok(Kind::Cache),
        _ => Err(Unnamed::Nothing),
    }
}

#[tactic(auto, unfolding(format::specs::Kind::kind_of))]
fn of_srat(byte: u8) -> Result<Kind, Unnamed>
    ensures result_value { named result ≡ kind_of srat byte }
    ensures result_value_2 { is_retired result ≡ has (retired srat) byte }
{
    match byte {
        MemoryAffinity::KIND => Ok(Kind::Memory),
        GenericInitiator::ACPI_KIND => Ok(Kind::Acpi),
        GenericInitiator::PCI_KIND => Ok(Kind::Pci),
        OldRintcAffinity::KIND => Err(Unnamed::Retired),
        RintcAffinity::KIND => Ok(Kind::Rintc),
        _ => Err(Unnamed::Nothing),
    }
}

#[tactic(auto, unfolding(format::specs::Kind::kind_of))]
fn of_hmat(byte: u8) -> Result<Kind, Unnamed>
    ensures result_value { named result ≡ kind_of hmat byte }
    ensures result_value_2 { is_retired result ≡ has (retired hmat) byte }
{
    match byte {
        MemoryProximityDomain::KIND => Ok(Kind::Domain),
        SystemLocality::KIND => Ok(Kind::Matrix),
        Value::INITIATOR_KIND => Ok(Kind::Initiator),
        Value::TARGET_KIND => Ok(Kind::Target),
        Cell::KIND => Ok(Kind::Cell),
        MemorySideCache::KIND => Ok(Kind::Side),
        SmbiosHandle::KIND => Ok(Kind::Handle),
        SystemLocality::WIDE_KIND => Ok(Kind::WideMatrix),
        Value::WIDE_INITIATOR_KIND => Ok(Kind::WideInitiator),
        Value::WIDE_TARGET_KIND => Ok(Kind::WideTarget),
        Cell::WIDE_KIND => Ok(Kind::WideCell),
        _ => Err(Unnamed::Nothing),
    }
}

#[tactic(auto, unfolding(format::specs::Kind::kind_of))]
fn of_cedt(byte: u8) -> Result<Kind, Unnamed>
    ensures result_value { named result ≡ kind_of cedt byte }
    ensures result_value_2 { is_retired result ≡ has (retired cedt) byte }
{
    match byte {
        CxlHostBridge::KIND => Ok(Kind::Bridge),
        CxlFixedMemory::KIND => Ok(Kind::Window),
        CxlTarget::KIND => Ok(Kind::WindowTarget),
        XorInterleaveMath::KIND => Ok(Kind::Xor),
        XorMap::KIND => Ok(Kind::Map),
        _ => Err(Unnamed::Nothing),
    }
}

// The kind that a byte names in a recipe of this table.
pub fn kind_of(table: Table, byte: u8) -> Result<Kind, Unnamed>
    ensures result_value { named result ≡ kind_of (meant table) byte }
    ensures result_value_2 { is_retired result ≡ has (retired (meant table)) byte }
{
    match table {
        Table::Pptt => of_pptt(byte),
        Table::Srat => of_srat(byte),
        Table::Hmat => of_hmat(byte),
        Table::Cedt => of_cedt(byte),
    }
}

// ---- answers

#[derive(Clone, Copy, Debug, PartialEq, Eq)]
pub enum Refusal {
    NoHead,
    BadKind,
    Retired,
    Cut,
    Misplaced,
    BadField,
    Forward,
    WrongKind,
    FullNode,
    TooLong,
    Incomplete,
}

impl From<Unnamed> for Refusal {
    ghost use Rattle.recipe.specs.Answers.{unnamed};

    ghost from_gives = { λ u r. r ≡ unnamed u };

    fn from(unnamed: Unnamed) -> Refusal {
        match unnamed {
            Unnamed::Retired => Refusal::Retired,
            Unnamed::Nothing => Refusal::BadKind,
        }
    }
}

impl Refusal {
    // Of what stands at a place of the recipe.
    fn at(self, at: usize) -> Refused
        ensures { result ≡ record { refusal = self; at = at } }
    {
        Refused { refusal: self, at }
    }
}

// What a good recipe gives: a table, so many bytes long.
#[derive(Clone, Copy, PartialEq, Eq)]
pub struct Outline {
    pub table: Table,
    pub len: usize,
}

// Why a recipe is refused, and where.
#[derive(Clone, Copy, Debug, PartialEq, Eq)]
pub struct Refused {
    pub refusal: Refusal,
    pub at: usize,
}

// ---- the state

// The newest node, if a record can join it, with its counts.
#[derive(Clone, Copy)]
enum Newest {
    Processor(u8),
    // how wide its counts are written, I and T
    Matrix(Width, u32, u32),
    Side(u16),
    // how many targets it needs, and has
    Window(u8, u8),
    Xor(u8),
    Other,
}

impl Newest {
    // It lacks entries, and what comes is none.
    fn lacks(self, next: Option<Kind>) -> bool
        ensures { result ≡ lacks self (coming next) }
    {
        let Newest::Window(needs, has) = self else {
            return false;
        };
        if needs <= has {
            return false;
        }
        next != Some(Kind::WindowTarget)
    }
}

// Why a record is refused: at its kind byte, or for a bad field so many bytes behind that.
#[derive(Clone, Copy)]
enum Fault {
    Record(Refusal),
    Field(usize),
}

// ---- references

// The words that hold a bit for each node of a PPTT, at 64 a word: its shortest node is a processor without resources.
const WORDS: usize = header::LIMIT / ProcessorNode::LEN / 64 + 1;

// Fewer, which are sooner cleared, for a recipe below so many bytes: each node has a record of its own.
const FEW_WORDS: usize = 820;

const FEW_BYTES: usize = (1 + ProcessorNode::BODY) * 64 * FEW_WORDS;

// The type of node i of a PPTT, counted from 0: a bit.
fn type_at(types: &[u64], i: usize) -> u8
    ensures { result ≡ bit_at types.now i }
{
    let j = i / 64;
    if types.len() <= j {
        return 0;
    }
    ((types[j] >> (i % 64)) % 2) as u8
}

// Notes node i, if a record of this kind makes a cache: from its bit on all are 0 so far.
fn note_type(types: &mut [u64], kind: Kind, i: usize)
    requires { meant_kind kind ≡ format.Cache → Clear types.old i }
    ensures { types.new ≡ noted (meant_kind kind) i types.old }
{
    if kind != Kind::Cache {
        return;
    }
    let j = i / 64;
    types[j] = types[j] + (1 << (i % 64));
}

// An ordinal, which is not none, names a node of this type.
fn names(types: &[u64], ordinal: u32, ty: u8) -> bool
    requires { 0 < ordinal }
    ensures { result ≡ of_type types.now ordinal ty }
{
    type_at(types, ordinal as usize - 1) == ty
}

fn names_or_none(types: &[u64], ordinal: u32, ty: u8) -> bool
    ensures { result ≡ pick (eqb ordinal 0) true (of_type types.now ordinal ty) }
{
    ordinal == 0 || names(types, ordinal, ty)
}

// ---- PPTT

fn processor(types: &[u64], bytes: &[u8], st: State) -> Result<State, Fault>
    ensures { TurnsWith types.now format.Processor bytes.now (counts st) result }
{
    let parent = ProcessorNode::parent_in(bytes);
    let own = st.nodes + 1;
    if own <= parent.0 as usize {
        return Err(Fault::Record(Refusal::Forward));
    }
    if !names_or_none(types, parent.0, ProcessorNode::TYPE) {
        return Err(Fault::Record(Refusal::WrongKind));
    }
    st.grown(own, ProcessorNode::LEN, Newest::Processor(0))
}

fn resource(types: &[u64], bytes: &[u8], st: State) -> Result<State, Fault>
    ensures { TurnsWith types.now format.Resource bytes.now (counts st) result }
{
    let Newest::Processor(n) = st.newest else {
        return Err(Fault::Record(Refusal::Misplaced));
    };
    let own = st.nodes;
    let cache = Resource::from_body(bytes).cache;
    if cache.0 == 0 {
        return Err(Fault::Record(Refusal::Forward));
    }
    if own <= cache.0 as usize {
        return Err(Fault::Record(Refusal::Forward));
    }
    if !names(types, cache.0, CacheNode::TYPE) {
        return Err(Fault::Record(Refusal::WrongKind));
    }
    if ProcessorNode::is_full(n) {
        return Err(Fault::Record(Refusal::FullNode));
    }
    st.grown(own, Resource::LEN, Newest::Processor(n + 1))
}

fn cache(types: &[u64], bytes: &[u8], st: State) -> Result<State, Fault>
    ensures { TurnsWith types.now format.Cache bytes.now (counts st) result }
{
    let node = CacheNode::from_body(bytes);
    if let Some(by) = node.bad_field() {
        return Err(Fault::Field(by));
    }
    let next_level = node.next_level;
    let own = st.nodes + 1;
    if own <= next_level.0 as usize {
        return Err(Fault::Record(Refusal::Forward));
    }
    if !names_or_none(types, next_level.0, CacheNode::TYPE) {
        return Err(Fault::Record(Refusal::WrongKind));
    }
    st.grown(own, CacheNode::LEN, Newest::Other)
}

// ---- HMAT

fn matrix(width: Width, bytes: &[u8], st: State) -> Result<State, Fault>
    ensures { Turns (format.Matrix (meant_width width)) bytes.now (counts st) result }
{
    let node = SystemLocality::from_body(width, bytes);
    if let Some(by) = node.bad_field() {
        return Err(Fault::Field(by));
    }
    st.grown(
        st.nodes + 1,
        node.len(),
        Newest::Matrix(width, node.initiators, node.targets),
    )
}

// An initiator's value, and a target's beside it: one function of both would take the side, and match on it for the count and in its contract.
fn initiator(width: Width, bytes: &[u8], st: State) -> Result<State, Fault>
    ensures { Turns (format.Initiator (meant_width width)) bytes.now (counts st) result }
{
    let (initiators, _) = st.counted(width)?;
    if let Some(by) = Value::from_body(width, bytes).bad_field(initiators) {
        return Err(Fault::Field(by));
    }
    Ok(st)
}

fn target(width: Width, bytes: &[u8], st: State) -> Result<State, Fault>
    ensures { Turns (format.Target (meant_width width)) bytes.now (counts st) result }
{
    let (_, targets) = st.counted(width)?;
    if let Some(by) = Value::from_body(width, bytes).bad_field(targets) {
        return Err(Fault::Field(by));
    }
    Ok(st)
}

fn cell(width: Width, bytes: &[u8], st: State) -> Result<State, Fault>
    ensures { Turns (format.Cell (meant_width width)) bytes.now (counts st) result }
{
    let (initiators, targets) = st.counted(width)?;
    if let Some(by) = Cell::from_body(width, bytes).bad_field(width, initiators, targets) {
        return Err(Fault::Field(by));
    }
    Ok(st)
}

fn handle(st: State) -> Result<State, Fault>
    ensures { (bs : List ℕ) → Turns format.Handle bs (counts st) result }
{
    let Newest::Side(n) = st.newest else {
        return Err(Fault::Record(Refusal::Misplaced));
    };
    if MemorySideCache::is_full(n) {
        return Err(Fault::Record(Refusal::FullNode));
    }
    st.grown(st.nodes, SmbiosHandle::LEN, Newest::Side(n + 1))
}

// ---- CEDT

// A window counts whole, its targets included.
fn window(bytes: &[u8], st: State) -> Result<State, Fault>
    ensures { Turns format.Window bytes.now (counts st) result }
{
    let node = CxlFixedMemory::from_body(bytes);
    st.made(
        node.bad_field(),
        node.len(),
        Newest::Window(node.num_interleaved_ways(), 0),
    )
}

fn window_target(st: State) -> Result<State, Fault>
    ensures { (bs : List ℕ) → TurnsBegun format.WindowTarget bs (counts st) result }
{
    let Newest::Window(needs, has) = st.newest else {
        return Err(Fault::Record(Refusal::Misplaced));
    };
    if needs <= has {
        return Err(Fault::Record(Refusal::FullNode));
    }
    st.grown(st.nodes, 0, Newest::Window(needs, has + 1))
}

fn map(st: State) -> Result<State, Fault>
    ensures { (bs : List ℕ) → Turns format.Map bs (counts st) result }
{
    let Newest::Xor(n) = st.newest else {
        return Err(Fault::Record(Refusal::Misplaced));
    };
    if XorInterleaveMath::is_full(n) {
        return Err(Fault::Record(Refusal::FullNode));
    }
    st.grown(st.nodes, XorMap::LEN, Newest::Xor(n + 1))
}

// ---- the pass

// One record, whose body the bytes begin with: each body is a window of its own length.
fn judge(types: &[u64], kind: Kind, bytes: &[u8], st: State) -> Result<State, Fault>
    requires { width (body (meant_kind kind)) ≤ length bytes.now }
    ensures { TurnsWith types.now (meant_kind kind) bytes.now (counts st) result }
{
    match kind {
        Kind::Processor => processor(types, &bytes[..ProcessorNode::BODY], st),
        Kind::Resource => resource(types, &bytes[..Resource::BODY], st),
        Kind::Cache => cache(types, &bytes[..CacheNode::BODY], st),
        Kind::Memory => st.made(
            MemoryAffinity::from_body(&bytes[..MemoryAffinity::BODY]).bad_field(),
            MemoryAffinity::LEN,
            Newest::Other,
        ),
        Kind::Acpi => st.made(
            GenericInitiator::from_acpi_body(&bytes[..GenericInitiator::ACPI_BODY]).bad_field(),
            GenericInitiator::LEN,
            Newest::Other,
        ),
        Kind::Pci => st.made(
            GenericInitiator::from_pci_body(&bytes[..GenericInitiator::PCI_BODY]).bad_field(),
            GenericInitiator::LEN,
            Newest::Other,
        ),
        Kind::Rintc => st.made(
            RintcAffinity::from_body(&bytes[..RintcAffinity::BODY]).bad_field(),
            RintcAffinity::LEN,
            Newest::Other,
        ),
        Kind::Domain => st.made(None, MemoryProximityDomain::LEN, Newest::Other),
        Kind::Matrix => matrix(Width::Byte, &bytes[..SystemLocality::BODY], st),
        Kind::Initiator => initiator(Width::Byte, &bytes[..Value::BODY], st),
        Kind::Target => target(Width::Byte, &bytes[..Value::BODY], st),
        Kind::Cell => cell(Width::Byte, &bytes[..Cell::BODY], st),
        Kind::Side => st.made(
            MemorySideCache::from_body(&bytes[..MemorySideCache::BODY]).bad_field(),
            MemorySideCache::LEN,
            Newest::Side(0),
        ),
        Kind::Handle => handle(st),
        Kind::Bridge => st.made(
            CxlHostBridge::from_body(&bytes[..CxlHostBridge::BODY]).bad_field(),
            CxlHostBridge::LEN,
            Newest::Other,
        ),
        Kind::Window => window(&bytes[..CxlFixedMemory::BODY], st),
        Kind::WindowTarget => window_target(st),
        Kind::Xor => st.made(
            XorInterleaveMath::from_body(&bytes[..XorInterleaveMath::BODY]).bad_field(),
            XorInterleaveMath::LEN,
            Newest::Xor(0),
        ),
        Kind::Map => map(st),
        Kind::WideMatrix => matrix(Width::Pair, &bytes[..SystemLocality::WIDE_BODY], st),
        Kind::WideInitiator => initiator(Width::Pair, &bytes[..Value::WIDE_BODY], st),
        Kind::WideTarget => target(Width::Pair, &bytes[..Value::WIDE_BODY], st),
        Kind::WideCell => cell(Width::Pair, &bytes[..Cell::WIDE_BODY], st),
    }
}

// The place behind the good cells that follow: they leave the state as it is.
fn past_cells(recipe: &[u8], from: usize, st: State) -> usize
    ensures { (from ≤ result) × ((h : Head) (made : ℕ) (ws : List ℕ) → Stands recipe.now h made from (counts st) ws → Stands recipe.now h made result (counts st) ws) }
{
    if st.table != Table::Hmat {
        return from;
    }
    let Newest::Matrix(width, i, t) = st.newest else {
        return from;
    };
    let len = 1 + Cell::body_len(width);
    let mut at = from;
    while Cell::stands(recipe, at, width, i, t) {
        at = at + len;
    }
    at
}

// The records behind the head; types: a bit for each node of a PPTT, all 0.
fn walk(recipe: &[u8], table: Table, types: &mut [u64]) -> Result<Outline, Refused>
    requires { meant table ≡ pptt → Roomy types.old recipe.now × Typed types.old [] }
    ensures { shown result ≡ outlined (run (head_of (meant table) (part recipe.now 2 26)) 0 byte [] (cut (meant table) 0 28 (drop 28 recipe.now))) }
{
    let mut at = HEAD_LEN;
    let mut made = 0;
    let mut st = State::new(table);
    while at < recipe.len() {
        let named = kind_of(table, recipe[at]);
        if st.newest.lacks(named.ok()) {
            return Err(Refusal::Incomplete.at(made));
        }
        let kind = match named {
            Ok(kind) => kind,
            Err(unnamed) => return Err(Refusal::from(unnamed).at(at)),
        };
        let n = kind.body_len();
        let end = at + 1 + n;
        let bytes = field::rest(recipe, at + 1);
        if bytes.len() < n {
            return Err(Refusal::Cut.at(at));
        }
        let next = match judge(types, kind, bytes, st) {
            Ok(next) => next,
            Err(Fault::Record(refusal)) => return Err(refusal.at(at)),
            Err(Fault::Field(by)) => return Err(Refusal::BadField.at(at + by)),
        };
        note_type(types, kind, st.nodes);
        made = next.newer(st.nodes, at, made);
        st = next;
        at = past_cells(recipe, end, next);
    }
    st.ended(made)
}

// The same of a long recipe, of a PPTT, with words for as many nodes as a table can have. LLVM does not inline a function that calls itself,
// so that no other recipe pays for this room; again is 0, since no slice has usize::MAX bytes, but LLVM does not know it.
fn walk_long(recipe: &[u8], table: Table, again: usize) -> Result<Outline, Refused>
    ensures { shown result ≡ outlined (run (head_of (meant table) (part recipe.now 2 26)) 0 byte [] (cut (meant table) 0 28 (drop 28 recipe.now))) }
{
    if 0 < again {
        return walk_long(recipe, table, again - 1);
    }
    walk(recipe, table, &mut [0u64; WORDS])
}

// Judges a whole recipe.
pub fn check(recipe: &[u8]) -> Result<Outline, Refused>
    ensures { shown result ≡ outlined (meaning recipe.now) }
{
    if field::get::<u8>(recipe, 0) != TableHeader::KIND {
        return Err(Refusal::NoHead.at(0));
    }
    if recipe.len() < HEAD_LEN {
        return Err(Refusal::Cut.at(0));
    }
    let Some(table) = Table::of_code(field::get::<u8>(recipe, CODE_AT)) else {
        return Err(Refusal::BadField.at(CODE_AT));
    };
    if table != Table::Pptt {
        return walk(recipe, table, &mut [0u64; 1]);
    }
    if recipe.len() < FEW_BYTES {
        return walk(recipe, table, &mut [0u64; FEW_WORDS]);
    }
    walk_long(recipe, table, recipe.len() / usize::MAX)
}
