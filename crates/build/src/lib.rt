// Builds the table of a recipe: judges all of it, tests the room, and writes record by record, as the Rust's add_* do.
#![tactic(auto)]

ghost use Rattle.std.specs.Prelude.{◌≡◌, ℕ, ◌+◌, ◌%◌, ◌≤◌, ◌<◌, List, [], length};
ghost use Rattle.format.specs.Bytes.{le, part, over, sum as sum_of, given};
ghost use Rattle.format.specs.Table.{hmat, front, limit};
ghost use Rattle.format.specs.Recipe.{Meaning, meaning};
ghost use Rattle.format.specs.Build.{check_of, build, table as table_of, built};
ghost use Rattle.header.specs.Header.{meant};
ghost use Rattle.recipe.specs.Kinds.{meant_kind, ordinal_in};
ghost use Rattle.hmat.specs.Widths.{meant_width};
ghost use Rattle.build.specs.Write.{hops, place_in, body_width, value_in, entry_at, Changes};
ghost use Rattle.build.specs.Held.{front_of, Leads, Placed, kept_with, Held, Ready, Goes, Ends, Builds};
ghost use Rattle.marks.specs.Marks.{Every};
ghost use Rattle.recipe.specs.Answers.{number};
ghost use Rattle.build.specs.Answers.{shown, number_in, place_of};

use cedt::{CxlHostBridge, CxlTarget, XorInterleaveMath, XorMap};
use header::{Checksum, Table, TableHeader};
use hmat::{
    Cell, MemoryProximityDomain, MemorySideCache, SmbiosHandle, SystemLocality, Value, Width,
};
use marks::{Mark, Marks};
use pptt::{CacheHandle, CacheNode, ProcessorHandle, ProcessorNode, Resource};
use recipe::{Kind, Outline, Reference, Refusal, Refused};
use srat::{GenericInitiator, MemoryAffinity, RintcAffinity};
use writes::{Change, Found, Latest, State};

// Why no table is built: without room with the length that is needed, else as the recipe is refused.
#[derive(Clone, Copy, Debug, PartialEq, Eq)]
pub enum BuildError {
    NoRoom(usize),
    Refused(Refused),
}

impl From<Refused> for BuildError {
    ghost use Rattle.build.specs.declared.BuildError.TheVariants.{Refused as refuses};

    ghost from_gives = { λ refused error. error ≡ refuses refused };

    fn from(refused: Refused) -> Self {
        Self::Refused(refused)
    }
}

// The number of a refusal.
fn number_of(refusal: Refusal) -> u8
    ensures { result ≡ number refusal }
{
    match refusal {
        Refusal::NoHead => 1,
        Refusal::BadKind => 2,
        Refusal::Retired => 12,
        Refusal::Cut => 3,
        Refusal::Misplaced => 4,
        Refusal::BadField => 5,
        Refusal::Forward => 6,
        Refusal::WrongKind => 10,
        Refusal::FullNode => 7,
        Refusal::TooLong => 8,
        Refusal::Incomplete => 11,
    }
}

impl BuildError {
    pub fn number(self) -> u8
        ensures { result ≡ number_in (shown (Err self)) }
    {
        match self {
            BuildError::NoRoom(_) => 9,
            BuildError::Refused(refused) => number_of(refused.refusal),
        }
    }

    // The place in the recipe; without room the length that is needed.
    pub fn place(self) -> usize
        ensures { result ≡ place_of (shown (Err self)) }
    {
        match self {
            BuildError::NoRoom(len) => len,
            BuildError::Refused(refused) => refused.at,
        }
    }
}

// ---- references

// The place of record i, counted from 0, by the lengths of those between a mark and it.
fn reached(out: &[u8], from: Mark, i: u32) -> u32
    requires { (from.nodes ≤ i) × Leads out.now from }
    ensures { result ≡ hops out.now i 36 % 4294967296 }
{
    let mut place = from.place as usize;
    for _ in from.nodes..i {
        place += field::get::<u8>(out, place + pptt::LENGTH_AT) as usize;
    }
    (place % 4294967296) as u32
}

// The place of the record of an ordinal; 0 for none.
fn place_of<const N: usize>(out: &[u8], marks: &Marks<N>, ordinal: u32) -> u32
    requires { (ordinal ≡ 0 → ⊥) → Every (Leads out.now) marks.now.slots }
    ensures { result ≡ place_in out.now ordinal }
{
    let Some(i) = ordinal.checked_sub(1) else {
        return 0;
    };
    reached(out, marks.toward_node(Mark::first(), i), i)
}

// The record that a record of the recipe names.
fn look_for<const N: usize>(out: &[u8], marks: &Marks<N>, reference: Option<Reference>) -> Found
    requires { (ordinal_in reference ≡ 0 → ⊥) → Every (Leads out.now) marks.now.slots }
    ensures { Placed out.now reference result }
{
    match reference {
        Some(Reference::Processor(h)) => Found {
            processor: ProcessorHandle(place_of(out, marks, h.0)),
            cache: CacheHandle::NONE,
        },
        Some(Reference::Cache(h)) => Found {
            processor: ProcessorHandle::NONE,
            cache: CacheHandle(place_of(out, marks, h.0)),
        },
        None => Found {
            processor: ProcessorHandle::NONE,
            cache: CacheHandle::NONE,
        },
    }
}

// Marks the newest record, whose place stays.
fn keep<const N: usize>(latest: Latest, marks: &mut Marks<N>)
    requires { latest.place ≤ limit }
    ensures { marks.new.slots ≡ kept_with latest marks.old.shift marks.old.slots }
{
    let Some(nodes) = latest.nodes.checked_sub(1) else {
        return;
    };
    let mark = Mark {
        nodes,
        place: latest.place as u32,
    };
    marks.note(mark, nodes as usize);
}

// ---- one record

// The four bytes of a length.
fn length_bytes(n: usize) -> [u8; 4]
    ensures { result ≡ le 4 n }
{
    ((n % 4294967296) as u32).to_le_bytes()
}

// The sum without some bytes of the table, and with them.
fn without(out: &[u8], from: usize, len: usize, sum: Checksum) -> Checksum
    requires { from + len ≤ length out.now }
    ensures { result.value ≡ (sum.value + check_of (sum_of (part out.now from len))) % 256 }
{
    sum.delete(&out[from..from + len])
}

fn with(out: &[u8], from: usize, len: usize, sum: Checksum) -> Checksum
    requires { from + len ≤ length out.now }
    ensures { result.value ≡ (sum.value + sum_of (part out.now from len)) % 256 }
{
    sum.append(&out[from..from + len])
}

// The sum with so many bytes more at the end of the table, and with the new length in place of the old.
fn with_more(out: &[u8], end: usize, more: usize, sum: Checksum) -> Checksum
    requires { end + more ≤ length out.now }
    ensures { result.value ≡ (sum.value + sum_of (part out.now end more) + check_of (sum_of (le 4 end)) + sum_of (le 4 (end + more))) % 256 }
{
    with(out, end, more, sum)
        .delete(&length_bytes(end))
        .append(&length_bytes(end + more))
}

// The sum without the bytes that a record of a kind changes. Each kind says how many: the compiler makes no loop of so few.
#[inline(always)]
fn before(kind: Kind, out: &[u8], change: Change, sum: Checksum) -> Checksum
    requires { Changes (meant_kind kind) change × (change.from + change.len ≤ length out.now) }
    ensures { result.value ≡ (sum.value + check_of (sum_of (part out.now change.from change.len))) % 256 }
{
    let from = change.from;
    match kind {
        Kind::Resource => without(out, from, ProcessorNode::LEN, sum),
        Kind::Initiator | Kind::Target | Kind::WideInitiator | Kind::WideTarget => {
            without(out, from, Value::LEN, sum)
        }
        Kind::Cell | Kind::WideCell => without(out, from, Cell::LEN, sum),
        Kind::Handle => without(out, from, MemorySideCache::LEN, sum),
        Kind::WindowTarget => without(out, from, CxlTarget::LEN, sum),
        Kind::Map => without(out, from, XorInterleaveMath::LEN, sum),
        _ => sum,
    }
}

// The sum with what it has written there and at the end. Each size of marks has a pass of
// its own that calls it, and LLVM makes by itself only what is called once a part of its caller.
#[inline(always)]
fn after(kind: Kind, out: &[u8], change: Change, end: usize, sum: Checksum) -> Checksum
    requires { Changes (meant_kind kind) change × (change.from + change.len ≤ length out.now) × (end + change.more ≤ length out.now) }
    ensures { result.value ≡ (sum.value + sum_of (part out.now change.from change.len) + sum_of (part out.now end change.more) + check_of (sum_of (le 4 end)) + sum_of (le 4 (end + change.more))) % 256 }
{
    let from = change.from;
    match kind {
        Kind::Processor => with_more(out, end, ProcessorNode::LEN, sum),
        Kind::Resource => {
            let sum = with(out, from, ProcessorNode::LEN, sum);
            with_more(out, end, Resource::LEN, sum)
        }
        Kind::Cache => with_more(out, end, CacheNode::LEN, sum),
        Kind::Memory => with_more(out, end, MemoryAffinity::LEN, sum),
        Kind::Acpi | Kind::Pci => with_more(out, end, GenericInitiator::LEN, sum),
        Kind::Rintc => with_more(out, end, RintcAffinity::LEN, sum),
        Kind::Domain => with_more(out, end, MemoryProximityDomain::LEN, sum),
        Kind::Matrix | Kind::WideMatrix | Kind::Window => with_more(out, end, change.more, sum),
        Kind::Initiator | Kind::Target | Kind::WideInitiator | Kind::WideTarget => {
            with(out, from, Value::LEN, sum)
        }
        Kind::Cell | Kind::WideCell => with(out, from, Cell::LEN, sum),
        Kind::Side => with_more(out, end, MemorySideCache::LEN, sum),
        Kind::Handle => {
            let sum = with(out, from, MemorySideCache::LEN, sum);
            with_more(out, end, SmbiosHandle::LEN, sum)
        }
        Kind::Bridge => with_more(out, end, CxlHostBridge::LEN, sum),
        Kind::WindowTarget => with(out, from, CxlTarget::LEN, sum),
        Kind::Xor => with_more(out, end, XorInterleaveMath::LEN, sum),
        Kind::Map => {
            let sum = with(out, from, XorInterleaveMath::LEN, sum);
            with_more(out, end, XorMap::LEN, sum)
        }
    }
}

// Writes a number in the place of two bytes, which leave the sum as it comes.
fn replace(out: &mut [u8], at: usize, value: u16, sum: Checksum) -> Checksum
    requires { at + 2 ≤ length out.old }
    ensures out_after { out.new ≡ over out.old at (le 2 value) }
    ensures value_value { result.value ≡ (sum.value + check_of (sum_of (part out.old at 2)) + sum_of (le 2 value)) % 256 }
{
    let [low, high] = value.to_le_bytes();
    let window = &mut out[at..at + 2];
    let old = sum.sub(window[0]).sub(window[1]);
    field::put(window, 0, value);
    old.add(low).add(high)
}

// Writes the next record of the recipe; the bytes that it changes leave the sum before, and come back after.
fn step<const N: usize>(
    recipe: &[u8],
    table: Table,
    out: &mut [u8],
    marks: &Marks<N>,
    s: State,
) -> State
    requires { (s.at < length recipe.now) × Ready recipe.now (meant table) s out.old marks.now.slots }
    ensures { (s.at < result.at) × Goes recipe.now (meant table) s out.old result out.new }
{
    let at = s.at;
    let Ok(kind) = recipe::kind_of(table, recipe[at]) else {
        return s;
    };
    let start = at + 1;
    let next = start + kind.body_len();
    let bytes = &recipe[start..next];
    let change = writes::change_of(kind, bytes, s);
    let end = s.end + change.more;
    let old = before(kind, out, change, s.sum);
    let found = look_for(out, marks, kind.refers(bytes));
    writes::put(kind, bytes, out, s, found, change.from);
    State {
        at: next,
        end,
        latest: change.latest,
        sum: after(kind, out, change, s.end, old),
    }
}

// ---- the whole table

// Writes the front of a table without records, and without its checksum.
fn put_header(recipe: &[u8], table: Table, out: &mut [u8])
    requires { 28 ≤ length recipe.now }
    ensures { out.new ≡ over out.old 0 (front_of (meant table) recipe.now (front (meant table))) }
{
    TableHeader::from_body(table, field::rest(recipe, 1)).put(out, 0);
    header::put_front(table, out);
}

// The state of a table without records.
fn start(recipe: &[u8], table: Table, out: &mut [u8]) -> State
    requires { Builds recipe.now (meant table) (length out.old) }
    ensures { (result.at ≡ 28) × ((m : Meaning) → meaning recipe.now ≡ given m → Held out.old recipe.now (meant table) m result out.new []) }
{
    put_header(recipe, table, out);
    let end = table.front();
    let sum = Checksum::default().append(field::part(out, 0, end));
    State {
        at: recipe::HEAD_LEN,
        end,
        latest: Latest {
            nodes: 0,
            place: end,
            count: 0,
            initiators: 0,
            targets: 0,
        },
        sum,
    }
}

// Writes the cell of the record at a place; cells: where the matrix has its first. Each width has a window of its own length.
fn put_cell(
    recipe: &[u8],
    at: usize,
    width: Width,
    cells: usize,
    targets: u32,
    out: &mut [u8],
    sum: Checksum,
) -> Checksum
    requires { (at + 1 + body_width (meant_width width) ≤ length recipe.now) × (entry_at (meant_width width) recipe.now at cells targets + 2 ≤ length out.old) }
    ensures out_after { out.new ≡ over out.old (entry_at (meant_width width) recipe.now at cells targets) (le 2 (value_in (meant_width width) recipe.now at)) }
    ensures value_value { result.value ≡ (sum.value + check_of (sum_of (part out.old (entry_at (meant_width width) recipe.now at cells targets) 2)) + sum_of (le 2 (value_in (meant_width width) recipe.now at))) % 256 }
{
    let from = at + 1;
    let end = from + Cell::body_len(width);
    let cell = Cell::from_body(width, &recipe[from..end]);
    let i = cell.initiator_idx as u32;
    let t = cell.target_idx as u32;
    let place = SystemLocality::entry_place(cells, targets, i, t);
    replace(out, place, cell.value, sum)
}

// Writes the cells of a width that follow, one record after the other, as step does.
fn put_run(recipe: &[u8], width: Width, out: &mut [u8], s: State) -> State
    requires { (ms : List ℕ) × Ready recipe.now hmat s out.old ms }
    ensures { (s.at ≤ result.at) × Goes recipe.now hmat s out.old result out.new }
{
    let latest = s.latest;
    let targets = latest.targets;
    let cells = SystemLocality::target_place(
        latest.place,
        latest.initiators as usize,
        targets as usize,
    );
    let kind = Cell::kind(width);
    let len = 1 + Cell::body_len(width);
    let mut at = s.at;
    let mut sum = s.sum;
    while at < recipe.len() && recipe[at] == kind {
        sum = put_cell(recipe, at, width, cells, targets, out, sum);
        at += len;
    }
    State { at, sum, ..s }
}

// The same of either width; no other table has any.
fn put_cells(recipe: &[u8], table: Table, out: &mut [u8], s: State) -> State
    requires { (ms : List ℕ) × Ready recipe.now (meant table) s out.old ms }
    ensures { (s.at ≤ result.at) × Goes recipe.now (meant table) s out.old result out.new }
{
    let Table::Hmat = table else {
        return s;
    };
    let width = match field::get::<u8>(recipe, s.at) {
        Cell::KIND => Width::Byte,
        Cell::WIDE_KIND => Width::Pair,
        _ => return s,
    };
    put_run(recipe, width, out, s)
}

// Writes the records of a recipe, from a state on, and marks them.
fn put_records<const N: usize>(
    recipe: &[u8],
    table: Table,
    out: &mut [u8],
    marks: &mut Marks<N>,
    first: State,
) -> State
    requires { Ready recipe.now (meant table) first out.old marks.old.slots }
    ensures { (length recipe.now ≤ result.at) × Ends recipe.now (meant table) first out.old marks.old.slots result out.new }
{
    let mut s = first;
    while s.at < recipe.len() {
        let next = step(recipe, table, out, marks, s);
        keep(next.latest, marks);
        s = put_cells(recipe, table, out, next);
    }
    s
}

// The same with N marks of its own; most: how many records the table may have. No other table pays for their room: not inlined, it has
// a frame of its own.
#[inline(never)]
fn put_marked<const N: usize>(
    recipe: &[u8],
    table: Table,
    out: &mut [u8],
    most: usize,
    first: State,
) -> State
    requires fits { N ≤ 65536 }
    requires ready { Ready recipe.now (meant table) first out.old [] }
    ensures { (length recipe.now ≤ result.at) × Ends recipe.now (meant table) first out.old [] result out.new }
{
    let mut marks = Marks::<N>::none(most);
    put_records(recipe, table, out, &mut marks, first)
}

// The same with as many marks as a table of so many bytes asks for where it has references, in a PPTT; elsewhere with one, which nothing asks for.
fn put_all(recipe: &[u8], outline: Outline, out: &mut [u8], first: State) -> State
    requires { Ready recipe.now (meant outline.table) first out.old [] }
    ensures { (length recipe.now ≤ result.at) × Ends recipe.now (meant outline.table) first out.old [] result out.new }
{
    let Outline { table, len } = outline;
    let most = len / ProcessorNode::LEN;
    match table {
        Table::Pptt if most < marks::FEW => {
            put_marked::<{ marks::FEW }>(recipe, table, out, most, first)
        }
        Table::Pptt if len <= marks::LONG => {
            put_marked::<{ marks::MANY }>(recipe, table, out, most, first)
        }
        Table::Pptt => put_marked::<{ marks::MOST }>(recipe, table, out, most, first),
        _ => put_marked::<1>(recipe, table, out, 0, first),
    }
}

// Writes the table of a recipe that builds.
fn write(recipe: &[u8], outline: Outline, out: &mut [u8])
    requires { Builds recipe.now (meant outline.table) (length out.old) }
    ensures { out.new ≡ over out.old 0 (table_of recipe.now) }
{
    let first = start(recipe, outline.table, out);
    let last = put_all(recipe, outline, out, first);
    let sum = last.sum.value();
    TableHeader::set_length(out, last.end as u32);
    TableHeader::set_checksum(out, sum);
}

// Builds the table of a recipe; where it is refused, the buffer stays as it was.
pub fn build(recipe: &[u8], out: &mut [u8]) -> Result<usize, BuildError>
    ensures result_value { shown result ≡ build recipe.now (length out.old) }
    ensures out_after { out.new ≡ built recipe.now out.old }
{
    let outline = recipe::check(recipe)?;
    if out.len() < outline.len {
        return Err(BuildError::NoRoom(outline.len));
    }
    write(recipe, outline, out);
    Ok(outline.len)
}
