// Reading out: the recipe of a table in its normal form, written behind its head record by record.
// One walk measures, another writes what is measured.
#![tactic(auto)]

ghost use Rattle.std.specs.Prelude.{◌≡◌, ◌∷◌, [], ◌++◌, ℕ, ◌+◌, ◌*◌, ◌/◌, ◌%◌, ◌≤◌, ◌<◌, length, replicate};
ghost use Rattle.std.proofs.Math.Option.{none, some};
ghost use Rattle.format.specs.Bytes.{pick, given, unless_found, value, part, over};
ghost use Rattle.format.specs.Layout.{as_is, fld, to, width};
ghost use Rattle.format.specs.Table.{limit};
ghost use Rattle.format.specs.Read.{own};
ghost use Rattle.format.specs.Build.{fitting, written};
ghost use Rattle.format.specs.Out.{read_out, out_written};
ghost use Rattle.format.specs.Form.{cache, matrix, most};
ghost use Rattle.format.specs.Row.{processors, sides, windows, xors, form_in, is_retired};
ghost use Rattle.format.specs.Kind as format;
ghost use Rattle.format.specs.Kind.{body};
ghost use Rattle.format.specs.Normal.{call, each, each_set, settings};
ghost use Rattle.laws.specs.Offsets.{fields_at};
ghost use Rattle.header.specs.Header.{meant};
ghost use Rattle.hmat.specs.Widths.{meant_width};
ghost use Rattle.marks.specs.Marks.{Every};
ghost use Rattle.field.specs.Place.{place_or_none};
ghost use Rattle.frames.specs.Frames.{Passed, number_from};
ghost use Rattle.rows.specs.Rows.{meant_row};
ghost use Rattle.readout.specs.Bounds.{setting_most, settings_most, record_most, far};
ghost use Rattle.readout.specs.Laid.{Laid, Calls, up_to};
ghost use Rattle.readout.specs.Places.{Small, ordinal_at, setting, nth, value_calls, cell_calls, calls_in, calls_as, noted, or_else, calls_at, measured, recipe_as, out_as};
ghost use Rattle.readout.specs.Answers.{shown, number_of, place_of};
ghost use Rattle.readout.specs.declared.ReadOutError.TheVariants.{Refused};

use cedt::{CxlFixedMemory, CxlHostBridge, XorInterleaveMath};
use frames::Refusal;
use header::{Table, TableHeader};
use hmat::{Cell, MemoryProximityDomain, MemorySideCache, SystemLocality, Value, Width};
use marks::{Mark, Marks};
use pptt::{CacheHandle, CacheNode, ProcessorHandle, ProcessorNode, Resource};
use rows::Row;
use srat::{GenericInitiator, MemoryAffinity, RintcAffinity};

// ---- references

// The number of the record at v. Only a PPTT has references: named as a constant, its framing is known where the walk is compiled.
fn number(t: Table, c: &[u8], from: Mark, v: usize) -> Option<usize>
    ensures { result ≡ place_or_none (number_from (meant t) c.now v from) }
{
    match t {
        Table::Pptt => frames::number(Table::Pptt, c, from, v),
        _ => frames::number(t, c, from, v),
    }
}

// A walk over a table's own bytes c that has come to the record at own. The marks, under their places, are of records that it has come to.
// Only a PPTT has references.
#[derive(Clone, Copy)]
struct Walk<'a, const N: usize> {
    t: Table,
    c: &'a [u8],
    marks: &'a Marks<N>,
    own: usize,
    ghost few: { N ≤ 65536 },
    ghost passed: { Every (Passed (meant t) c.now) marks.now.slots },
}

impl<const N: usize> Walk<'_, N> {
    // The how manieth record starts at v, of those before the one at own; 0 for none.
    fn ordinal(&self, v: u32) -> u32
        ensures { result ≡ ordinal_at (meant self.now.t) self.now.c.now self.now.own v % 4294967296 }
    {
        let v = v as usize;
        if self.own <= v {
            return 0;
        }
        let first = Mark {
            nodes: 0,
            place: self.t.front() as u32,
        };
        let near = self.marks.toward_place(first, v);
        let i = number(self.t, self.c, near, v).unwrap_or(0);
        (i % 4294967296) as u32
    }
}

// ---- lists

// What is laid for each of the numbers below n, one behind the other: put lays that of a number, and says how long it is.
// Returns the place behind it, as all that follow do.
fn put_each<F: Fn(usize, &mut [u8], usize) -> usize>(
    n: usize,
    put: F,
    out: &mut [u8],
    at: usize,
) -> usize
    ghost calls: { Calls }
    requires can { (i p : ℕ) (o : _) → i < n → F.pre put i o p }
    requires lays { (i p r : ℕ) (o o' : _) → F.post put i o p r o' → (o'.now ≡ over o.now p (calls.of i)) × (r ≡ length (calls.of i)) }
    requires room { (n ≤ limit) × (at ≤ 4 * far) }
    ensures { Laid out.old out.new at (up_to calls.of n) result }
{
    let mut p = at;
    for i in 0..n {
        p += put(i, out, p);
    }
    p
}

// The handles of a side cache.
#[tactic(auto, unfolding(format::specs::Layout::width, format::specs::Kind::body))]
fn put_handles(body: &[u8], n: usize, out: &mut [u8], at: usize) -> usize
    requires { (n ≤ limit) × (at ≤ 3 * far) }
    ensures { Laid out.old out.new at (each format.Handle (fields_at as_is (replicate n (fld 2)) body.now 32)) result × (result ≤ at + 3 * n) }
{
    put_each(
        n,
        |i, o, p| MemorySideCache::smbios_handle(body, 0, i).put_body(o, p),
        out,
        at,
    )
}

// The targets of a window.
#[tactic(auto, unfolding(format::specs::Layout::width, format::specs::Kind::body))]
fn put_targets(body: &[u8], n: usize, out: &mut [u8], at: usize) -> usize
    requires { (n ≤ limit) × (at ≤ 3 * far) }
    ensures { Laid out.old out.new at (each format.WindowTarget (fields_at as_is (replicate n (fld 4)) body.now 36)) result × (result ≤ at + 5 * n) }
{
    put_each(
        n,
        |i, o, p| CxlFixedMemory::interleave_target(body, 0, i).put_body(o, p),
        out,
        at,
    )
}

// The maps of XOR mathematics.
#[tactic(auto, unfolding(format::specs::Layout::width, format::specs::Kind::body))]
fn put_maps(body: &[u8], n: usize, out: &mut [u8], at: usize) -> usize
    requires { (n ≤ limit) × (at ≤ 3 * far) }
    ensures { Laid out.old out.new at (each format.Map (fields_at as_is (replicate n (fld 8)) body.now 8)) result × (result ≤ at + 9 * n) }
{
    put_each(
        n,
        |i, o, p| XorInterleaveMath::xormap(body, 0, i).put_body(o, p),
        out,
        at,
    )
}

// The number of the initiator or the target at j of those from start on, unless it is the unset one. Returns how long it is.
fn put_value(
    width: Width,
    kind: u8,
    body: &[u8],
    start: usize,
    j: usize,
    out: &mut [u8],
    at: usize,
) -> usize
    ensures out_after { out.new ≡ over out.old at (value_calls (meant_width width) kind j (nth 4 body.now start j)) }
    ensures value { result ≡ length (value_calls (meant_width width) kind j (nth 4 body.now start j)) }
{
    let value = field::get::<u32>(body, field::behind(start, Value::LEN, j));
    if value == Value::UNSET {
        return 0;
    }
    let x = Value {
        idx: (j % 65536) as u16,
        value,
    };
    x.put_body(width, kind, out, at)
}

// The numbers of a matrix's initiators or targets.
fn put_values(
    width: Width,
    kind: u8,
    body: &[u8],
    start: usize,
    n: usize,
    out: &mut [u8],
    at: usize,
) -> usize
    requires { (start ≤ limit) × (n ≤ limit) × (at ≤ 3 * far) }
    ensures { Laid out.old out.new at (each_set (setting (meant_width width) kind) 0 0 (fields_at as_is (replicate n (fld 4)) body.now start)) result × (result ≤ at + setting_most * n) }
{
    put_each(
        n,
        move |j, o, p| put_value(width, kind, body, start, j, o, p),
        out,
        at,
    )
}

// The cell of row i and column j, of those of the row from start on, unless it is unset. Returns how long it is.
fn put_cell(
    width: Width,
    i: usize,
    body: &[u8],
    start: usize,
    j: usize,
    out: &mut [u8],
    at: usize,
) -> usize
    ensures out_after { out.new ≡ over out.old at (cell_calls (meant_width width) i j (nth 2 body.now start j)) }
    ensures value { result ≡ length (cell_calls (meant_width width) i j (nth 2 body.now start j)) }
{
    let value = field::get::<u16>(body, field::behind(start, Cell::LEN, j));
    if value == SystemLocality::UNREACHABLE_DOMAIN {
        return 0;
    }
    let cell = Cell {
        initiator_idx: (i % 65536) as u16,
        target_idx: (j % 65536) as u16,
        value,
    };
    cell.put_body(width, out, at)
}

// The cells of row i of a matrix of t targets.
fn put_row(
    width: Width,
    i: usize,
    body: &[u8],
    start: usize,
    t: usize,
    out: &mut [u8],
    at: usize,
) -> usize
    requires { (start ≤ 3 * limit) × (t ≤ limit) × (at ≤ 4 * far) }
    ensures { Laid out.old out.new at (up_to (λ j. cell_calls (meant_width width) i j (value (part body.now (start + 2 * j) 2))) t) result × (result ≤ at + setting_most * t) }
{
    put_each(
        t,
        move |j, o, p| put_cell(width, i, body, start, j, o, p),
        out,
        at,
    )
}

// The cells of a matrix, row by row.
fn put_cells(
    width: Width,
    body: &[u8],
    start: usize,
    i: usize,
    t: usize,
    out: &mut [u8],
    at: usize,
) -> usize
    requires { (start ≤ limit) × (i ≤ most) × (t ≤ most) × (at ≤ 3 * far) }
    ensures { Laid out.old out.new at (each_set (λ e v. call (format.Cell (meant_width width)) (e / t ∷ e % t ∷ v ∷ [])) 65535 0 (fields_at as_is (replicate (i * t) (fld 2)) body.now start)) result × (result ≤ at + setting_most * (i * t)) }
{
    let mut p = at;
    for row in 0..i {
        p = put_row(width, row, body, start + Cell::LEN * (row * t), t, out, p);
    }
    p
}

// ---- records: body is the bytes of one
// The nodes of a PPTT are read from windows of constant length: that saves the test of each place.

impl<const N: usize> Walk<'_, N> {
    // The resource at i of a processor.
    fn put_resource(&self, body: &[u8], i: usize, out: &mut [u8], at: usize) -> usize
        requires { i < 4294967296 }
        ensures out_after { out.new ≡ over out.old at (call format.Resource (ordinal_at (meant self.now.t) self.now.c.now self.now.own (value (part body.now (20 + 4 * i) 4)) % 4294967296 ∷ [])) }
        ensures value { result ≡ length (call format.Resource (ordinal_at (meant self.now.t) self.now.c.now self.now.own (value (part body.now (20 + 4 * i) 4)) % 4294967296 ∷ [])) }
    {
        let handle = ProcessorNode::resource(body, 0, i as u32);
        let cache = CacheHandle(self.ordinal(handle.0));
        Resource { cache }.put_body(out, at)
    }

    // The resources of a processor.
    fn put_resources(&self, body: &[u8], n: usize, out: &mut [u8], at: usize) -> usize
        requires { (n ≤ limit) × (at ≤ 3 * far) }
        ensures { Laid out.old out.new at (each format.Resource (fields_at (ordinal_at (meant self.now.t) self.now.c.now self.now.own) (replicate n (to 1)) body.now 20)) result × (result ≤ at + 5 * n) }
    {
        // Not by put_each: tried, its ghost value cannot be picked in a function with a const parameter.
        let mut p = at;
        for i in 0..n {
            p += self.put_resource(body, i, out, p);
        }
        p
    }

    fn put_processor(&self, body: &[u8], out: &mut [u8], at: usize) -> usize
        requires { (20 ≤ length body.now) × (length body.now ≤ limit) × (at ≤ far) }
        ensures { Laid out.old out.new at (calls_in (ordinal_at (meant self.now.t) self.now.c.now self.now.own) (form_in processors body.now) body.now) result × (result ≤ at + record_most) }
    {
        let n = ProcessorNode::resources_in(body.len());
        let node = ProcessorNode::get(&body[..ProcessorNode::LEN], 0);
        let parent = ProcessorHandle(self.ordinal(node.parent.0));
        let p = at + node.named(parent).put_body(out, at);
        self.put_resources(body, n, out, p)
    }

    fn put_cache(&self, body: &[u8], out: &mut [u8], at: usize) -> usize
        requires { (length body.now ≡ 28) × (at ≤ far) }
        ensures { Laid out.old out.new at (calls_in (ordinal_at (meant self.now.t) self.now.c.now self.now.own) cache body.now) result × (result ≤ at + 28) }
    {
        let node = CacheNode::get(&body[..CacheNode::LEN], 0);
        let next_level = CacheHandle(self.ordinal(node.next_level.0));
        at + node.named(next_level).put_body(out, at)
    }
}

// The lists of a matrix of i initiators and t targets: only what is not unset.
fn put_settings(width: Width, body: &[u8], i: usize, t: usize, out: &mut [u8], at: usize) -> usize
    requires { (i ≤ most) × (t ≤ most) × (at ≤ 2 * far) }
    ensures { ((g : ℕ → ℕ) → Laid out.old out.new at (settings (meant_width width) i t (fields_at g (replicate (i + t) (fld 4) ++ replicate (i * t) (fld 2)) body.now 32)) result) × (result ≤ at + settings_most) }
{
    let initiators = SystemLocality::initiator_place(0, 0);
    let targets = SystemLocality::target_place(0, i, 0);
    let cells = SystemLocality::target_place(0, i, t);
    let initiator = Value::initiator_kind(width);
    let target = Value::target_kind(width);
    let p = put_values(width, initiator, body, initiators, i, out, at);
    let q = put_values(width, target, body, targets, t, out, p);
    put_cells(width, body, cells, i, t, out, q)
}

fn put_matrix(body: &[u8], out: &mut [u8], at: usize) -> usize
    requires { (value (part body.now 12 4) ≤ most) × (value (part body.now 16 4) ≤ most) × (at ≤ far) }
    ensures { ((g : ℕ → ℕ) → Laid out.old out.new at (calls_in g (matrix (value (part body.now 12 4)) (value (part body.now 16 4))) body.now) result) × (result ≤ at + record_most) }
{
    let node = SystemLocality::get(body, 0);
    let p = at + node.put_body(out, at);
    put_settings(
        node.width(),
        body,
        node.initiators as usize,
        node.targets as usize,
        out,
        p,
    )
}

fn put_side(body: &[u8], out: &mut [u8], at: usize) -> usize
    requires { at ≤ far }
    ensures { ((g : ℕ → ℕ) → Laid out.old out.new at (calls_in g (form_in sides body.now) body.now) result) × (result ≤ at + record_most) }
{
    let node = MemorySideCache::get(body, 0);
    let p = at + node.put_body(out, at);
    put_handles(body, node.smbios_handles as usize, out, p)
}

fn put_window(body: &[u8], out: &mut [u8], at: usize) -> usize
    requires { at ≤ far }
    ensures { ((g : ℕ → ℕ) → Laid out.old out.new at (calls_in g (form_in windows body.now) body.now) result) × (result ≤ at + record_most) }
{
    let node = CxlFixedMemory::get(body, 0);
    let p = at + node.put_body(out, at);
    put_targets(body, node.num_interleaved_ways() as usize, out, p)
}

fn put_maths(body: &[u8], out: &mut [u8], at: usize) -> usize
    requires { at ≤ far }
    ensures { ((g : ℕ → ℕ) → Laid out.old out.new at (calls_in g (form_in xors body.now) body.now) result) × (result ≤ at + record_most) }
{
    let node = XorInterleaveMath::get(body, 0);
    let p = at + node.put_body(out, at);
    put_maps(body, node.xormaps as usize, out, p)
}

// Whether no recipe says a record of the row any more.
fn is_retired(row: Row) -> bool
    ensures { result ≡ is_retired (some (meant_row row)) }
{
    matches!(row, Row::OldRintcs)
}

impl<const N: usize> Walk<'_, N> {
    // The calls of a record of a row of the table. It has the length that its row asks for, a matrix no more initiators and targets than the most;
    // processors and caches are of a PPTT.
    fn put_record(&self, row: Row, body: &[u8], out: &mut [u8], at: usize) -> usize
        requires { Small (some (meant_row row)) body.now × (at ≤ far) }
        ensures { Laid out.old out.new at (calls_as (ordinal_at (meant self.now.t) self.now.c.now self.now.own) (some (meant_row row)) body.now) result × (result ≤ at + record_most) }
    {
        match row {
            Row::Processors => self.put_processor(body, out, at),
            Row::Caches => self.put_cache(body, out, at),
            Row::Memories => at + MemoryAffinity::get(body, 0).put_body(out, at),
            Row::Initiators => at + GenericInitiator::get(body, 0).put_body(out, at),
            Row::Rintcs => at + RintcAffinity::get(body, 0).put_body(out, at),
            Row::Domains => at + MemoryProximityDomain::get(body, 0).put_body(out, at),
            Row::Matrices(_) => put_matrix(body, out, at),
            Row::Sides => put_side(body, out, at),
            Row::Bridges => at + CxlHostBridge::get(body, 0).put_body(out, at),
            Row::Windows => put_window(body, out, at),
            Row::Xors => put_maths(body, out, at),
            Row::OldRintcs => at,
        }
    }
}

// How many bytes these calls are: the lists of an HMAT or a CEDT are counted over a buffer without room.
fn calls_len(row: Row, body: &[u8]) -> usize
    requires { Small (some (meant_row row)) body.now }
    ensures { ((g : ℕ → ℕ) → result ≡ length (calls_as g (some (meant_row row)) body.now)) × (result ≤ record_most) }
{
    let mut none = [0u8; 0];
    match row {
        Row::Processors => {
            (1 + ProcessorNode::BODY)
                + (1 + Resource::BODY) * ProcessorNode::resources_in(body.len())
        }
        Row::Caches => 1 + CacheNode::BODY,
        Row::Memories => 1 + MemoryAffinity::BODY,
        Row::Initiators => GenericInitiator::get(body, 0).put_body(&mut none, 0),
        Row::Rintcs => 1 + RintcAffinity::BODY,
        Row::Domains => 1 + MemoryProximityDomain::BODY,
        Row::Matrices(_) => put_matrix(body, &mut none, 0),
        Row::Sides => put_side(body, &mut none, 0),
        Row::Bridges => 1 + CxlHostBridge::BODY,
        Row::Windows => put_window(body, &mut none, 0),
        Row::Xors => put_maths(body, &mut none, 0),
        Row::OldRintcs => 0,
    }
}

// ---- answers

// Why nothing is read out.
#[derive(Clone, Copy, Debug, PartialEq, Eq)]
pub enum ReadOutError {
    // The table is refused by a reader that knows all rows.
    Refused(Refusal),
    // The table is of another revision than the one that is built.
    Revision,
    // The first unknown record's place.
    Unknown(usize),
    // The place of the first record of a retired row.
    Retired(usize),
    // The bytes needed.
    Room(usize),
}

impl From<Refusal> for ReadOutError {
    ghost from_gives = { λ r e. e ≡ Refused r };

    fn from(r: Refusal) -> Self {
        Self::Refused(r)
    }
}

impl ReadOutError {
    pub fn number(self) -> u32
        ensures { result ≡ number_of (shown (Err self)) }
    {
        match self {
            ReadOutError::Refused(r) => r.number(),
            ReadOutError::Revision => 30,
            ReadOutError::Unknown(_) => 29,
            ReadOutError::Retired(_) => 32,
            ReadOutError::Room(_) => 31,
        }
    }

    pub fn place(self) -> usize
        ensures { result ≡ place_of (shown (Err self)) }
    {
        match self {
            ReadOutError::Refused(r) => r.place(),
            ReadOutError::Revision => 8,
            ReadOutError::Unknown(p) => p,
            ReadOutError::Retired(p) => p,
            ReadOutError::Room(n) => n,
        }
    }
}

// ---- the whole table

// The place of the first record of a retired row: the one so far, or else this record's.
fn first_retired(old: Option<usize>, row: Row, p: usize) -> Option<usize>
    ensures { noted result ≡ or_else (noted old) (pick (is_retired (some (meant_row row))) (some p) none) }
{
    old.or(is_retired(row).then_some(p))
}

// What is measured where no record is unknown.
fn unless_retired(old: Option<usize>, n: usize) -> Result<usize, ReadOutError>
    ensures { shown result ≡ unless_found 32 as_is (noted old) (given n) }
{
    match old {
        Some(p) => Err(ReadOutError::Retired(p)),
        None => Ok(n),
    }
}

// How long the recipe of a table's own bytes is, head and calls, up to the first unknown record.
fn measure(t: Table, revision: u8, c: &[u8]) -> Result<usize, ReadOutError>
    requires { length c.now ≤ limit }
    ensures { shown result ≡ measured (meant t) revision c.now }
{
    let mut p = t.front();
    let mut q = 1 + TableHeader::BODY;
    let mut old = None;
    while p < c.len() {
        let s = field::rest(c, p);
        if !frames::framed(t, s) {
            return unless_retired(old, q);
        }
        let body = frames::record_in(t, s);
        let Some(row) = rows::row_of(t, revision, body) else {
            return Err(ReadOutError::Unknown(p));
        };
        q += calls_len(row, body);
        old = first_retired(old, row, p);
        p += body.len();
    }
    unless_retired(old, q)
}

// The calls of all records of a table's own bytes behind a head, up to the first unknown one.
// Each record is marked under its place, for the references behind it.
fn put_records<const N: usize>(
    t: Table,
    revision: u8,
    c: &[u8],
    marks: &mut Marks<N>,
    out: &mut [u8],
)
    requires few { N ≤ 65536 }
    requires passed { Every (Passed (meant t) c.now) marks.old.slots }
    requires short { length c.now ≤ limit }
    ensures { out.new ≡ over out.old 28 (calls_at (meant t) revision c.now) }
{
    let mut p = t.front();
    let mut q = 1 + TableHeader::BODY;
    let mut count: u32 = 0;
    while p < c.len() {
        let mark = Mark {
            nodes: count,
            place: p as u32,
        };
        marks.note(mark, p);
        let s = field::rest(c, p);
        if !frames::framed(t, s) {
            return;
        }
        let body = frames::record_in(t, s);
        let Some(row) = rows::row_of(t, revision, body) else {
            return;
        };
        let walk = Walk {
            t,
            c,
            marks,
            own: p,
        };
        q = walk.put_record(row, body, out, q);
        p += body.len();
        count += 1;
    }
}

// The same with N marks of its own. No other table pays for their room: not inlined, it has a frame of its own.
#[inline(never)]
fn put_marked<const N: usize>(t: Table, revision: u8, c: &[u8], out: &mut [u8])
    requires few { N ≤ 65536 }
    requires short { length c.now ≤ limit }
    ensures { out.new ≡ over out.old 28 (calls_at (meant t) revision c.now) }
{
    let mut marks = Marks::<N>::none(c.len());
    put_records(t, revision, c, &mut marks, out);
}

// The same with as many marks as a PPTT of so many bytes asks for; and with one, which nothing asks for, where there are no references.
fn put_calls(t: Table, revision: u8, c: &[u8], out: &mut [u8])
    requires { length c.now ≤ limit }
    ensures { out.new ≡ over out.old 28 (calls_at (meant t) revision c.now) }
{
    match t {
        Table::Pptt if c.len() < ProcessorNode::LEN * marks::FEW => {
            put_marked::<{ marks::FEW }>(t, revision, c, out)
        }
        Table::Pptt if c.len() <= marks::LONG => {
            put_marked::<{ marks::MANY }>(t, revision, c, out)
        }
        Table::Pptt => put_marked::<{ marks::MOST }>(t, revision, c, out),
        _ => put_marked::<1>(t, revision, c, out),
    }
}

// Writes the recipe of n bytes, where there is room for it.
fn put_recipe(t: Table, table: &[u8], n: usize, out: &mut [u8]) -> Result<usize, ReadOutError>
    requires { (36 ≤ length table.now) × (length (own table.now) ≤ limit) }
    ensures result_value { shown result ≡ fitting 31 (length out.old) n }
    ensures out_after { out.new ≡ written (fitting 31 (length out.old) n) (recipe_as (meant t) table.now) out.old }
{
    if out.len() < n {
        return Err(ReadOutError::Room(n));
    }
    TableHeader::put_body(t, table, out);
    put_calls(t, TableHeader::revision_in(table), frames::own(table), out);
    Ok(n)
}

// Reads out a table whose header is good, as far as its records are frames.
fn read_as(t: Table, table: &[u8], out: &mut [u8]) -> Result<usize, ReadOutError>
    requires { (36 ≤ length table.now) × (length (own table.now) ≤ limit) }
    ensures result_value { shown result ≡ out_as (meant t) table.now (length out.old) }
    ensures out_after { out.new ≡ written (out_as (meant t) table.now (length out.old)) (recipe_as (meant t) table.now) out.old }
{
    let revision = TableHeader::revision_in(table);
    if revision != t.revision() {
        return Err(ReadOutError::Revision);
    }
    let n = measure(t, revision, frames::own(table))?;
    put_recipe(t, table, n, out)
}

// Writes the recipe of a table, in its normal form, into the front of a buffer; where it is refused, nothing.
// An accepted table is signed: its header, judged and summed within, is not judged again.
pub fn read_out(table: &[u8], out: &mut [u8]) -> Result<usize, ReadOutError>
    ensures result_value { shown result ≡ read_out table.now (length out.old) }
    ensures out_after { out.new ≡ out_written table.now out.old }
{
    read::accept(table, u32::MAX)?;
    let t = frames::signed(table).ok_or(Refusal::BadSign)?;
    read_as(t, table, out)
}
