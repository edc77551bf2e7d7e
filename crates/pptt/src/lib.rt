// The nodes of a PPTT: processors with their resources, and caches, the handles by which they name each other, and the two writings of each:
// a record of the table, where a handle is a place, and a kind byte with a body of a recipe, where it is an ordinal.
// What a PPTT's record is, by constants, places and ranges, stands here alone.
// Any place of a buffer is allowed: what would reach past the end is left out, and what is read there counts as 0.
#![tactic(auto)]

ghost use Rattle.std.specs.Prelude.{◌≡◌, [], true, ◌-◌, ◌/◌, ◌≤◌, eqb, leb, length, drop, replicate};
ghost use Rattle.std.specs.Int.Bits.{bit_or};
ghost use Rattle.format.specs.Bytes.{pick, at, over, bits};
ghost use Rattle.format.specs.Layout.{as_is, fields, fixed_ok};
ghost use Rattle.format.specs.Form.{processor, cache, size, layout, cache_attributes};
ghost use Rattle.format.specs.Node.{node, bytes, node_at};
ghost use Rattle.format.specs.Kind.{Processor, Cache, body};
ghost use Rattle.format.specs.Kind as format;
ghost use Rattle.format.specs.Normal.{call, calls_of_node};
ghost use Rattle.format.specs.Field.{bad_field};
ghost use Rattle.format.specs.Row.{processors, column, form_in};
ghost use Rattle.format.specs.Read.{sound};
ghost use Rattle.field.specs.Place.{place_or_none};
ghost use Rattle.pptt.specs.Processor.{processor_fields, processor_shown, processor_node, processor_of, flagged, fixed_part, with_resource, grown, processor_in, resource_in, resource_fields};
ghost use Rattle.pptt.specs.Cache.{cache_node, cache_shown, cache_before, made, builder_of, holding, noted, allocation_bits, type_bits, policy_bits};

// Where the length stands in a record.
pub const LENGTH_AT: usize = 1;

// The place of a processor's record, or its ordinal; a cache's never stands for it.
#[derive(Clone, Copy)]
pub struct ProcessorHandle(pub u32);

impl ProcessorHandle {
    pub const NONE: ProcessorHandle = ProcessorHandle(0);
}

// The place of a cache's record, or its ordinal.
#[derive(Clone, Copy, Default)]
pub struct CacheHandle(pub u32);

impl CacheHandle {
    pub const NONE: CacheHandle = CacheHandle(0);
}

// A processor; its resources, of which only the number stands here, follow the fixed part of its record.
#[derive(Clone, Copy)]
pub struct ProcessorNode {
    pub flags: u32,
    pub parent: ProcessorHandle,
    pub acpi_processor_id: u32,
    pub resources: u32,
}

impl ProcessorNode {
    pub const PHYSICAL: u32 = 1 << 0;

    pub const VALID: u32 = 1 << 1;

    pub const THREAD: u32 = 1 << 2;

    pub const LEAF: u32 = 1 << 3;

    pub const IDENTICAL: u32 = 1 << 4;

    // The kind byte, and the length of the body behind it.
    pub const KIND: u8 = 16;

    pub const BODY: usize = 12;

    pub const TYPE: u8 = 0;

    // without resources
    pub const LEN: usize = 20;

    // How many values a reading call shows.
    pub const FIELDS: usize = 4;

    const MAX_RESOURCES: u8 = 58;

    // with as many as it takes
    const LEN_MOST: usize = Self::LEN + Resource::LEN * Self::MAX_RESOURCES as usize;

    // Where the fields stand in a body.
    pub const FLAGS_AT: usize = 0;

    pub const PARENT_AT: usize = 4;

    pub const ID_AT: usize = 8;

    // Where the parent stands in a record.
    const PARENT_OFFSET: usize = 8;

    // Where the number of resources stands in a record.
    const COUNT_OFFSET: usize = 16;

    // Kind, flags, parent, id.
    const BODY_WIDTHS: [usize; 4] = [1, 4, 4, 4];

    // Type, length, 2 zero, flags, parent, id, n.
    const WIDTHS: [usize; 7] = [1, 1, 2, 4, 4, 4, 4];

    pub fn new(parent: ProcessorHandle, acpi_processor_id: u32) -> Self
        ensures { result ≡ processor_of 0 parent acpi_processor_id 0 }
    {
        Self {
            flags: 0,
            parent,
            acpi_processor_id,
            resources: 0,
        }
    }

    pub fn physical(mut self) -> Self
        ensures { result ≡ flagged 0 self }
    {
        self.flags |= Self::PHYSICAL;
        self
    }

    pub fn valid(mut self) -> Self
        ensures { result ≡ flagged 1 self }
    {
        self.flags |= Self::VALID;
        self
    }

    pub fn thread(mut self) -> Self
        ensures { result ≡ flagged 2 self }
    {
        self.flags |= Self::THREAD;
        self
    }

    pub fn leaf(mut self) -> Self
        ensures { result ≡ flagged 3 self }
    {
        self.flags |= Self::LEAF;
        self
    }

    pub fn identical(mut self) -> Self
        ensures { result ≡ flagged 4 self }
    {
        self.flags |= Self::IDENTICAL;
        self
    }

    // The same node under another parent: its place for its ordinal, or the other way.
    pub fn named(self, parent: ProcessorHandle) -> Self
        ensures { result ≡ processor_of self.flags parent self.acpi_processor_id self.resources }
    {
        Self { parent, ..self }
    }

    // The length of the record, its resources included.
    pub fn len(self) -> usize
        ensures { result ≡ size (processor self.resources) }
    {
        Self::LEN + Resource::LEN * self.resources as usize
    }

    // How many resources a record of so many bytes has room for.
    pub fn resources_in(len: usize) -> usize
        ensures { result ≡ (len - 20) / 4 }
    {
        len.saturating_sub(Self::LEN) / Resource::LEN
    }

    // The Length column of the row.
    pub fn fits(row: &[u8]) -> bool
        ensures { result ≡ column processors row.now }
    {
        let len = row.len();
        if len < Self::LEN {
            return false;
        }
        if Self::LEN_MOST < len {
            return false;
        }
        len % Resource::LEN == 0
    }

    // Zeros, fixed values and the inner count in the fixed part of a record of n resources.
    fn is_head(head: &[u8], n: usize) -> bool
        requires { n ≤ 4611686018427387898 }
        ensures { result ≡ fixed_ok (layout (processor n)) head.now }
    {
        if field::get::<u8>(head, 0) != Self::TYPE {
            return false;
        }
        if field::get::<u8>(head, 1) as usize != Self::LEN + Resource::LEN * n {
            return false;
        }
        if field::get::<u16>(head, 2) != 0 {
            return false;
        }
        field::get::<u32>(head, Self::COUNT_OFFSET) as usize == n
    }

    // The same of a record; no field has a range. A window of constant length saves the test of each place.
    pub fn is_fixed(row: &[u8]) -> bool
        ensures { result ≡ fixed_ok (layout (form_in processors row.now)) row.now }
    {
        let n = Self::resources_in(row.len());
        if row.len() < Self::LEN {
            return Self::is_head(row, n);
        }
        Self::is_head(&row[..Self::LEN], n)
    }

    // The parent in a body.
    pub fn parent_in(bytes: &[u8]) -> ProcessorHandle
        ensures { result.0 ≡ at (fields (body Processor) bytes.now) 1 }
    {
        ProcessorHandle(field::get(bytes, Self::PARENT_AT))
    }

    // The node of a body.
    pub fn from_body(bytes: &[u8]) -> Self
        ensures { processor_node result [] ≡ node (processor 0) (fields (body Processor) bytes.now) }
    {
        Self {
            flags: field::get(bytes, Self::FLAGS_AT),
            parent: Self::parent_in(bytes),
            acpi_processor_id: field::get(bytes, Self::ID_AT),
            resources: 0,
        }
    }

    // Writes kind byte and body, without resources; how many bytes that is.
    pub fn put_body(self, out: &mut [u8], at: usize) -> usize
        ensures out_after { out.new ≡ over out.old at (call Processor (processor_fields self)) }
        ensures value { result ≡ length (call Processor (processor_fields self)) }
    {
        let vs = [
            Self::KIND as u64,
            self.flags as u64,
            self.parent.0 as u64,
            self.acpi_processor_id as u64,
        ];
        field::put_all(out, at, &Self::BODY_WIDTHS, &vs);
        1 + Self::BODY
    }

    // Writes the values that a reading call shows, in their order.
    pub fn put_fields(self, answer: &mut [u64], at: usize)
        ensures { answer.new ≡ over answer.old at (processor_shown self) }
    {
        let vs = [
            self.flags as u64,
            self.parent.0 as u64,
            self.acpi_processor_id as u64,
            self.resources as u64,
        ];
        field::copy(answer, at, &vs);
    }

    // Writes the fixed part of the record.
    pub fn put(self, out: &mut [u8], at: usize)
        ensures { out.new ≡ over out.old at (fixed_part self.resources (processor_fields self)) }
    {
        let vs = [
            Self::TYPE as u64,
            self.len() as u64,
            0,
            self.flags as u64,
            self.parent.0 as u64,
            self.acpi_processor_id as u64,
            self.resources as u64,
        ];
        field::put_all(out, at, &Self::WIDTHS, &vs);
    }

    // Writes the i-th resource of the record at a place. Past the end there is nothing to write, and the sum might wrap.
    fn put_resource(out: &mut [u8], at: usize, i: u32, c: CacheHandle)
        ensures { out.new ≡ with_resource out.old at i c }
    {
        if out.len() <= at {
            return;
        }
        field::put(out, at + (Self::LEN + Resource::LEN * i as usize), c.0);
    }

    // Whether a record of n resources takes no more.
    pub fn is_full(n: u8) -> bool
        ensures { result ≡ leb 58 n }
    {
        Self::MAX_RESOURCES <= n
    }

    // Makes of the record of n resources at a place the record of one more: the list is in the record, not in the node.
    pub fn add_cache(out: &mut [u8], at: usize, n: u32, c: CacheHandle)
        ensures { out.new ≡ grown out.old at n c }
    {
        if out.len() <= at {
            return;
        }
        let count = n as u64 + 1;
        let len = Self::LEN as u64 + Resource::LEN as u64 * count;
        field::put_all(out, at + 1, &[1], &[len]);
        field::put_all(out, at + Self::COUNT_OFFSET, &[4], &[count]);
        Self::put_resource(out, at, n, c);
    }

    // The node of the record at a place, of as many resources as it says.
    pub fn get(table: &[u8], at: usize) -> Self
        ensures { processor_shown result ≡ processor_in (drop at table.now) }
    {
        let r = field::rest(table, at);
        Self {
            flags: field::get(r, 4),
            parent: Self::parent_of(r),
            acpi_processor_id: field::get(r, 12),
            resources: field::get(r, Self::COUNT_OFFSET),
        }
    }

    // The parent in a record.
    pub fn parent_of(row: &[u8]) -> ProcessorHandle
        ensures { result.0 ≡ at (fields (layout (processor 0)) row.now) 1 }
    {
        ProcessorHandle(field::get(row, Self::PARENT_OFFSET))
    }

    // The i-th resource of the record at a place.
    pub fn resource(table: &[u8], at: usize, i: u32) -> CacheHandle
        ensures { result ≡ resource_in (drop at table.now) i }
    {
        let r = field::rest(table, at);
        CacheHandle(field::get(r, Self::LEN + Resource::LEN * i as usize))
    }
}

// What a processor has of its own: a cache.
#[derive(Clone, Copy)]
pub struct Resource {
    pub cache: CacheHandle,
}

impl Resource {
    // The kind byte, and the length of the body behind it.
    pub const KIND: u8 = 17;

    pub const BODY: usize = 4;

    // in a processor's record
    pub const LEN: usize = 4;

    // Where the field stands in a body.
    pub const CACHE_AT: usize = 0;

    // Kind, cache.
    const BODY_WIDTHS: [usize; 2] = [1, 4];

    // The resource of a body.
    pub fn from_body(bytes: &[u8]) -> Self
        ensures { resource_fields result ≡ fields (body format.Resource) bytes.now }
    {
        Self {
            cache: CacheHandle(field::get(bytes, Self::CACHE_AT)),
        }
    }

    // Writes kind byte and body; how many bytes that is.
    pub fn put_body(self, out: &mut [u8], at: usize) -> usize
        ensures out_after { out.new ≡ over out.old at (call format.Resource (resource_fields self)) }
        ensures value { result ≡ length (call format.Resource (resource_fields self)) }
    {
        let vs = [Self::KIND as u64, self.cache.0 as u64];
        field::put_all(out, at, &Self::BODY_WIDTHS, &vs);
        1 + Self::BODY
    }
}

#[derive(Clone, Copy)]
pub enum AllocationType {
    Read = 0,
    Write = 1 << 0,
    Both = 1 << 1,
}

#[derive(Clone, Copy)]
pub enum CacheType {
    Data = 0 << 2,
    Instruction = 1 << 2,
    Unified = 1 << 3,
}

#[derive(Clone, Copy)]
pub enum WritePolicy {
    Writeback = 0 << 4,
    Writethrough = 1 << 4,
}

// Sets each field of a cache with the flag that says so.
#[derive(Clone, Copy, Default)]
pub struct CacheNodeBuilder {
    node: CacheNode,
}

impl CacheNodeBuilder {
    pub const SIZE: u32 = 1 << 0;

    pub const SETS: u32 = 1 << 1;

    pub const ASSOCIATIVITY: u32 = 1 << 2;

    pub const ALLOCATION: u32 = 1 << 3;

    pub const TYPE: u32 = 1 << 4;

    pub const POLICY: u32 = 1 << 5;

    pub const LINE_SIZE: u32 = 1 << 6;

    pub const ID: u32 = 1 << 7;

    pub fn next_level(mut self, c: CacheHandle) -> Self
        ensures { result ≡ holding 1 c.0 self }
    {
        self.node.next_level = c;
        self
    }

    pub fn size(mut self, size: u32) -> Self
        ensures { result ≡ noted 0 2 size self }
    {
        self.node.size = size;
        self.node.flags |= Self::SIZE;
        self
    }

    pub fn sets(mut self, set_count: u32) -> Self
        ensures { result ≡ noted 1 3 set_count self }
    {
        self.node.set_count = set_count;
        self.node.flags |= Self::SETS;
        self
    }

    pub fn associativity(mut self, associativity: u8) -> Self
        ensures { result ≡ noted 2 4 associativity self }
    {
        self.node.associativity = associativity;
        self.node.flags |= Self::ASSOCIATIVITY;
        self
    }

    pub fn allocation_type(mut self, a: AllocationType) -> Self
        ensures { result ≡ noted 3 5 (bit_or self.node.attributes (allocation_bits a)) self }
    {
        self.node.attributes |= a as u8;
        self.node.flags |= Self::ALLOCATION;
        self
    }

    pub fn cache_type(mut self, c: CacheType) -> Self
        ensures { result ≡ noted 4 5 (bit_or self.node.attributes (type_bits c)) self }
    {
        self.node.attributes |= c as u8;
        self.node.flags |= Self::TYPE;
        self
    }

    pub fn write_policy(mut self, w: WritePolicy) -> Self
        ensures { result ≡ noted 5 5 (bit_or self.node.attributes (policy_bits w)) self }
    {
        self.node.attributes |= w as u8;
        self.node.flags |= Self::POLICY;
        self
    }

    pub fn line_size(mut self, line_size: u16) -> Self
        ensures { result ≡ noted 6 6 line_size self }
    {
        self.node.line_size = line_size;
        self.node.flags |= Self::LINE_SIZE;
        self
    }

    pub fn id(mut self, id: u32) -> Self
        ensures { result ≡ noted 7 7 id self }
    {
        self.node.id = id;
        self.node.flags |= Self::ID;
        self
    }

    pub fn to_node(self) -> CacheNode
        ensures { cache_shown result ≡ made self }
    {
        self.node
    }
}

#[derive(Clone, Copy, Default)]
pub struct CacheNode {
    pub flags: u32,
    pub next_level: CacheHandle,
    pub size: u32,
    pub set_count: u32,
    pub associativity: u8,
    pub attributes: u8,
    pub line_size: u16,
    pub id: u32,
}

impl CacheNode {
    // The kind byte, and the length of the body behind it.
    pub const KIND: u8 = 18;

    pub const BODY: usize = 21;

    pub const TYPE: u8 = 1;

    pub const LEN: usize = 28;

    // How many values a reading call shows.
    pub const FIELDS: usize = 8;

    // the highest allocation and type
    const MAX_ALLOCATION: u32 = 2;

    const MAX_TYPE: u32 = 2;

    // Where the fields stand in a body.
    pub const FLAGS_AT: usize = 0;

    pub const NEXT_LEVEL_AT: usize = 1;

    pub const SIZE_AT: usize = 5;

    pub const SETS_AT: usize = 9;

    pub const ASSOCIATIVITY_AT: usize = 13;

    pub const ATTRIBUTES_AT: usize = 14;

    pub const LINE_SIZE_AT: usize = 15;

    pub const ID_AT: usize = 17;

    // Where the next level stands in a record.
    const NEXT_LEVEL_OFFSET: usize = 8;

    // Kind, flags, next level, size, sets, associativity, attributes, line size, id.
    const BODY_WIDTHS: [usize; 9] = [1, 1, 4, 4, 4, 1, 1, 2, 4];

    // Type, length, 2 zero, flags, next level, size, sets, associativity, attributes, line size, id.
    const WIDTHS: [usize; 11] = [1, 1, 2, 4, 4, 4, 4, 1, 1, 2, 4];

    // The same node before another cache: its place for its ordinal, or the other way.
    pub fn named(self, next_level: CacheHandle) -> Self
        ensures { result ≡ cache_before self next_level }
    {
        Self { next_level, ..self }
    }

    pub fn len() -> usize
        ensures { result ≡ size cache }
    {
        Self::LEN
    }

    // Writes the record.
    pub fn put(self, out: &mut [u8], at: usize)
        ensures { out.new ≡ over out.old at (bytes as_is (cache_node self)) }
    {
        let vs = [
            Self::TYPE as u64,
            Self::LEN as u64,
            0,
            self.flags as u64,
            self.next_level.0 as u64,
            self.size as u64,
            self.set_count as u64,
            self.associativity as u64,
            self.attributes as u64,
            self.line_size as u64,
            self.id as u64,
        ];
        field::put_all(out, at, &Self::WIDTHS, &vs);
    }

    // The node of the record at a place.
    pub fn get(table: &[u8], at: usize) -> Self
        ensures { cache_node result ≡ node_at as_is cache (drop at table.now) }
    {
        let r = field::rest(table, at);
        Self {
            flags: field::get(r, 4),
            next_level: Self::next_level_of(r),
            size: field::get(r, 12),
            set_count: field::get(r, 16),
            associativity: field::get(r, 20),
            attributes: field::get(r, 21),
            line_size: field::get(r, 22),
            id: field::get(r, 24),
        }
    }
    // Zeros and fixed values of a record.
    fn is_fixed(row: &[u8]) -> bool
        ensures { result ≡ fixed_ok (layout cache) row.now }
    {
        if field::get::<u8>(row, 0) != Self::TYPE {
            return false;
        }
        if field::get::<u8>(row, 1) as usize != Self::LEN {
            return false;
        }
        field::get::<u16>(row, 2) == 0
    }

    // The next level in a record.
    pub fn next_level_of(row: &[u8]) -> CacheHandle
        ensures { result.0 ≡ at (fields (layout cache) row.now) 1 }
    {
        CacheHandle(field::get(row, Self::NEXT_LEVEL_OFFSET))
    }

    // The next level in a body.
    pub fn next_level_in(bytes: &[u8]) -> CacheHandle
        ensures { result.0 ≡ at (fields (body Cache) bytes.now) 1 }
    {
        CacheHandle(field::get(bytes, Self::NEXT_LEVEL_AT))
    }

    // The node of a body.
    pub fn from_body(bytes: &[u8]) -> Self
        ensures { cache_node result ≡ node cache (fields (body Cache) bytes.now) }
    {
        Self {
            flags: field::get::<u8>(bytes, Self::FLAGS_AT) as u32,
            next_level: Self::next_level_in(bytes),
            size: field::get(bytes, Self::SIZE_AT),
            set_count: field::get(bytes, Self::SETS_AT),
            associativity: field::get(bytes, Self::ASSOCIATIVITY_AT),
            attributes: field::get(bytes, Self::ATTRIBUTES_AT),
            line_size: field::get(bytes, Self::LINE_SIZE_AT),
            id: field::get(bytes, Self::ID_AT),
        }
    }

    // Writes kind byte and body; how many bytes that is.
    pub fn put_body(self, out: &mut [u8], at: usize) -> usize
        ensures out_after { out.new ≡ over out.old at (calls_of_node (cache_node self)) }
        ensures value { result ≡ length (calls_of_node (cache_node self)) }
    {
        let vs = [
            Self::KIND as u64,
            self.flags as u64,
            self.next_level.0 as u64,
            self.size as u64,
            self.set_count as u64,
            self.associativity as u64,
            self.attributes as u64,
            self.line_size as u64,
            self.id as u64,
        ];
        field::put_all(out, at, &Self::BODY_WIDTHS, &vs);
        1 + Self::BODY
    }

    // Writes the values that a reading call shows, in their order.
    pub fn put_fields(self, answer: &mut [u64], at: usize)
        ensures { answer.new ≡ over answer.old at (cache_shown self) }
    {
        let vs = [
            self.flags as u64,
            self.next_level.0 as u64,
            self.size as u64,
            self.set_count as u64,
            self.associativity as u64,
            self.attributes as u64,
            self.line_size as u64,
            self.id as u64,
        ];
        field::copy(answer, at, &vs);
    }

    // The parts of the attributes.
    pub fn allocation(self) -> u8
        ensures { result ≡ bits self.attributes 0 2 }
    {
        self.attributes % 4
    }

    pub fn cache_type(self) -> u8
        ensures { result ≡ bits self.attributes 2 2 }
    {
        self.attributes / 4 % 4
    }

    pub fn write_policy(self) -> u8
        ensures { result ≡ bits self.attributes 4 1 }
    {
        self.attributes / 16 % 2
    }

    // A field whose flag is off is 0.
    fn is_kept(flag: u32, v: u32) -> bool
        ensures { result ≡ pick (eqb flag 1) true (eqb v 0) }
    {
        if flag == 1 {
            return true;
        }
        v == 0
    }

    // Allocation and type up to 2, policy, the rest 0; each with its flag.
    fn is_good_attributes(self) -> bool
        ensures { result ≡ cache_attributes self.flags self.attributes }
    {
        let flags = self.flags;
        let allocation = self.allocation() as u32;
        let ty = self.cache_type() as u32;
        let policy = self.write_policy() as u32;
        if Self::MAX_ALLOCATION < allocation {
            return false;
        }
        if Self::MAX_TYPE < ty {
            return false;
        }
        if 32 <= self.attributes {
            return false;
        }
        if !Self::is_kept(flags / CacheNodeBuilder::ALLOCATION % 2, allocation) {
            return false;
        }
        if !Self::is_kept(flags / CacheNodeBuilder::TYPE % 2, ty) {
            return false;
        }
        Self::is_kept(flags / CacheNodeBuilder::POLICY % 2, policy)
    }

    // The place of the first field outside its range, counted from the kind byte. A part of the pass that judges a recipe, its eight refusals
    // would have every record's state go through memory there: it stays a call.
    #[inline(never)]
    pub fn bad_field(self) -> Option<usize>
        ensures { result ≡ place_or_none (bad_field (cache_node self)) }
    {
        let flags = self.flags;
        if 256 <= flags {
            return Some(1 + Self::FLAGS_AT);
        }
        if !Self::is_kept(flags / CacheNodeBuilder::SIZE % 2, self.size) {
            return Some(1 + Self::SIZE_AT);
        }
        if !Self::is_kept(flags / CacheNodeBuilder::SETS % 2, self.set_count) {
            return Some(1 + Self::SETS_AT);
        }
        if !Self::is_kept(
            flags / CacheNodeBuilder::ASSOCIATIVITY % 2,
            self.associativity as u32,
        ) {
            return Some(1 + Self::ASSOCIATIVITY_AT);
        }
        if !self.is_good_attributes() {
            return Some(1 + Self::ATTRIBUTES_AT);
        }
        if !Self::is_kept(
            flags / CacheNodeBuilder::LINE_SIZE % 2,
            self.line_size as u32,
        ) {
            return Some(1 + Self::LINE_SIZE_AT);
        }
        if !Self::is_kept(flags / CacheNodeBuilder::ID % 2, self.id) {
            return Some(1 + Self::ID_AT);
        }
        None
    }

    // Whether a record is fixed where it has to be, and no field outside its range.
    fn is_good(row: &[u8]) -> bool
        ensures { result ≡ sound cache row.now }
    {
        Self::is_fixed(row) && Self::get(row, 0).bad_field().is_none()
    }

    // The same; a window of constant length, where the record has that length, saves the test of each place.
    pub fn is_sound(row: &[u8]) -> bool
        ensures { result ≡ sound cache row.now }
    {
        if row.len() != Self::LEN {
            return Self::is_good(row);
        }
        Self::is_good(&row[..Self::LEN])
    }
}
