// The nodes of HMAT, which describes how memory is reached: domains, matrices of localities with their settings, memory-side caches with
// their handles. Each has two writings: a record of the table (a setting or a handle a part of one), and a kind byte with a body of a recipe.
// What an HMAT's record is, by constants, places and ranges, stands here alone.
// What a record lists (values, cells, handles) lies in the table alone: a node holds the fields before it and the counts.
#![tactic(auto)]

ghost use Rattle.std.specs.Prelude.{◌≡◌, ◌∷◌, [], ◌+◌, ◌-◌, ◌*◌, ◌/◌, ◌^◌, min, eqb, leb, ltb, length, drop};
ghost use Rattle.format.specs.Bytes.{le, value, part, over, bits};
ghost use Rattle.format.specs.Layout.{as_is, fields, fixed_ok};
ghost use Rattle.format.specs.Layout as items;
ghost use Rattle.format.specs.Form.{domain, side, size, layout, octets, up_to, narrowest, matrix_flags, side_attributes};
ghost use Rattle.format.specs.Form as form;
ghost use Rattle.format.specs.Node.{node, bytes, node_at};
ghost use Rattle.format.specs.Kind.{Domain, Matrix, Initiator, Target, Side, kind_number, body};
ghost use Rattle.format.specs.Kind as format;
ghost use Rattle.format.specs.Normal.{call, calls_of_node};
ghost use Rattle.format.specs.Field.{bad_in, bad_field};
ghost use Rattle.format.specs.Row.{matrices, sides, counted, column, form_in};
ghost use Rattle.format.specs.Read.{sound};
ghost use Rattle.field.specs.Place.{place_or_none};
ghost use Rattle.laws.specs.Offsets.{trimmed};
ghost use Rattle.hmat.specs.Numbers.{data_type_number, transfer_number, locality_number, level_number, associativity_number, policy_number};
ghost use Rattle.hmat.specs.Widths.{meant_width};
ghost use Rattle.hmat.specs.Hmat.{domain_of, domain_shown, domain_node, matrix_of, matrix_with, matrix_form, matrix_head, matrix_front, matrix_unset, matrix_node, matrix_shown, side_of, side_form, side_fields, side_head, side_front, side_shown, grown, matrix_call};
ghost use Rattle.hmat.specs.Settings.{value_fields, value_call, cell_fields, in_counts, good_cell, handle_fields};

// ---- row 5

#[derive(Clone, Copy)]
pub struct MemoryProximityDomain {
    pub proximity_domain_initiator: u32,
    pub proximity_domain_memory: u32,
}

impl MemoryProximityDomain {
    // The kind byte, and the length of the body behind it.
    pub const KIND: u8 = 48;

    pub const BODY: usize = 8;

    pub const TYPE: u16 = 0;

    pub const LEN: usize = 40;

    // How many values a reading call shows.
    pub const FIELDS: usize = 2;

    pub const DOMAIN_VALID: u16 = 1;

    // Where the fields stand in a body.
    pub const INITIATOR_AT: usize = 0;

    pub const MEMORY_AT: usize = 4;

    // Kind, initiator, memory.
    const BODY_WIDTHS: [usize; 3] = [1, 4, 4];

    // Type, 2 zero, length, flags, 2 zero, initiator, memory, 20 zero.
    const WIDTHS: [usize; 8] = [2, 2, 4, 2, 2, 4, 4, 20];

    pub fn new(proximity_domain_initiator: u32, proximity_domain_memory: u32) -> Self
        ensures { result ≡ domain_of proximity_domain_initiator proximity_domain_memory }
    {
        Self {
            proximity_domain_initiator,
            proximity_domain_memory,
        }
    }

    pub fn len() -> usize
        ensures { result ≡ size domain }
    {
        Self::LEN
    }

    // Writes the record.
    pub fn put(self, out: &mut [u8], at: usize)
        ensures { out.new ≡ over out.old at (bytes as_is (domain_node self)) }
    {
        let vs = [
            Self::TYPE as u64,
            0,
            Self::LEN as u64,
            Self::DOMAIN_VALID as u64,
            0,
            self.proximity_domain_initiator as u64,
            self.proximity_domain_memory as u64,
            0,
        ];
        field::put_all(out, at, &Self::WIDTHS, &vs);
    }

    // Reads the record at a place.
    pub fn get(table: &[u8], at: usize) -> Self
        ensures { domain_node result ≡ node_at as_is domain (drop at table.now) }
    {
        let s = field::rest(table, at);
        Self {
            proximity_domain_initiator: field::get(s, 12),
            proximity_domain_memory: field::get(s, 16),
        }
    }

    // Twenty zeros behind the memory.
    fn is_zero(row: &[u8]) -> bool
        ensures { result ≡ eqb (value (part row.now 20 20)) 0 }
    {
        if field::get::<u32>(row, 20) != 0 {
            return false;
        }
        if field::get::<u64>(row, 24) != 0 {
            return false;
        }
        field::get::<u64>(row, 32) == 0
    }

    // Zeros and fixed values of a record; no field has a range.
    pub fn is_fixed(row: &[u8]) -> bool
        ensures { result ≡ fixed_ok (layout domain) row.now }
    {
        if field::get::<u16>(row, 0) != Self::TYPE {
            return false;
        }
        if field::get::<u16>(row, 2) != 0 {
            return false;
        }
        if field::get::<u32>(row, 4) as usize != Self::LEN {
            return false;
        }
        if field::get::<u16>(row, 8) != Self::DOMAIN_VALID {
            return false;
        }
        if field::get::<u16>(row, 10) != 0 {
            return false;
        }
        Self::is_zero(row)
    }

    // The node of a body.
    pub fn from_body(bytes: &[u8]) -> Self
        ensures { domain_node result ≡ node domain (fields (body Domain) bytes.now) }
    {
        Self {
            proximity_domain_initiator: field::get(bytes, Self::INITIATOR_AT),
            proximity_domain_memory: field::get(bytes, Self::MEMORY_AT),
        }
    }

    // Writes kind byte and body; how many bytes that is.
    pub fn put_body(self, out: &mut [u8], at: usize) -> usize
        ensures out_after { out.new ≡ over out.old at (calls_of_node (domain_node self)) }
        ensures value { result ≡ length (calls_of_node (domain_node self)) }
    {
        let vs = [
            Self::KIND as u64,
            self.proximity_domain_initiator as u64,
            self.proximity_domain_memory as u64,
        ];
        field::put_all(out, at, &Self::BODY_WIDTHS, &vs);
        1 + Self::BODY
    }

    // Writes the values that a reading call shows, in their order.
    pub fn put_fields(self, answer: &mut [u64], at: usize)
        ensures { answer.new ≡ over answer.old at (domain_shown self) }
    {
        let vs = [
            self.proximity_domain_initiator as u64,
            self.proximity_domain_memory as u64,
        ];
        field::copy(answer, at, &vs);
    }
}

// ---- rows 6 and 12

// How wide a recipe writes the counts of a matrix and the indices of its settings: in one byte or in two.
#[derive(Clone, Copy, Debug, PartialEq, Eq)]
pub enum Width {
    Byte = 1,
    Pair = 2,
}

impl Width {
    // How many bytes that are.
    fn octets(self) -> usize
        ensures { result ≡ octets (meant_width self) }
    {
        self as usize
    }

    // Reads a number that is so wide.
    fn get(self, bytes: &[u8], at: usize) -> u16
        ensures { result ≡ value (part bytes.now at (octets (meant_width self))) }
    {
        match self {
            Width::Byte => field::get::<u8>(bytes, at) as u16,
            Width::Pair => field::get::<u16>(bytes, at),
        }
    }
}

#[derive(Clone, Copy)]
pub enum DataType {
    // if read and write latencies are identical
    AccessLatency = 0,
    ReadLatency = 1,
    WriteLatency = 2,
    // if read and write bandwidths are identical
    AccessBandwidth = 3,
    ReadBandwidth = 4,
    WriteBandwidth = 5,
}

impl From<DataType> for u8 {
    ghost from_gives = { λ data_type n. n ≡ data_type_number data_type };

    fn from(data_type: DataType) -> u8 {
        data_type as u8
    }
}

#[derive(Clone, Copy)]
pub enum MinTransferSize {
    SizeByteAligned = 0,
    Size64b = 1,
    Size128b = 2,
    Size256b = 3,
    Size512b = 4,
    Size1k = 5,
    Size2k = 6,
    Size4k = 7,
    Size8k = 8,
    Size16k = 9,
    Size32k = 10,
    Size64k = 11,
}

impl From<MinTransferSize> for u8 {
    ghost from_gives = { λ size n. n ≡ transfer_number size };

    fn from(size: MinTransferSize) -> u8 {
        size as u8
    }
}

#[derive(Clone, Copy)]
pub enum LocalityType {
    Memory = 0,
    FirstLevelCache = 1,
    SecondLevelCache = 2,
    ThirdLevelCache = 3,
}

impl From<LocalityType> for u8 {
    ghost from_gives = { λ locality n. n ≡ locality_number locality };

    fn from(locality: LocalityType) -> u8 {
        locality as u8
    }
}

// The base unit of latencies is in picoseconds, that of bandwidths in MB/s.
#[derive(Clone, Copy)]
pub struct SystemLocality {
    pub flags: u8,
    pub data_type: u8,
    pub min_transfer_size: u8,
    pub entry_base_unit: u64,
    // how many, I and T
    pub initiators: u32,
    pub targets: u32,
}

impl SystemLocality {
    // The kind bytes by width, and the lengths of the bodies behind them.
    pub const KIND: u8 = 49;

    pub const WIDE_KIND: u8 = 55;

    pub const BODY: usize = 13;

    pub const WIDE_BODY: usize = 15;

    pub const TYPE: u16 = 1;

    // without values and cells
    pub const LEN: usize = 32;

    // How many values a reading call shows.
    pub const FIELDS: usize = 6;

    // the most initiators, and the most targets
    const MAX_COUNT: u32 = 4096;

    // the most of them that a byte counts
    const NARROW: u32 = 255;

    pub const MINIMUM_TRANSFER_SIZE_REQD: u8 = 0x10;

    pub const NON_SEQUENTIAL_TRANSFERS: u8 = 0x20;

    // what a cell holds that is not set
    pub const UNREACHABLE_DOMAIN: u16 = 0xffff;

    // the highest data type and transfer size
    const MAX_DATA_TYPE: u8 = 5;

    const MAX_TRANSFER_SIZE: u8 = 11;

    // Where the fields stand in a body.
    pub const FLAGS_AT: usize = 0;

    pub const DATA_TYPE_AT: usize = 1;

    pub const TRANSFER_SIZE_AT: usize = 2;

    pub const BASE_UNIT_AT: usize = 3;

    pub const INITIATORS_AT: usize = 11;

    // behind a count of two bytes
    const WIDE_TARGETS_AT: usize = 13;

    // Kind, flags, data type, transfer size, unit, I, T.
    const BODY_WIDTHS: [usize; 7] = [1, 1, 1, 1, 8, 1, 1];

    const WIDE_BODY_WIDTHS: [usize; 7] = [1, 1, 1, 1, 8, 2, 2];

    // Type, 2 zero, length, flags, data type, transfer size, 0, I, T, 4 zero, unit.
    const WIDTHS: [usize; 11] = [2, 2, 4, 1, 1, 1, 1, 4, 4, 4, 8];

    pub fn new(
        loc_type: LocalityType,
        data_type: DataType,
        min_transfer_size: MinTransferSize,
        entry_base_unit: u64,
        num_initiators: u32,
        num_targets: u32,
    ) -> Self
        ensures { result ≡ matrix_of loc_type data_type min_transfer_size entry_base_unit num_initiators num_targets }
    {
        Self {
            flags: u8::from(loc_type),
            data_type: u8::from(data_type),
            min_transfer_size: u8::from(min_transfer_size),
            entry_base_unit,
            initiators: num_initiators,
            targets: num_targets,
        }
    }

    pub fn non_sequential_transfers(mut self) -> Self
        ensures { result ≡ matrix_with 5 self }
    {
        self.flags |= Self::NON_SEQUENTIAL_TRANSFERS;
        self
    }

    pub fn minimum_transfer_size_required(mut self) -> Self
        ensures { result ≡ matrix_with 4 self }
    {
        self.flags |= Self::MINIMUM_TRANSFER_SIZE_REQD;
        self
    }

    // The product of two numbers of four bytes fits eight.
    fn cells(self) -> usize
        ensures { result ≡ self.initiators * self.targets }
    {
        self.initiators as usize * self.targets as usize
    }

    // The length of the record, as far as a usize reaches.
    pub fn len(self) -> usize
        ensures { result ≡ min (size (matrix_form self)) (2 ^ 64 - 1) }
    {
        let cells = Self::target_place(0, self.initiators as usize, self.targets as usize);
        field::behind(cells, Cell::LEN, self.cells())
    }

    // A number whose low four bytes are those of the length.
    fn length(self) -> u64
        ensures { le 4 result ≡ le 4 (size (matrix_form self)) }
    {
        Self::LEN as u64
            + Value::LEN as u64 * self.initiators as u64
            + Value::LEN as u64 * self.targets as u64
            + Cell::LEN as u64 * (self.cells() as u64 % 4294967296)
    }

    // Writes the record without values and cells.
    fn put_front(self, out: &mut [u8], at: usize)
        ensures { out.new ≡ over out.old at (matrix_front self) }
    {
        let vs = [
            Self::TYPE as u64,
            0,
            self.length(),
            self.flags as u64,
            self.data_type as u64,
            self.min_transfer_size as u64,
            0,
            self.initiators as u64,
            self.targets as u64,
            0,
            self.entry_base_unit,
        ];
        field::put_all(out, at, &Self::WIDTHS, &vs);
    }

    // Writes values and cells of which none is set, from the place of the first on.
    fn put_unset(self, out: &mut [u8], at: usize)
        ensures { out.new ≡ over out.old at (matrix_unset self) }
    {
        let values = Value::LEN * (self.initiators as usize + self.targets as usize);
        let cells = field::behind(0, Cell::LEN, self.cells());
        let first = at.saturating_add(values);
        // its two bytes are alike
        let unset = (Self::UNREACHABLE_DOMAIN % 256) as u8;
        field::fill(out, at, values, 0);
        field::fill(out, first, cells, unset);
    }

    // Writes the record of a matrix of which nothing is set.
    pub fn put(self, out: &mut [u8], at: usize)
        ensures { out.new ≡ over out.old at (bytes as_is (matrix_node self)) }
    {
        let values = at.saturating_add(Self::LEN);
        self.put_front(out, at);
        self.put_unset(out, values);
    }

    // The place of a value or of a cell, of the matrix whose record starts at a place.
    pub fn initiator_place(at: usize, idx: usize) -> usize
        ensures { result ≡ min (at + 32 + 4 * idx) (2 ^ 64 - 1) }
    {
        field::behind(at.saturating_add(Self::LEN), Value::LEN, idx)
    }

    pub fn target_place(at: usize, initiators: usize, idx: usize) -> usize
        ensures { result ≡ min (at + 32 + 4 * initiators + 4 * idx) (2 ^ 64 - 1) }
    {
        field::behind(Self::initiator_place(at, initiators), Value::LEN, idx)
    }

    pub fn cell_place(at: usize, initiators: u32, targets: u32, i: u32, t: u32) -> usize
        ensures { result ≡ min (at + 32 + 4 * initiators + 4 * targets + 2 * (i * targets + t)) (2 ^ 64 - 1) }
    {
        Self::entry_place(
            Self::target_place(at, initiators as usize, targets as usize),
            targets,
            i,
            t,
        )
    }

    // The same, of the matrix whose first cell starts at a place: cell (i, t) is entry i times T plus t.
    // A product of two numbers of four bytes and a third of them fit eight.
    pub fn entry_place(cells: usize, targets: u32, i: u32, t: u32) -> usize
        ensures { result ≡ min (cells + 2 * (i * targets + t)) (2 ^ 64 - 1) }
    {
        field::behind(cells, Cell::LEN, i as usize * targets as usize + t as usize)
    }

    // Sets a value of the matrix at a place.
    pub fn set_initiator_value(out: &mut [u8], at: usize, idx: usize, value: u32)
        ensures { out.new ≡ over out.old (at + 32 + 4 * idx) (le 4 value) }
    {
        let place = Self::initiator_place(at, idx);
        field::put(out, place, value);
    }

    pub fn set_target_value(out: &mut [u8], at: usize, initiators: usize, idx: usize, value: u32)
        ensures { out.new ≡ over out.old (at + 32 + 4 * initiators + 4 * idx) (le 4 value) }
    {
        let place = Self::target_place(at, initiators, idx);
        field::put(out, place, value);
    }

    pub fn set_entry_value(
        out: &mut [u8],
        at: usize,
        initiators: u32,
        targets: u32,
        initiator_idx: u32,
        target_idx: u32,
        value: u16,
    )
        ensures { out.new ≡ over out.old (at + 32 + 4 * initiators + 4 * targets + 2 * (initiator_idx * targets + target_idx)) (le 2 value) }
    {
        let place = Self::cell_place(at, initiators, targets, initiator_idx, target_idx);
        field::put(out, place, value);
    }

    // Reads the record at a place, without values and cells.
    pub fn get(table: &[u8], at: usize) -> Self
        ensures { (w : form.Width) → matrix_head result ≡ trimmed 4 (node_at as_is (form_in (matrices w) (drop at table.now)) (drop at table.now)) }
    {
        let s = field::rest(table, at);
        Self {
            flags: field::get(s, 8),
            data_type: field::get(s, 9),
            min_transfer_size: field::get(s, 10),
            entry_base_unit: field::get(s, 24),
            initiators: field::get(s, 12),
            targets: field::get(s, 16),
        }
    }

    // Reads a value of the matrix at a place.
    pub fn initiator_value(table: &[u8], at: usize, idx: usize) -> u32
        ensures { result ≡ value (part table.now (at + 32 + 4 * idx) 4) }
    {
        field::get::<u32>(table, Self::initiator_place(at, idx))
    }

    pub fn target_value(table: &[u8], at: usize, initiators: usize, idx: usize) -> u32
        ensures { result ≡ value (part table.now (at + 32 + 4 * initiators + 4 * idx) 4) }
    {
        field::get::<u32>(table, Self::target_place(at, initiators, idx))
    }

    pub fn entry_value(
        table: &[u8],
        at: usize,
        initiators: u32,
        targets: u32,
        initiator_idx: u32,
        target_idx: u32,
    ) -> u16
        ensures { result ≡ value (part table.now (at + 32 + 4 * initiators + 4 * targets + 2 * (initiator_idx * targets + target_idx)) 2) }
    {
        let place = Self::cell_place(at, initiators, targets, initiator_idx, target_idx);
        field::get::<u16>(table, place)
    }

    // Whether both counts are up to a number.
    fn up_to(n: u32, initiators: u32, targets: u32) -> bool
        ensures { result ≡ up_to n initiators targets }
    {
        initiators <= n && targets <= n
    }

    // Whether both counts are up to the most, and one is above what a byte counts: no matrix is in two rows.
    fn is_wide(initiators: u32, targets: u32) -> bool
        ensures { result ≡ counted form.pair initiators targets }
    {
        !Self::up_to(Self::NARROW, initiators, targets)
            && Self::up_to(Self::MAX_COUNT, initiators, targets)
    }

    // The Length column of the row, 6 or 12: more initiators or targets than the most make a record unknown, not faulty.
    #[tactic(auto, unfolding(format::specs::Row::column))]
    pub fn fits(width: Width, row: &[u8]) -> bool
        ensures { result ≡ column (matrices (meant_width width)) row.now }
    {
        if row.len() < Self::LEN {
            return false;
        }
        let initiators = field::get::<u32>(row, 12);
        let targets = field::get::<u32>(row, 16);
        match width {
            Width::Byte => Self::up_to(Self::NARROW, initiators, targets),
            Width::Pair => Self::is_wide(initiators, targets),
        }
    }

    // Zeros, fixed values, counts and length of a record.
    fn is_fixed(row: &[u8]) -> bool
        ensures { (w : form.Width) → result ≡ fixed_ok (layout (form_in (matrices w) row.now)) row.now }
    {
        if field::get::<u16>(row, 0) != Self::TYPE {
            return false;
        }
        if field::get::<u16>(row, 2) != 0 {
            return false;
        }
        if field::get::<u32>(row, 4) as usize != Self::get(row, 0).len() {
            return false;
        }
        if field::get::<u8>(row, 11) != 0 {
            return false;
        }
        field::get::<u32>(row, 20) == 0
    }

    // The width of a recipe's normal form: one byte where that counts both.
    pub fn width(self) -> Width
        ensures { meant_width result ≡ narrowest self.initiators self.targets }
    {
        if Self::up_to(Self::NARROW, self.initiators, self.targets) {
            return Width::Byte;
        }
        Width::Pair
    }

    // The kind byte of a width.
    fn kind(width: Width) -> u8
        ensures { result ≡ kind_number (Matrix (meant_width width)) }
    {
        match width {
            Width::Byte => Self::KIND,
            Width::Pair => Self::WIDE_KIND,
        }
    }

    // Where the count of targets stands in a body.
    pub fn targets_at(width: Width) -> usize
        ensures { result ≡ 11 + octets (meant_width width) }
    {
        Self::INITIATORS_AT + width.octets()
    }

    // The node of a body, of which nothing is set.
    pub fn from_body(width: Width, bytes: &[u8]) -> Self
        ensures { matrix_call result ≡ fields (body (Matrix (meant_width width))) bytes.now }
    {
        Self {
            flags: field::get(bytes, Self::FLAGS_AT),
            data_type: field::get(bytes, Self::DATA_TYPE_AT),
            min_transfer_size: field::get(bytes, Self::TRANSFER_SIZE_AT),
            entry_base_unit: field::get(bytes, Self::BASE_UNIT_AT),
            initiators: width.get(bytes, Self::INITIATORS_AT) as u32,
            targets: width.get(bytes, Self::targets_at(width)) as u32,
        }
    }

    // Writes kind byte and body of a width; how many bytes that is.
    fn put_as(self, width: Width, out: &mut [u8], at: usize) -> usize
        ensures out_after { out.new ≡ over out.old at (call (Matrix (meant_width width)) (matrix_call self)) }
        ensures value { result ≡ length (call (Matrix (meant_width width)) (matrix_call self)) }
    {
        let vs = [
            Self::kind(width) as u64,
            self.flags as u64,
            self.data_type as u64,
            self.min_transfer_size as u64,
            self.entry_base_unit,
            self.initiators as u64,
            self.targets as u64,
        ];
        // a call for each width: the compiler then knows the widths of the fields
        match width {
            Width::Byte => {
                field::put_all(out, at, &Self::BODY_WIDTHS, &vs);
                1 + Self::BODY
            }
            Width::Pair => {
                field::put_all(out, at, &Self::WIDE_BODY_WIDTHS, &vs);
                1 + Self::WIDE_BODY
            }
        }
    }

    // Writes kind byte and body, without settings, in the normal form's width; how many bytes that is.
    pub fn put_body(self, out: &mut [u8], at: usize) -> usize
        ensures out_after { out.new ≡ over out.old at (call (Matrix (narrowest self.initiators self.targets)) (matrix_call self)) }
        ensures value { result ≡ length (call (Matrix (narrowest self.initiators self.targets)) (matrix_call self)) }
    {
        self.put_as(self.width(), out, at)
    }

    // Writes the values that a reading call shows, in their order.
    pub fn put_fields(self, answer: &mut [u64], at: usize)
        ensures { answer.new ≡ over answer.old at (matrix_shown self) }
    {
        let vs = [
            self.flags as u64,
            self.data_type as u64,
            self.min_transfer_size as u64,
            self.initiators as u64,
            self.targets as u64,
            self.entry_base_unit,
        ];
        field::copy(answer, at, &vs);
    }

    // What the lowest two bits of the flags say: which level the matrix is about.
    pub fn locality(self) -> u8
        ensures { result ≡ bits self.flags 0 2 }
    {
        self.flags % 4
    }

    // Bits 0 and 1, 4 and 5, the rest 0.
    #[tactic(auto, unfolding(format::specs::Form::matrix_flags))]
    fn is_good_flags(v: u8) -> bool
        ensures { result ≡ matrix_flags v }
    {
        v / 4 % 4 == 0 && v < 64
    }

    // The place of the first field outside its range, counted from the kind byte.
    #[tactic(auto, unfolding(format::specs::Field::bad_field, format::specs::Field::first_bad, format::specs::Kind::body, format::specs::Form::ranges))]
    pub fn bad_field(self) -> Option<usize>
        ensures { result ≡ place_or_none (bad_field (matrix_head self)) }
    {
        if !Self::is_good_flags(self.flags) {
            return Some(1 + Self::FLAGS_AT);
        }
        if Self::MAX_DATA_TYPE < self.data_type {
            return Some(1 + Self::DATA_TYPE_AT);
        }
        if Self::MAX_TRANSFER_SIZE < self.min_transfer_size {
            return Some(1 + Self::TRANSFER_SIZE_AT);
        }
        if Self::MAX_COUNT < self.initiators {
            return Some(1 + Self::INITIATORS_AT);
        }
        // more than the most is never counted in a byte: behind initiators of two
        if Self::MAX_COUNT < self.targets {
            return Some(1 + Self::WIDE_TARGETS_AT);
        }
        None
    }

    // Whether a record is fixed where it has to be, and no field outside its range.
    pub fn is_sound(row: &[u8]) -> bool
        ensures { (w : form.Width) → result ≡ sound (form_in (matrices w) row.now) row.now }
    {
        Self::is_fixed(row) && Self::get(row, 0).bad_field().is_none()
    }
}

// ---- settings of a matrix

// The value of an initiator or of a target.
#[derive(Clone, Copy)]
pub struct Value {
    pub idx: u16,
    pub value: u32,
}

impl Value {
    // The kind bytes by side and width, and the lengths of the bodies behind them.
    pub const INITIATOR_KIND: u8 = 50;

    pub const TARGET_KIND: u8 = 51;

    pub const WIDE_INITIATOR_KIND: u8 = 56;

    pub const WIDE_TARGET_KIND: u8 = 57;

    pub const BODY: usize = 5;

    pub const WIDE_BODY: usize = 6;

    // in a matrix's record
    pub const LEN: usize = 4;

    // what is not set
    pub const UNSET: u32 = 0;

    // Where the index stands in a body.
    pub const INDEX_AT: usize = 0;

    // Kind, index, number.
    const BODY_WIDTHS: [usize; 3] = [1, 1, 4];

    const WIDE_BODY_WIDTHS: [usize; 3] = [1, 2, 4];

    // The kind byte of a width, for an initiator or for a target.
    pub fn initiator_kind(width: Width) -> u8
        ensures { result ≡ kind_number (Initiator (meant_width width)) }
    {
        match width {
            Width::Byte => Self::INITIATOR_KIND,
            Width::Pair => Self::WIDE_INITIATOR_KIND,
        }
    }

    pub fn target_kind(width: Width) -> u8
        ensures { result ≡ kind_number (Target (meant_width width)) }
    {
        match width {
            Width::Byte => Self::TARGET_KIND,
            Width::Pair => Self::WIDE_TARGET_KIND,
        }
    }

    // Where the number stands in a body: behind the index.
    pub fn value_at(width: Width) -> usize
        ensures { result ≡ octets (meant_width width) }
    {
        Self::INDEX_AT + width.octets()
    }

    // The value of a body.
    pub fn from_body(width: Width, bytes: &[u8]) -> Self
        ensures { value_fields result ≡ fields (body (Initiator (meant_width width))) bytes.now }
    {
        Self {
            idx: width.get(bytes, Self::INDEX_AT),
            value: field::get(bytes, Self::value_at(width)),
        }
    }

    // Writes a kind byte and the body; how many bytes that is.
    pub fn put_body(self, width: Width, kind: u8, out: &mut [u8], at: usize) -> usize
        ensures out_after { out.new ≡ over out.old at (value_call (meant_width width) kind self) }
        ensures value { result ≡ length (value_call (meant_width width) kind self) }
    {
        let vs = [kind as u64, self.idx as u64, self.value as u64];
        // a call for each width: the compiler then knows the widths of the fields
        match width {
            Width::Byte => {
                field::put_all(out, at, &Self::BODY_WIDTHS, &vs);
                1 + Self::BODY
            }
            Width::Pair => {
                field::put_all(out, at, &Self::WIDE_BODY_WIDTHS, &vs);
                1 + Self::WIDE_BODY
            }
        }
    }

    // The place of the index where it is not below the count, from the kind byte.
    #[tactic(auto, unfolding(format::specs::Field::first_bad, format::specs::Kind::body))]
    pub fn bad_field(self, count: u32) -> Option<usize>
        ensures { (w : form.Width) → result ≡ place_or_none (bad_in (Initiator w) (ltb self.idx count ∷ [])) }
    {
        if count <= self.idx as u32 {
            return Some(1 + Self::INDEX_AT);
        }
        None
    }
}

// A cell, of an initiator and a target.
#[derive(Clone, Copy)]
pub struct Cell {
    pub initiator_idx: u16,
    pub target_idx: u16,
    pub value: u16,
}

impl Cell {
    // The kind bytes by width, and the lengths of the bodies behind them.
    pub const KIND: u8 = 52;

    pub const WIDE_KIND: u8 = 58;

    pub const BODY: usize = 4;

    pub const WIDE_BODY: usize = 6;

    // in a matrix's record
    pub const LEN: usize = 2;

    // Where the first index stands in a body.
    pub const INITIATOR_AT: usize = 0;

    // Kind, two indices, number.
    const BODY_WIDTHS: [usize; 4] = [1, 1, 1, 2];

    const WIDE_BODY_WIDTHS: [usize; 4] = [1, 2, 2, 2];

    // The kind byte of a width.
    pub fn kind(width: Width) -> u8
        ensures { result ≡ kind_number (format.Cell (meant_width width)) }
    {
        match width {
            Width::Byte => Self::KIND,
            Width::Pair => Self::WIDE_KIND,
        }
    }

    // The number of bytes that follow it.
    #[tactic(auto, unfolding(format::specs::Layout::width, format::specs::Kind::body))]
    pub fn body_len(width: Width) -> usize
        ensures { result ≡ items.width (body (format.Cell (meant_width width))) }
    {
        match width {
            Width::Byte => Self::BODY,
            Width::Pair => Self::WIDE_BODY,
        }
    }

    // Where the target and the number stand in a body: behind one index, and behind both.
    pub fn target_at(width: Width) -> usize
        ensures { result ≡ octets (meant_width width) }
    {
        Self::INITIATOR_AT + width.octets()
    }

    pub fn value_at(width: Width) -> usize
        ensures { result ≡ octets (meant_width width) + octets (meant_width width) }
    {
        Self::target_at(width) + width.octets()
    }

    // The cell of a body.
    pub fn from_body(width: Width, bytes: &[u8]) -> Self
        ensures { cell_fields result ≡ fields (body (format.Cell (meant_width width))) bytes.now }
    {
        Self {
            initiator_idx: width.get(bytes, Self::INITIATOR_AT),
            target_idx: width.get(bytes, Self::target_at(width)),
            value: field::get(bytes, Self::value_at(width)),
        }
    }

    // Writes kind byte and body; how many bytes that is.
    pub fn put_body(self, width: Width, out: &mut [u8], at: usize) -> usize
        ensures out_after { out.new ≡ over out.old at (call (format.Cell (meant_width width)) (cell_fields self)) }
        ensures value { result ≡ length (call (format.Cell (meant_width width)) (cell_fields self)) }
    {
        let vs = [
            Self::kind(width) as u64,
            self.initiator_idx as u64,
            self.target_idx as u64,
            self.value as u64,
        ];
        // a call for each width: the compiler then knows the widths of the fields
        match width {
            Width::Byte => {
                field::put_all(out, at, &Self::BODY_WIDTHS, &vs);
                1 + Self::BODY
            }
            Width::Pair => {
                field::put_all(out, at, &Self::WIDE_BODY_WIDTHS, &vs);
                1 + Self::WIDE_BODY
            }
        }
    }

    // The place of the first index that is not below its count, from the kind byte.
    #[tactic(auto, unfolding(format::specs::Field::first_bad, format::specs::Kind::body))]
    pub fn bad_field(self, width: Width, initiators: u32, targets: u32) -> Option<usize>
        ensures { result ≡ place_or_none (bad_in (format.Cell (meant_width width)) (ltb self.initiator_idx initiators ∷ ltb self.target_idx targets ∷ [])) }
    {
        if initiators <= self.initiator_idx as u32 {
            return Some(1 + Self::INITIATOR_AT);
        }
        if targets <= self.target_idx as u32 {
            return Some(1 + Self::target_at(width));
        }
        None
    }

    // Whether the indices of a body are below I and T.
    fn is_inside(width: Width, bytes: &[u8], initiators: u32, targets: u32) -> bool
        ensures { result ≡ in_counts (meant_width width) bytes.now initiators targets }
    {
        Self::from_body(width, bytes)
            .bad_field(width, initiators, targets)
            .is_none()
    }

    // Whether the whole record of a cell of an I by T matrix stands at a place of a recipe. The window that is read has a length that the
    // compiler knows, in either width: no bound is tested for each field.
    pub fn stands(recipe: &[u8], at: usize, width: Width, initiators: u32, targets: u32) -> bool
        ensures { result ≡ good_cell (meant_width width) recipe.now at initiators targets }
    {
        if recipe.len() <= at {
            return false;
        }
        if recipe.len() - at < 1 + Self::body_len(width) {
            return false;
        }
        if recipe[at] != Self::kind(width) {
            return false;
        }
        let from = at + 1;
        match width {
            Width::Byte => {
                let end = from + Self::BODY;
                Self::is_inside(Width::Byte, &recipe[from..end], initiators, targets)
            }
            Width::Pair => {
                let end = from + Self::WIDE_BODY;
                Self::is_inside(Width::Pair, &recipe[from..end], initiators, targets)
            }
        }
    }
}

// ---- row 7

#[derive(Clone, Copy)]
pub enum CacheLevel {
    None = 0,
    One = 1,
    Two = 2,
    Three = 3,
}

impl From<CacheLevel> for u32 {
    ghost from_gives = { λ level n. n ≡ level_number level };

    fn from(level: CacheLevel) -> u32 {
        level as u32
    }
}

#[derive(Clone, Copy)]
pub enum Associativity {
    None = 0,
    DirectMapped = 1,
    Complex = 2,
}

impl From<Associativity> for u32 {
    ghost from_gives = { λ associativity n. n ≡ associativity_number associativity };

    fn from(associativity: Associativity) -> u32 {
        associativity as u32
    }
}

#[derive(Clone, Copy)]
pub enum WritePolicy {
    None = 0,
    Writeback = 1,
    Writethrough = 2,
}

impl From<WritePolicy> for u32 {
    ghost from_gives = { λ policy n. n ≡ policy_number policy };

    fn from(policy: WritePolicy) -> u32 {
        policy as u32
    }
}

#[derive(Clone, Copy)]
pub struct MemorySideCache {
    // should match the corresponding entry in the SRAT's memory affinity record
    pub proximity_domain: u32,
    pub cache_size: u64,
    pub attributes: u32,
    // how many
    pub smbios_handles: u16,
}

impl MemorySideCache {
    // The kind byte, and the length of the body behind it.
    pub const KIND: u8 = 53;

    pub const BODY: usize = 16;

    pub const TYPE: u16 = 2;

    // without handles
    pub const LEN: usize = 32;

    // How many values a reading call shows.
    pub const FIELDS: usize = 4;

    const MAX_HANDLES: u16 = 65535;

    // the highest level, associativity and policy
    const MAX_LEVEL: u32 = 3;

    const MAX_ASSOCIATIVITY: u32 = 2;

    const MAX_POLICY: u32 = 2;

    // Where the fields stand in a body.
    pub const DOMAIN_AT: usize = 0;

    pub const SIZE_AT: usize = 4;

    pub const ATTRIBUTES_AT: usize = 12;

    // Kind, domain, size, attributes.
    const BODY_WIDTHS: [usize; 4] = [1, 4, 8, 4];

    // Type, 2 zero, length, domain, 4 zero, size, attributes, 2 zero, n.
    const WIDTHS: [usize; 9] = [2, 2, 4, 4, 4, 8, 4, 2, 2];

    // The numbers of the attributes are shifted past each other: joined, they are added.
    pub fn new(
        proximity_domain: u32,
        cache_size: u64,
        total_cache_levels: CacheLevel,
        this_cache_level: CacheLevel,
        associativity: Associativity,
        write_policy: WritePolicy,
        cacheline_size: u16,
    ) -> Self
        ensures { result ≡ side_of proximity_domain cache_size total_cache_levels this_cache_level associativity write_policy cacheline_size }
    {
        let attributes = u32::from(total_cache_levels)
            | (u32::from(this_cache_level) << 4)
            | (u32::from(associativity) << 8)
            | (u32::from(write_policy) << 12)
            | ((cacheline_size as u32) << 16);
        Self {
            proximity_domain,
            cache_size,
            attributes,
            smbios_handles: 0,
        }
    }

    // The length of the record.
    pub fn len(self) -> usize
        ensures { result ≡ size (side_form self) }
    {
        Self::LEN + SmbiosHandle::LEN * self.smbios_handles as usize
    }

    // Writes the record without handles.
    pub fn put(self, out: &mut [u8], at: usize)
        ensures { out.new ≡ over out.old at (side_front self) }
    {
        let vs = [
            Self::TYPE as u64,
            0,
            self.len() as u64,
            self.proximity_domain as u64,
            0,
            self.cache_size,
            self.attributes as u64,
            0,
            self.smbios_handles as u64,
        ];
        field::put_all(out, at, &Self::WIDTHS, &vs);
    }

    fn handle_place(at: usize, i: usize) -> usize
        ensures { result ≡ min (at + 32 + 2 * i) (2 ^ 64 - 1) }
    {
        field::behind(at.saturating_add(Self::LEN), SmbiosHandle::LEN, i)
    }

    // Writes a handle of the side cache at a place.
    fn put_handle(out: &mut [u8], at: usize, i: usize, handle: u16)
        ensures { out.new ≡ over out.old (at + 32 + 2 * i) (le 2 handle) }
    {
        let place = Self::handle_place(at, i);
        field::put(out, place, handle);
    }

    // Whether a record of n handles takes no more.
    pub fn is_full(n: u16) -> bool
        ensures { result ≡ leb 65535 n }
    {
        Self::MAX_HANDLES <= n
    }

    // Makes of the record of n handles, at a place, that of one handle more.
    pub fn grow(out: &mut [u8], at: usize, n: u16, handle: SmbiosHandle)
        ensures { out.new ≡ grown out.old at n handle.0 }
    {
        let more = n as u32 + 1;
        field::put(
            out,
            at.saturating_add(4),
            Self::LEN as u32 + SmbiosHandle::LEN as u32 * more,
        );
        field::put(out, at.saturating_add(30), (more % 65536) as u16);
        Self::put_handle(out, at, n as usize, handle.0);
    }

    // Reads the record at a place, without handles.
    pub fn get(table: &[u8], at: usize) -> Self
        ensures { side_head result ≡ trimmed 3 (node_at as_is (form_in sides (drop at table.now)) (drop at table.now)) }
    {
        let s = field::rest(table, at);
        Self {
            proximity_domain: field::get(s, 8),
            cache_size: field::get(s, 16),
            attributes: field::get(s, 24),
            smbios_handles: field::get(s, 30),
        }
    }

    // Reads a handle of the side cache at a place.
    pub fn smbios_handle(table: &[u8], at: usize, i: usize) -> SmbiosHandle
        ensures { result.0 ≡ value (part table.now (at + 32 + 2 * i) 2) }
    {
        SmbiosHandle(field::get(table, Self::handle_place(at, i)))
    }
    // The Length column of the row.
    #[tactic(auto, unfolding(format::specs::Row::column))]
    pub fn fits(row: &[u8]) -> bool
        ensures { result ≡ column sides row.now }
    {
        Self::LEN <= row.len()
    }

    // Zeros, fixed values, count and length of a record.
    fn is_fixed(row: &[u8]) -> bool
        ensures { result ≡ fixed_ok (layout (form_in sides row.now)) row.now }
    {
        if field::get::<u16>(row, 0) != Self::TYPE {
            return false;
        }
        if field::get::<u16>(row, 2) != 0 {
            return false;
        }
        if field::get::<u32>(row, 4) as usize != Self::get(row, 0).len() {
            return false;
        }
        if field::get::<u32>(row, 12) != 0 {
            return false;
        }
        field::get::<u16>(row, 28) == 0
    }

    // The node of a body.
    pub fn from_body(bytes: &[u8]) -> Self
        ensures { side_head result ≡ node (side 0) (fields (body Side) bytes.now) }
    {
        Self {
            proximity_domain: field::get(bytes, Self::DOMAIN_AT),
            cache_size: field::get(bytes, Self::SIZE_AT),
            attributes: field::get(bytes, Self::ATTRIBUTES_AT),
            smbios_handles: 0,
        }
    }

    // Writes kind byte and body, without handles; how many bytes that is.
    pub fn put_body(self, out: &mut [u8], at: usize) -> usize
        ensures out_after { out.new ≡ over out.old at (call Side (side_fields self)) }
        ensures value { result ≡ length (call Side (side_fields self)) }
    {
        let vs = [
            Self::KIND as u64,
            self.proximity_domain as u64,
            self.cache_size,
            self.attributes as u64,
        ];
        field::put_all(out, at, &Self::BODY_WIDTHS, &vs);
        1 + Self::BODY
    }

    // Writes the values that a reading call shows, in their order.
    pub fn put_fields(self, answer: &mut [u64], at: usize)
        ensures { answer.new ≡ over answer.old at (side_shown self) }
    {
        let vs = [
            self.proximity_domain as u64,
            self.cache_size,
            self.attributes as u64,
            self.smbios_handles as u64,
        ];
        field::copy(answer, at, &vs);
    }

    // The parts of the attributes: levels, associativity and policy, four bits each, and the line size.
    pub fn total_cache_levels(self) -> u32
        ensures { result ≡ bits self.attributes 0 4 }
    {
        self.attributes % 16
    }

    pub fn this_cache_level(self) -> u32
        ensures { result ≡ bits self.attributes 4 4 }
    {
        self.attributes / 16 % 16
    }

    pub fn associativity(self) -> u32
        ensures { result ≡ bits self.attributes 8 4 }
    {
        self.attributes / 256 % 16
    }

    pub fn write_policy(self) -> u32
        ensures { result ≡ bits self.attributes 12 4 }
    {
        self.attributes / 4096 % 16
    }

    pub fn cacheline_size(self) -> u32
        ensures { result ≡ self.attributes / 65536 }
    {
        self.attributes / 65536
    }

    // Levels, associativity and policy in their ranges.
    #[tactic(auto, unfolding(format::specs::Form::side_attributes))]
    fn is_good_attributes(self) -> bool
        ensures { result ≡ side_attributes self.attributes }
    {
        if Self::MAX_LEVEL < self.total_cache_levels() {
            return false;
        }
        if Self::MAX_LEVEL < self.this_cache_level() {
            return false;
        }
        if Self::MAX_ASSOCIATIVITY < self.associativity() {
            return false;
        }
        self.write_policy() <= Self::MAX_POLICY
    }

    // The place of the first field outside its range, counted from the kind byte.
    #[tactic(auto, unfolding(format::specs::Field::bad_field, format::specs::Field::first_bad, format::specs::Kind::body, format::specs::Form::ranges))]
    pub fn bad_field(self) -> Option<usize>
        ensures { result ≡ place_or_none (bad_field (side_head self)) }
    {
        if !self.is_good_attributes() {
            return Some(1 + Self::ATTRIBUTES_AT);
        }
        None
    }

    // Whether a record is fixed where it has to be, and no field outside its range.
    pub fn is_sound(row: &[u8]) -> bool
        ensures { result ≡ sound (form_in sides row.now) row.now }
    {
        Self::is_fixed(row) && Self::get(row, 0).bad_field().is_none()
    }
}

// The SMBIOS handle of a side cache's component.
#[derive(Clone, Copy)]
pub struct SmbiosHandle(pub u16);

impl SmbiosHandle {
    // The kind byte, and the length of the body behind it.
    pub const KIND: u8 = 54;

    pub const BODY: usize = 2;

    // in a side cache's record
    pub const LEN: usize = 2;

    // Where the field stands in a body.
    pub const HANDLE_AT: usize = 0;

    // Kind, handle.
    const BODY_WIDTHS: [usize; 2] = [1, 2];

    // The handle of a body.
    pub fn from_body(bytes: &[u8]) -> Self
        ensures { handle_fields result ≡ fields (body format.Handle) bytes.now }
    {
        Self(field::get(bytes, Self::HANDLE_AT))
    }

    // Writes kind byte and body; how many bytes that is.
    pub fn put_body(self, out: &mut [u8], at: usize) -> usize
        ensures out_after { out.new ≡ over out.old at (call format.Handle (handle_fields self)) }
        ensures value { result ≡ length (call format.Handle (handle_fields self)) }
    {
        let vs = [Self::KIND as u64, self.0 as u64];
        field::put_all(out, at, &Self::BODY_WIDTHS, &vs);
        1 + Self::BODY
    }
}
