// The nodes of CEDT, which describes the memory that CXL brings: host bridges, fixed memory windows with their targets, and the mathematics of
// interleaving by XOR with its maps. Each has two writings: a record of the table (a target or a map a part of one), and a kind byte with a
// body of a recipe. What a CEDT's record is, by constants, places and ranges, stands here alone.
// What a record lists (targets, maps) lies in the table alone: a node holds the fields before it and what settles the count.
#![tactic(auto)]

ghost use Rattle.std.specs.Prelude.{◌≡◌, ◌+◌, ◌-◌, ◌*◌, ◌^◌, min, leb, length, drop};
ghost use Rattle.format.specs.Bytes.{le, value, part, over};
ghost use Rattle.format.specs.Layout.{as_is, fields, fixed_ok};
ghost use Rattle.format.specs.Form.{bridge, xor, size, layout, registers, ways};
ghost use Rattle.format.specs.Node.{node, bytes, node_at};
ghost use Rattle.format.specs.Kind.{Bridge, Window, WindowTarget, Xor, Map, body};
ghost use Rattle.format.specs.Normal.{call, calls_of_node};
ghost use Rattle.format.specs.Field.{bad_field};
ghost use Rattle.format.specs.Row.{bridges, windows, xors, column, form_in};
ghost use Rattle.format.specs.Read.{sound};
ghost use Rattle.field.specs.Place.{place_or_none};
ghost use Rattle.laws.specs.Offsets.{trimmed};
ghost use Rattle.cedt.specs.Numbers.{version_number, arithmetic_number, granularity_number, ways_number};
ghost use Rattle.cedt.specs.Cedt.{bridge_of, bridge_shown, bridge_node, window_of, window_with, window_form, window_fields, window_node, window_front, window_shown, target_in, target_fields, maths_of, maths_form, maths_fields, maths_head, maths_front, maths_shown, map_fields, grown};

// ---- row 8

#[derive(Clone, Copy)]
pub enum CxlVersion {
    Cxl1_1 = 0,
    Cxl2 = 1,
}

impl From<CxlVersion> for u32 {
    ghost from_gives = { λ version n. n ≡ version_number version };

    fn from(version: CxlVersion) -> u32 {
        version as u32
    }
}

impl CxlVersion {
    // How many bytes the registers of a bridge take.
    pub fn len(self) -> usize
        ensures { result ≡ registers (version_number self) }
    {
        match self {
            CxlVersion::Cxl1_1 => 0x2000,
            CxlVersion::Cxl2 => 0x10000,
        }
    }
}

#[derive(Clone, Copy)]
pub struct CxlHostBridge {
    pub host_bridge_uid: u32,
    pub cxl_version: u32,
    pub port_base: u64,
}

impl CxlHostBridge {
    // The kind byte, and the length of the body behind it.
    pub const KIND: u8 = 64;

    pub const BODY: usize = 13;

    pub const TYPE: u8 = 0;

    pub const LEN: usize = 32;

    // How many values a reading call shows.
    pub const FIELDS: usize = 3;

    const MAX_VERSION: u32 = 1;

    // Where the fields stand in a body.
    pub const UID_AT: usize = 0;

    pub const VERSION_AT: usize = 4;

    pub const BASE_AT: usize = 5;

    // Kind, uid, version, base.
    const BODY_WIDTHS: [usize; 4] = [1, 4, 1, 8];

    // Type, 0, length, uid, version, 4 zero, base, length of the registers.
    const WIDTHS: [usize; 8] = [1, 1, 2, 4, 4, 4, 8, 8];

    pub fn new(host_bridge_uid: u32, cxl_version: CxlVersion, port_base: u64) -> Self
        ensures { result ≡ bridge_of host_bridge_uid cxl_version port_base }
    {
        Self {
            host_bridge_uid,
            cxl_version: u32::from(cxl_version),
            port_base,
        }
    }

    // The length of the record, whatever its registers.
    pub fn len() -> usize
        ensures { result ≡ size (bridge 0) }
    {
        Self::LEN
    }

    // How many bytes its registers take: every version but 1.1 is laid out as 2 is.
    pub fn registers(self) -> usize
        ensures { result ≡ registers self.cxl_version }
    {
        if self.cxl_version == u32::from(CxlVersion::Cxl1_1) {
            return CxlVersion::Cxl1_1.len();
        }
        CxlVersion::Cxl2.len()
    }

    // Writes the record.
    pub fn put(self, out: &mut [u8], at: usize)
        ensures { out.new ≡ over out.old at (bytes as_is (bridge_node self)) }
    {
        let vs = [
            Self::TYPE as u64,
            0,
            Self::LEN as u64,
            self.host_bridge_uid as u64,
            self.cxl_version as u64,
            0,
            self.port_base,
            self.registers() as u64,
        ];
        field::put_all(out, at, &Self::WIDTHS, &vs);
    }

    // Reads the record at a place.
    pub fn get(table: &[u8], at: usize) -> Self
        ensures { bridge_node result ≡ node_at as_is (form_in bridges (drop at table.now)) (drop at table.now) }
    {
        let s = field::rest(table, at);
        Self {
            host_bridge_uid: field::get(s, 4),
            cxl_version: field::get(s, 8),
            port_base: field::get(s, 16),
        }
    }

    // The Length column of the row.
    pub fn fits(row: &[u8]) -> bool
        ensures { result ≡ column bridges row.now }
    {
        row.len() == Self::LEN
    }

    // Zeros and fixed values of a record, and the length of the registers, which is its version's.
    fn is_fixed(row: &[u8]) -> bool
        ensures { result ≡ fixed_ok (layout (form_in bridges row.now)) row.now }
    {
        if field::get::<u8>(row, 0) != Self::TYPE {
            return false;
        }
        if field::get::<u8>(row, 1) != 0 {
            return false;
        }
        if field::get::<u16>(row, 2) as usize != Self::LEN {
            return false;
        }
        if field::get::<u32>(row, 12) != 0 {
            return false;
        }
        field::get::<u64>(row, 24) == Self::get(row, 0).registers() as u64
    }

    // The node of a body.
    pub fn from_body(bytes: &[u8]) -> Self
        ensures { bridge_shown result ≡ fields (body Bridge) bytes.now }
    {
        Self {
            host_bridge_uid: field::get(bytes, Self::UID_AT),
            cxl_version: field::get::<u8>(bytes, Self::VERSION_AT) as u32,
            port_base: field::get(bytes, Self::BASE_AT),
        }
    }

    // Writes kind byte and body; how many bytes that is.
    pub fn put_body(self, out: &mut [u8], at: usize) -> usize
        ensures out_after { out.new ≡ over out.old at (calls_of_node (bridge_node self)) }
        ensures value { result ≡ length (calls_of_node (bridge_node self)) }
    {
        let vs = [
            Self::KIND as u64,
            self.host_bridge_uid as u64,
            self.cxl_version as u64,
            self.port_base,
        ];
        field::put_all(out, at, &Self::BODY_WIDTHS, &vs);
        1 + Self::BODY
    }

    // Writes the values that a reading call shows, in their order.
    pub fn put_fields(self, answer: &mut [u64], at: usize)
        ensures { answer.new ≡ over answer.old at (bridge_shown self) }
    {
        let vs = [
            self.host_bridge_uid as u64,
            self.cxl_version as u64,
            self.port_base,
        ];
        field::copy(answer, at, &vs);
    }

    // The place of the first field outside its range, counted from the kind byte.
    pub fn bad_field(self) -> Option<usize>
        ensures { result ≡ place_or_none (bad_field (bridge_node self)) }
    {
        if Self::MAX_VERSION < self.cxl_version {
            return Some(1 + Self::VERSION_AT);
        }
        None
    }

    // Whether a record is fixed where it has to be, and no field outside its range.
    pub fn is_sound(row: &[u8]) -> bool
        ensures { result ≡ sound (form_in bridges row.now) row.now }
    {
        Self::is_fixed(row) && Self::get(row, 0).bad_field().is_none()
    }
}

// ---- row 9

#[derive(Clone, Copy)]
pub enum InterleaveArithmetic {
    Modulo = 0,
    ModuloXor = 1,
}

impl From<InterleaveArithmetic> for u8 {
    ghost from_gives = { λ arithmetic n. n ≡ arithmetic_number arithmetic };

    fn from(arithmetic: InterleaveArithmetic) -> u8 {
        arithmetic as u8
    }
}

#[derive(Clone, Copy)]
pub enum InterleaveGranularity {
    Granularity256b = 0,
    Granularity512b = 1,
    Granularity1kb = 2,
    Granularity2kb = 3,
    Granularity4kb = 4,
    Granularity8kb = 5,
    Granularity16kb = 6,
}

impl From<InterleaveGranularity> for u8 {
    ghost from_gives = { λ granularity n. n ≡ granularity_number granularity };

    fn from(granularity: InterleaveGranularity) -> u8 {
        granularity as u8
    }
}

impl InterleaveGranularity {
    // the highest number, which windows and XOR maths have in common
    const MAX: u8 = 6;
}

#[derive(Clone, Copy)]
pub enum InterleaveWays {
    Ways1 = 0,
    Ways2 = 1,
    Ways4 = 2,
    Ways8 = 3,
    // the rest are for CXL.mem alone, version 2 and above
    Ways16 = 4,
    Ways3 = 8,
    Ways6 = 9,
    Ways12 = 10,
}

// The code, which is not the number of ways.
impl From<InterleaveWays> for u8 {
    ghost from_gives = { λ ways n. n ≡ ways_number ways };

    fn from(ways: InterleaveWays) -> u8 {
        ways as u8
    }
}

// The specification wants the base at a multiple of 256 MiB, and the size a multiple of that times the ways; neither is tested here.
#[derive(Clone, Copy)]
pub struct CxlFixedMemory {
    pub base_addr: u64,
    pub size: u64,
    // the code of how many targets share the memory
    pub interleave_ways: u8,
    pub interleave_arithmetic: u8,
    // how many consecutive bytes are of one target
    pub interleave_granularity: u32,
    // on the use of the window
    pub window_restrictions: u16,
    // the group of the window in throttling
    pub qtg_id: u16,
}

impl CxlFixedMemory {
    // The kind byte, and the length of the body behind it.
    pub const KIND: u8 = 65;

    pub const BODY: usize = 22;

    pub const TYPE: u8 = 1;

    // without targets
    pub const LEN: usize = 36;

    // with the one target that every window has
    const LEAST: usize = 40;

    // How many values a reading call shows.
    pub const FIELDS: usize = 7;

    pub const CXL_TYPE_2_MEMORY: u16 = 0x01;

    pub const CXL_TYPE_3_MEMORY: u16 = 0x02;

    pub const VOLATILE: u16 = 0x04;

    pub const PERSISTENT: u16 = 0x08;

    pub const FIXED_CONFIGURATION: u16 = 0x10;

    // the highest arithmetic, and all restrictions together
    const MAX_ARITHMETIC: u8 = 1;

    const MAX_RESTRICTIONS: u16 = 31;

    // Where the fields stand in a body.
    pub const BASE_AT: usize = 0;

    pub const SIZE_AT: usize = 8;

    pub const WAYS_AT: usize = 16;

    pub const ARITHMETIC_AT: usize = 17;

    pub const GRANULARITY_AT: usize = 18;

    pub const RESTRICTIONS_AT: usize = 19;

    pub const QTG_AT: usize = 20;

    // Kind, base, size, ways, arithmetic, granularity, restrictions, QTG.
    const BODY_WIDTHS: [usize; 8] = [1, 8, 8, 1, 1, 1, 1, 2];

    // Type, 0, length, 4 zero, base, size, ways, arithmetic, 2 zero, granularity, restrictions, QTG.
    const WIDTHS: [usize; 12] = [1, 1, 2, 4, 8, 8, 1, 1, 2, 4, 2, 2];

    pub fn new(
        base_addr: u64,
        size: u64,
        arithmetic: InterleaveArithmetic,
        granularity: InterleaveGranularity,
        ways: InterleaveWays,
        qtg_id: u16,
    ) -> Self
        ensures { result ≡ window_of base_addr size arithmetic granularity ways qtg_id }
    {
        Self {
            base_addr,
            size,
            interleave_ways: u8::from(ways),
            interleave_arithmetic: u8::from(arithmetic),
            interleave_granularity: u8::from(granularity) as u32,
            window_restrictions: 0,
            qtg_id,
        }
    }

    pub fn cxl_type_2_memory(mut self) -> Self
        ensures { result ≡ window_with 0 self }
    {
        self.window_restrictions |= Self::CXL_TYPE_2_MEMORY;
        self
    }

    pub fn cxl_type_3_memory(mut self) -> Self
        ensures { result ≡ window_with 1 self }
    {
        self.window_restrictions |= Self::CXL_TYPE_3_MEMORY;
        self
    }

    pub fn volatile(mut self) -> Self
        ensures { result ≡ window_with 2 self }
    {
        self.window_restrictions |= Self::VOLATILE;
        self
    }

    pub fn persistent(mut self) -> Self
        ensures { result ≡ window_with 3 self }
    {
        self.window_restrictions |= Self::PERSISTENT;
        self
    }

    pub fn fixed_configuration(mut self) -> Self
        ensures { result ≡ window_with 4 self }
    {
        self.window_restrictions |= Self::FIXED_CONFIGURATION;
        self
    }

    // How many targets the code stands for; 0 where it stands for none.
    pub fn num_interleaved_ways(self) -> u8
        ensures { result ≡ ways self.interleave_ways }
    {
        let code = self.interleave_ways;
        match code {
            0 => 1,
            1 => 2,
            2 => 4,
            3 => 8,
            4 => 16,
            8 => 3,
            9 => 6,
            10 => 12,
            _ => 0,
        }
    }

    // The length of the record.
    pub fn len(self) -> usize
        ensures { result ≡ size (window_form self) }
    {
        Self::LEN + CxlTarget::LEN * self.num_interleaved_ways() as usize
    }

    // Writes the record without targets.
    fn put_front(self, out: &mut [u8], at: usize)
        ensures { out.new ≡ over out.old at (window_front self) }
    {
        let vs = [
            Self::TYPE as u64,
            0,
            self.len() as u64,
            0,
            self.base_addr,
            self.size,
            self.interleave_ways as u64,
            self.interleave_arithmetic as u64,
            0,
            self.interleave_granularity as u64,
            self.window_restrictions as u64,
            self.qtg_id as u64,
        ];
        field::put_all(out, at, &Self::WIDTHS, &vs);
    }

    // Writes the record with every target 0.
    pub fn put(self, out: &mut [u8], at: usize)
        ensures { out.new ≡ over out.old at (bytes as_is (window_node self)) }
    {
        let targets = Self::target_place(at, 0);
        let n = CxlTarget::LEN * self.num_interleaved_ways() as usize;
        self.put_front(out, at);
        field::fill(out, targets, n, 0);
    }

    // Where target i stands of a window at a place.
    pub fn target_place(at: usize, i: usize) -> usize
        ensures { result ≡ min (target_in at i) (2 ^ 64 - 1) }
    {
        field::behind(at.saturating_add(Self::LEN), CxlTarget::LEN, i)
    }

    // Writes a target of the window at a place.
    pub fn add_target(out: &mut [u8], at: usize, i: usize, target: CxlTarget)
        ensures { out.new ≡ over out.old (target_in at i) (le 4 target.0) }
    {
        let place = Self::target_place(at, i);
        field::put(out, place, target.0);
    }

    // Reads the record at a place, without targets.
    pub fn get(table: &[u8], at: usize) -> Self
        ensures { window_node result ≡ trimmed 7 (node_at as_is (form_in windows (drop at table.now)) (drop at table.now)) }
    {
        let s = field::rest(table, at);
        Self {
            base_addr: field::get(s, 8),
            size: field::get(s, 16),
            interleave_ways: field::get(s, 24),
            interleave_arithmetic: field::get(s, 25),
            interleave_granularity: field::get(s, 28),
            window_restrictions: field::get(s, 32),
            qtg_id: field::get(s, 34),
        }
    }

    // Reads a target of the window at a place.
    pub fn interleave_target(table: &[u8], at: usize, i: usize) -> CxlTarget
        ensures { result.0 ≡ value (part table.now (target_in at i) 4) }
    {
        CxlTarget(field::get(table, Self::target_place(at, i)))
    }

    // The Length column of the row: a window without a target is unknown, not faulty.
    pub fn fits(row: &[u8]) -> bool
        ensures { result ≡ column windows row.now }
    {
        Self::LEAST <= row.len()
    }

    // Zeros, fixed values and length of a record.
    fn is_fixed(row: &[u8]) -> bool
        ensures { result ≡ fixed_ok (layout (form_in windows row.now)) row.now }
    {
        if field::get::<u8>(row, 0) != Self::TYPE {
            return false;
        }
        if field::get::<u8>(row, 1) != 0 {
            return false;
        }
        if field::get::<u16>(row, 2) as usize != Self::get(row, 0).len() {
            return false;
        }
        if field::get::<u32>(row, 4) != 0 {
            return false;
        }
        field::get::<u16>(row, 26) == 0
    }

    // The node of a body.
    pub fn from_body(bytes: &[u8]) -> Self
        ensures { window_fields result ≡ fields (body Window) bytes.now }
    {
        Self {
            base_addr: field::get(bytes, Self::BASE_AT),
            size: field::get(bytes, Self::SIZE_AT),
            interleave_ways: field::get(bytes, Self::WAYS_AT),
            interleave_arithmetic: field::get(bytes, Self::ARITHMETIC_AT),
            interleave_granularity: field::get::<u8>(bytes, Self::GRANULARITY_AT) as u32,
            window_restrictions: field::get::<u8>(bytes, Self::RESTRICTIONS_AT) as u16,
            qtg_id: field::get(bytes, Self::QTG_AT),
        }
    }

    // Writes kind byte and body, without targets; how many bytes that is.
    pub fn put_body(self, out: &mut [u8], at: usize) -> usize
        ensures out_after { out.new ≡ over out.old at (call Window (window_fields self)) }
        ensures value { result ≡ length (call Window (window_fields self)) }
    {
        let vs = [
            Self::KIND as u64,
            self.base_addr,
            self.size,
            self.interleave_ways as u64,
            self.interleave_arithmetic as u64,
            self.interleave_granularity as u64,
            self.window_restrictions as u64,
            self.qtg_id as u64,
        ];
        field::put_all(out, at, &Self::BODY_WIDTHS, &vs);
        1 + Self::BODY
    }

    // Writes the values that a reading call shows, in their order.
    pub fn put_fields(self, answer: &mut [u64], at: usize)
        ensures { answer.new ≡ over answer.old at (window_shown self) }
    {
        let vs = [
            self.base_addr,
            self.size,
            self.interleave_ways as u64,
            self.interleave_arithmetic as u64,
            self.interleave_granularity as u64,
            self.window_restrictions as u64,
            self.qtg_id as u64,
        ];
        field::copy(answer, at, &vs);
    }

    // The place of the first field outside its range, counted from the kind byte.
    pub fn bad_field(self) -> Option<usize>
        ensures { result ≡ place_or_none (bad_field (window_node self)) }
    {
        if self.num_interleaved_ways() == 0 {
            return Some(1 + Self::WAYS_AT);
        }
        if Self::MAX_ARITHMETIC < self.interleave_arithmetic {
            return Some(1 + Self::ARITHMETIC_AT);
        }
        if (InterleaveGranularity::MAX as u32) < self.interleave_granularity {
            return Some(1 + Self::GRANULARITY_AT);
        }
        if Self::MAX_RESTRICTIONS < self.window_restrictions {
            return Some(1 + Self::RESTRICTIONS_AT);
        }
        None
    }

    // Whether a record is fixed where it has to be, and no field outside its range.
    pub fn is_sound(row: &[u8]) -> bool
        ensures { result ≡ sound (form_in windows row.now) row.now }
    {
        Self::is_fixed(row) && Self::get(row, 0).bad_field().is_none()
    }
}

// The ACPI UID of a target of a window; where that is a host bridge, it has a record of row 8.
#[derive(Clone, Copy)]
pub struct CxlTarget(pub u32);

impl CxlTarget {
    // The kind byte, and the length of the body behind it.
    pub const KIND: u8 = 66;

    pub const BODY: usize = 4;

    // in a window's record
    pub const LEN: usize = 4;

    // Where the field stands in a body.
    pub const UID_AT: usize = 0;

    // Kind, uid.
    const BODY_WIDTHS: [usize; 2] = [1, 4];

    // The target of a body.
    pub fn from_body(bytes: &[u8]) -> Self
        ensures { target_fields result ≡ fields (body WindowTarget) bytes.now }
    {
        Self(field::get(bytes, Self::UID_AT))
    }

    // Writes kind byte and body; how many bytes that is.
    pub fn put_body(self, out: &mut [u8], at: usize) -> usize
        ensures out_after { out.new ≡ over out.old at (call WindowTarget (target_fields self)) }
        ensures value { result ≡ length (call WindowTarget (target_fields self)) }
    {
        let vs = [Self::KIND as u64, self.0 as u64];
        field::put_all(out, at, &Self::BODY_WIDTHS, &vs);
        1 + Self::BODY
    }
}

// ---- row 10

// How the windows of a granularity whose arithmetic is by XOR find the target of an address.
#[derive(Clone, Copy)]
pub struct XorInterleaveMath {
    pub granularity: u8,
    // how many
    pub xormaps: u8,
}

impl XorInterleaveMath {
    // The kind byte, and the length of the body behind it.
    pub const KIND: u8 = 67;

    pub const BODY: usize = 1;

    pub const TYPE: u8 = 2;

    // without maps
    pub const LEN: usize = 8;

    // How many values a reading call shows.
    pub const FIELDS: usize = 2;

    const MAX_XORMAPS: u8 = 255;

    // Where the field stands in a body.
    pub const GRANULARITY_AT: usize = 0;

    // Kind, granularity.
    const BODY_WIDTHS: [usize; 2] = [1, 1];

    // Type, 0, length, 2 zero, granularity, n.
    const WIDTHS: [usize; 6] = [1, 1, 2, 2, 1, 1];

    pub fn new(granularity: InterleaveGranularity) -> Self
        ensures { result ≡ maths_of granularity }
    {
        Self {
            granularity: u8::from(granularity),
            xormaps: 0,
        }
    }

    // The length of the record.
    pub fn len(self) -> usize
        ensures { result ≡ size (maths_form self) }
    {
        Self::LEN + XorMap::LEN * self.xormaps as usize
    }

    // Writes the record without maps.
    pub fn put(self, out: &mut [u8], at: usize)
        ensures { out.new ≡ over out.old at (maths_front self) }
    {
        let vs = [
            Self::TYPE as u64,
            0,
            self.len() as u64,
            0,
            self.granularity as u64,
            self.xormaps as u64,
        ];
        field::put_all(out, at, &Self::WIDTHS, &vs);
    }

    fn map_place(at: usize, i: usize) -> usize
        ensures { result ≡ min (at + 8 + 8 * i) (2 ^ 64 - 1) }
    {
        field::behind(at.saturating_add(Self::LEN), XorMap::LEN, i)
    }

    // Writes a map of the record at a place.
    fn put_map(out: &mut [u8], at: usize, i: usize, map: u64)
        ensures { out.new ≡ over out.old (at + 8 + 8 * i) (le 8 map) }
    {
        let place = Self::map_place(at, i);
        field::put(out, place, map);
    }

    // Whether a record of n maps takes no more.
    pub fn is_full(n: u8) -> bool
        ensures { result ≡ leb 255 n }
    {
        Self::MAX_XORMAPS <= n
    }

    // Makes of the record of n maps, at a place, that of one map more.
    pub fn add_xormap(out: &mut [u8], at: usize, n: u16, map: XorMap)
        ensures { out.new ≡ grown out.old at n map.0 }
    {
        let more = n as u32 + 1;
        let len = Self::LEN as u32 + XorMap::LEN as u32 * more;
        field::put(out, at.saturating_add(2), (len % 65536) as u16);
        field::put(out, at.saturating_add(7), (more % 256) as u8);
        Self::put_map(out, at, n as usize, map.0);
    }

    // Reads the record at a place, without maps.
    pub fn get(table: &[u8], at: usize) -> Self
        ensures { maths_head result ≡ trimmed 1 (node_at as_is (form_in xors (drop at table.now)) (drop at table.now)) }
    {
        let s = field::rest(table, at);
        Self {
            granularity: field::get(s, 6),
            xormaps: field::get(s, 7),
        }
    }

    // Reads a map of the record at a place.
    pub fn xormap(table: &[u8], at: usize, i: usize) -> XorMap
        ensures { result.0 ≡ value (part table.now (at + 8 + 8 * i) 8) }
    {
        XorMap(field::get(table, Self::map_place(at, i)))
    }

    // The Length column of the row.
    pub fn fits(row: &[u8]) -> bool
        ensures { result ≡ column xors row.now }
    {
        Self::LEN <= row.len()
    }

    // Zeros, fixed values, count and length of a record.
    fn is_fixed(row: &[u8]) -> bool
        ensures { result ≡ fixed_ok (layout (form_in xors row.now)) row.now }
    {
        if field::get::<u8>(row, 0) != Self::TYPE {
            return false;
        }
        if field::get::<u8>(row, 1) != 0 {
            return false;
        }
        if field::get::<u16>(row, 2) as usize != Self::get(row, 0).len() {
            return false;
        }
        field::get::<u16>(row, 4) == 0
    }

    // The node of a body.
    pub fn from_body(bytes: &[u8]) -> Self
        ensures { maths_head result ≡ node (xor 0) (fields (body Xor) bytes.now) }
    {
        Self {
            granularity: field::get(bytes, Self::GRANULARITY_AT),
            xormaps: 0,
        }
    }

    // Writes kind byte and body, without maps; how many bytes that is.
    pub fn put_body(self, out: &mut [u8], at: usize) -> usize
        ensures out_after { out.new ≡ over out.old at (call Xor (maths_fields self)) }
        ensures value { result ≡ length (call Xor (maths_fields self)) }
    {
        let vs = [Self::KIND as u64, self.granularity as u64];
        field::put_all(out, at, &Self::BODY_WIDTHS, &vs);
        1 + Self::BODY
    }

    // Writes the values that a reading call shows, in their order.
    pub fn put_fields(self, answer: &mut [u64], at: usize)
        ensures { answer.new ≡ over answer.old at (maths_shown self) }
    {
        let vs = [self.granularity as u64, self.xormaps as u64];
        field::copy(answer, at, &vs);
    }

    // The place of the first field outside its range, counted from the kind byte.
    pub fn bad_field(self) -> Option<usize>
        ensures { result ≡ place_or_none (bad_field (maths_head self)) }
    {
        if InterleaveGranularity::MAX < self.granularity {
            return Some(1 + Self::GRANULARITY_AT);
        }
        None
    }

    // Whether a record is fixed where it has to be, and no field outside its range.
    pub fn is_sound(row: &[u8]) -> bool
        ensures { result ≡ sound (form_in xors row.now) row.now }
    {
        Self::is_fixed(row) && Self::get(row, 0).bad_field().is_none()
    }
}

// Which bits of an address are joined by XOR into one bit of the number of its target.
#[derive(Clone, Copy)]
pub struct XorMap(pub u64);

impl XorMap {
    // The kind byte, and the length of the body behind it.
    pub const KIND: u8 = 68;

    pub const BODY: usize = 8;

    // in a record of row 10
    pub const LEN: usize = 8;

    // Where the field stands in a body.
    pub const MAP_AT: usize = 0;

    // Kind, map.
    const BODY_WIDTHS: [usize; 2] = [1, 8];

    // The map of a body.
    pub fn from_body(bytes: &[u8]) -> Self
        ensures { map_fields result ≡ fields (body Map) bytes.now }
    {
        Self(field::get(bytes, Self::MAP_AT))
    }

    // Writes kind byte and body; how many bytes that is.
    pub fn put_body(self, out: &mut [u8], at: usize) -> usize
        ensures out_after { out.new ≡ over out.old at (call Map (map_fields self)) }
        ensures value { result ≡ length (call Map (map_fields self)) }
    {
        let vs = [Self::KIND as u64, self.0];
        field::put_all(out, at, &Self::BODY_WIDTHS, &vs);
        1 + Self::BODY
    }
}
