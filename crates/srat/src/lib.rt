// The nodes of SRAT, the table that defines proximity domains, each with its two writings: a record of the table, and a kind byte with a
// body of a recipe. What an SRAT's record is, by constants, places and ranges, stands here alone.
#![tactic(auto)]

ghost use Rattle.std.specs.Prelude.{◌≡◌, ◌∷◌, [], ◌%◌, length, drop, eqb, leb};
ghost use Rattle.format.specs.Bytes.{value, part, over};
ghost use Rattle.format.specs.Layout.{two, number, as_is, fields, fixed_ok};
ghost use Rattle.format.specs.Form.{memory, acpi, pci, rintc, old_rintc, size, layout};
ghost use Rattle.format.specs.Node.{node, bytes, node_at};
ghost use Rattle.format.specs.Kind.{Memory, Acpi, Pci, Rintc, body};
ghost use Rattle.format.specs.Normal.{calls_of_node};
ghost use Rattle.format.specs.Field.{bad_field};
ghost use Rattle.format.specs.Row.{initiators, form_in};
ghost use Rattle.format.specs.Read.{sound};
ghost use Rattle.field.specs.Place.{place_or_none};
ghost use Rattle.srat.specs.Srat.{handle_fixed, rintc_fixed, handle_bad, flags_place, memory_node, initiator_node, rintc_node, old_rintc_node, memory_shown, initiator_shown, rintc_shown, old_rintc_shown, memory_of, memory_with, initiator_of, initiator_with, rintc_of, rintc_with};

#[derive(Clone, Copy)]
pub struct MemoryAffinity {
    pub proximity_domain: u32,
    pub base_address: u64,
    pub length: u64,
    pub flags: u32,
}

impl MemoryAffinity {
    // The kind byte, and the length of the body behind it.
    pub const KIND: u8 = 32;

    pub const BODY: usize = 21;

    pub const TYPE: u8 = 1;

    pub const LEN: usize = 40;

    // How many values a reading call shows.
    pub const FIELDS: usize = 4;

    pub const ENABLED: u32 = 1;

    pub const HOT_PLUGGABLE: u32 = 2;

    pub const NON_VOLATILE: u32 = 4;

    // All flags.
    const FLAGS: u32 = 7;

    // Where the fields stand in a body.
    pub const DOMAIN_AT: usize = 0;

    pub const BASE_AT: usize = 4;

    pub const LENGTH_AT: usize = 12;

    pub const FLAGS_AT: usize = 20;

    // Kind, domain, base, length, flags.
    const BODY_WIDTHS: [usize; 5] = [1, 4, 8, 8, 1];

    // Type, length, domain, 2 zero, base, length, 4 zero, flags, 8 zero.
    const WIDTHS: [usize; 9] = [1, 1, 4, 2, 8, 8, 4, 4, 8];

    pub fn new(proximity_domain: u32, base_address: u64, length: u64) -> Self
        ensures { result ≡ memory_of proximity_domain base_address «length» }
    {
        Self {
            proximity_domain,
            base_address,
            length,
            flags: 0,
        }
    }

    pub fn enabled(mut self) -> Self
        ensures { result ≡ memory_with 0 self }
    {
        self.flags |= Self::ENABLED;
        self
    }

    pub fn hotpluggable(mut self) -> Self
        ensures { result ≡ memory_with 1 self }
    {
        self.flags |= Self::HOT_PLUGGABLE;
        self
    }

    pub fn nonvolatile(mut self) -> Self
        ensures { result ≡ memory_with 2 self }
    {
        self.flags |= Self::NON_VOLATILE;
        self
    }

    pub fn len() -> usize
        ensures { result ≡ size memory }
    {
        Self::LEN
    }

    // Writes the record.
    pub fn put(self, out: &mut [u8], at: usize)
        ensures { out.new ≡ over out.old at (bytes as_is (memory_node self)) }
    {
        let vs = [
            Self::TYPE as u64,
            Self::LEN as u64,
            self.proximity_domain as u64,
            0,
            self.base_address,
            self.length,
            0,
            self.flags as u64,
            0,
        ];
        field::put_all(out, at, &Self::WIDTHS, &vs);
    }

    // Reads the record at a place.
    pub fn get(table: &[u8], at: usize) -> Self
        ensures { memory_node result ≡ node_at as_is memory (drop at table.now) }
    {
        let s = field::rest(table, at);
        Self {
            proximity_domain: field::get(s, 2),
            base_address: field::get(s, 8),
            length: field::get(s, 16),
            flags: field::get(s, 28),
        }
    }

    // Zeros and fixed values of a record.
    fn is_fixed(row: &[u8]) -> bool
        ensures { result ≡ fixed_ok (layout memory) row.now }
    {
        if field::get::<u8>(row, 0) != Self::TYPE {
            return false;
        }
        if field::get::<u8>(row, 1) as usize != Self::LEN {
            return false;
        }
        if field::get::<u16>(row, 6) != 0 {
            return false;
        }
        if field::get::<u32>(row, 24) != 0 {
            return false;
        }
        field::get::<u64>(row, 32) == 0
    }

    // The node of a body.
    pub fn from_body(bytes: &[u8]) -> Self
        ensures { memory_node result ≡ node memory (fields (body Memory) bytes.now) }
    {
        Self {
            proximity_domain: field::get(bytes, Self::DOMAIN_AT),
            base_address: field::get(bytes, Self::BASE_AT),
            length: field::get(bytes, Self::LENGTH_AT),
            flags: field::get::<u8>(bytes, Self::FLAGS_AT) as u32,
        }
    }

    // Writes kind byte and body; how many bytes that is.
    pub fn put_body(self, out: &mut [u8], at: usize) -> usize
        ensures out_after { out.new ≡ over out.old at (calls_of_node (memory_node self)) }
        ensures value { result ≡ length (calls_of_node (memory_node self)) }
    {
        let vs = [
            Self::KIND as u64,
            self.proximity_domain as u64,
            self.base_address,
            self.length,
            self.flags as u64,
        ];
        field::put_all(out, at, &Self::BODY_WIDTHS, &vs);
        1 + Self::BODY
    }

    // Writes the values that a reading call shows, in their order.
    pub fn put_fields(self, answer: &mut [u64], at: usize)
        ensures { answer.new ≡ over answer.old at (memory_shown self) }
    {
        let vs = [
            self.proximity_domain as u64,
            self.base_address,
            self.length,
            self.flags as u64,
        ];
        field::copy(answer, at, &vs);
    }

    // The place of the first field outside its range, counted from the kind byte.
    pub fn bad_field(self) -> Option<usize>
        ensures { result ≡ place_or_none (bad_field (memory_node self)) }
    {
        if Self::FLAGS < self.flags {
            return Some(1 + Self::FLAGS_AT);
        }
        None
    }

    // Whether a record is fixed where it has to be, and no field outside its range.
    pub fn is_sound(row: &[u8]) -> bool
        ensures { result ≡ sound memory row.now }
    {
        Self::is_fixed(row) && Self::get(row, 0).bad_field().is_none()
    }
}

// Which device an initiator is. An enum holds no arrays here: hid and uid are the numbers that their bytes stand for.
#[derive(Clone, Copy)]
pub enum Handle {
    Acpi {
        hid: u64,
        uid: u32,
    },
    Pci {
        segment: u16,
        bus: u8,
        device: u8,
        function: u8,
    },
}

impl Handle {
    const ACPI: u8 = 0;

    const PCI: u8 = 1;

    const MAX_DEVICE: u8 = 31;

    const MAX_FUNCTION: u8 = 7;

    pub fn new_acpi(hid: u64, uid: u32) -> Self
        ensures { result ≡ Handle.Acpi hid uid }
    {
        Handle::Acpi { hid, uid }
    }

    // Segment must be 0 for systems with fewer than 255 buses. Whether device is below 32 and function below 8 is for
    // the caller to test: what is given is kept.
    pub fn new_pci(segment: u16, bus: u8, device: u8, function: u8) -> Self
        ensures { result ≡ Handle.Pci segment bus device function }
    {
        Handle::Pci {
            segment,
            bus,
            device,
            function,
        }
    }

    // Device and function in one byte.
    fn devfn(device: u8, function: u8) -> u8
        ensures { result ≡ number (two 1 8) (device ∷ function ∷ []) % 256 }
    {
        ((device as u16 * 8 + function as u16) % 256) as u8
    }

    // Twelve zeros behind device and function.
    fn is_pci_fixed(row: &[u8]) -> bool
        ensures { result ≡ eqb (value (part row.now 12 12)) 0 }
    {
        if field::get::<u32>(row, 12) != 0 {
            return false;
        }
        field::get::<u64>(row, 16) == 0
    }

    // The handle type of an initiator's record, and the zeros behind the handle.
    fn is_fixed(row: &[u8]) -> bool
        ensures { result ≡ handle_fixed row.now }
    {
        match field::get::<u8>(row, 3) {
            Self::ACPI => field::get::<u32>(row, 20) == 0,
            Self::PCI => Self::is_pci_fixed(row),
            _ => false,
        }
    }

    // The place of its first field outside its range, counted from the kind byte.
    fn bad_field(self) -> Option<usize>
        ensures { result ≡ place_or_none (handle_bad self) }
    {
        let Handle::Pci {
            device,
            function,
            ..
        } = self
        else {
            return None;
        };
        if Self::MAX_DEVICE < device {
            return Some(1 + GenericInitiator::DEVICE_AT);
        }
        if Self::MAX_FUNCTION < function {
            return Some(1 + GenericInitiator::FUNCTION_AT);
        }
        None
    }

    // The place of the flags behind it, counted from the kind byte.
    fn flags_place(self) -> usize
        ensures { result ≡ flags_place self }
    {
        match self {
            Handle::Acpi { .. } => 1 + GenericInitiator::ACPI_FLAGS_AT,
            Handle::Pci { .. } => 1 + GenericInitiator::PCI_FLAGS_AT,
        }
    }
}

#[derive(Clone, Copy)]
pub struct GenericInitiator {
    pub proximity_domain: u32,
    pub handle: Handle,
    pub flags: u32,
}

impl GenericInitiator {
    // The kind bytes by handle, and the lengths of the bodies behind them.
    pub const ACPI_KIND: u8 = 33;

    pub const PCI_KIND: u8 = 34;

    pub const ACPI_BODY: usize = 17;

    pub const PCI_BODY: usize = 10;

    pub const TYPE: u8 = 5;

    pub const LEN: usize = 32;

    // How many values a reading call shows, by handle.
    const ACPI_FIELDS: usize = 5;

    const PCI_FIELDS: usize = 7;

    pub const ENABLED: u32 = 1;

    pub const ARCHITECTURAL: u32 = 2;

    // All flags.
    const FLAGS: u32 = 3;

    // Where the fields stand in a body: in both, with an ACPI handle, with a PCI handle.
    pub const DOMAIN_AT: usize = 0;

    pub const HID_AT: usize = 4;

    pub const UID_AT: usize = 12;

    pub const ACPI_FLAGS_AT: usize = 16;

    pub const SEGMENT_AT: usize = 4;

    pub const BUS_AT: usize = 6;

    pub const DEVICE_AT: usize = 7;

    pub const FUNCTION_AT: usize = 8;

    pub const PCI_FLAGS_AT: usize = 9;

    // Kind, domain, hid, uid, flags.
    const ACPI_BODY_WIDTHS: [usize; 5] = [1, 4, 8, 4, 1];

    // Kind, domain, segment, bus, device, function, flags.
    const PCI_BODY_WIDTHS: [usize; 7] = [1, 4, 2, 1, 1, 1, 1];

    // Type, length, 0, handle type, domain, hid, uid, 4 zero, flags, 4 zero.
    const ACPI_WIDTHS: [usize; 10] = [1, 1, 1, 1, 4, 8, 4, 4, 4, 4];

    // Type, length, 0, handle type, domain, segment, bus, device and function, 12 zero, flags, 4 zero.
    const PCI_WIDTHS: [usize; 11] = [1, 1, 1, 1, 4, 2, 1, 1, 12, 4, 4];

    pub fn new(proximity_domain: u32, handle: Handle) -> Self
        ensures { result ≡ initiator_of proximity_domain handle }
    {
        Self {
            proximity_domain,
            handle,
            flags: 0,
        }
    }

    pub fn enabled(mut self) -> Self
        ensures { result ≡ initiator_with 0 self }
    {
        self.flags |= Self::ENABLED;
        self
    }

    pub fn architectural(mut self) -> Self
        ensures { result ≡ initiator_with 1 self }
    {
        self.flags |= Self::ARCHITECTURAL;
        self
    }

    // One length for both handles.
    pub fn len() -> usize
        ensures { result ≡ size acpi }
    {
        Self::LEN
    }

    // Writes the record of an ACPI device.
    fn put_acpi(self, hid: u64, uid: u32, out: &mut [u8], at: usize)
        ensures { out.new ≡ over out.old at (bytes as_is (node acpi (self.proximity_domain ∷ hid ∷ uid ∷ self.flags ∷ []))) }
    {
        let vs = [
            Self::TYPE as u64,
            Self::LEN as u64,
            0,
            Handle::ACPI as u64,
            self.proximity_domain as u64,
            hid,
            uid as u64,
            0,
            self.flags as u64,
            0,
        ];
        field::put_all(out, at, &Self::ACPI_WIDTHS, &vs);
    }

    // Writes the record of a PCI device.
    fn put_pci(self, segment: u16, bus: u8, device: u8, function: u8, out: &mut [u8], at: usize)
        ensures { out.new ≡ over out.old at (bytes as_is (node pci (self.proximity_domain ∷ segment ∷ bus ∷ device ∷ function ∷ self.flags ∷ []))) }
    {
        let vs = [
            Self::TYPE as u64,
            Self::LEN as u64,
            0,
            Handle::PCI as u64,
            self.proximity_domain as u64,
            segment as u64,
            bus as u64,
            Handle::devfn(device, function) as u64,
            0,
            self.flags as u64,
            0,
        ];
        field::put_all(out, at, &Self::PCI_WIDTHS, &vs);
    }

    // Writes the record.
    pub fn put(self, out: &mut [u8], at: usize)
        ensures { out.new ≡ over out.old at (bytes as_is (initiator_node self)) }
    {
        match self.handle {
            Handle::Acpi { hid, uid } => self.put_acpi(hid, uid, out, at),
            Handle::Pci {
                segment,
                bus,
                device,
                function,
            } => self.put_pci(segment, bus, device, function, out, at),
        }
    }

    // Reads the record at a place; a handle type that is not 0 is taken for PCI.
    pub fn get(table: &[u8], at: usize) -> Self
        ensures { initiator_node result ≡ node_at as_is (form_in initiators (drop at table.now)) (drop at table.now) }
    {
        let s = field::rest(table, at);
        let proximity_domain = field::get::<u32>(s, 4);
        let flags = field::get::<u32>(s, 24);
        let handle = if field::get::<u8>(s, 3) == Handle::ACPI {
            Handle::new_acpi(field::get::<u64>(s, 8), field::get::<u32>(s, 16))
        } else {
            let devfn = field::get::<u8>(s, 11);
            Handle::new_pci(
                field::get::<u16>(s, 8),
                field::get::<u8>(s, 10),
                devfn / 8,
                devfn % 8,
            )
        };
        Self {
            proximity_domain,
            handle,
            flags,
        }
    }

    // Zeros, fixed values and handle type of a record.
    fn is_fixed(row: &[u8]) -> bool
        ensures { result ≡ fixed_ok (layout (form_in initiators row.now)) row.now }
    {
        if field::get::<u8>(row, 0) != Self::TYPE {
            return false;
        }
        if field::get::<u8>(row, 1) as usize != Self::LEN {
            return false;
        }
        if field::get::<u8>(row, 2) != 0 {
            return false;
        }
        if !Handle::is_fixed(row) {
            return false;
        }
        field::get::<u32>(row, 28) == 0
    }

    // The node of an ACPI device's body.
    pub fn from_acpi_body(bytes: &[u8]) -> Self
        ensures { initiator_node result ≡ node acpi (fields (body Acpi) bytes.now) }
    {
        let handle = Handle::new_acpi(
            field::get::<u64>(bytes, Self::HID_AT),
            field::get::<u32>(bytes, Self::UID_AT),
        );
        Self {
            proximity_domain: field::get(bytes, Self::DOMAIN_AT),
            handle,
            flags: field::get::<u8>(bytes, Self::ACPI_FLAGS_AT) as u32,
        }
    }

    // The node of a PCI device's body.
    pub fn from_pci_body(bytes: &[u8]) -> Self
        ensures { initiator_node result ≡ node pci (fields (body Pci) bytes.now) }
    {
        let handle = Handle::new_pci(
            field::get::<u16>(bytes, Self::SEGMENT_AT),
            field::get::<u8>(bytes, Self::BUS_AT),
            field::get::<u8>(bytes, Self::DEVICE_AT),
            field::get::<u8>(bytes, Self::FUNCTION_AT),
        );
        Self {
            proximity_domain: field::get(bytes, Self::DOMAIN_AT),
            handle,
            flags: field::get::<u8>(bytes, Self::PCI_FLAGS_AT) as u32,
        }
    }

    // Writes kind byte and body of an ACPI device.
    fn put_acpi_body(self, hid: u64, uid: u32, out: &mut [u8], at: usize) -> usize
        ensures out_after { out.new ≡ over out.old at (calls_of_node (node acpi (self.proximity_domain ∷ hid ∷ uid ∷ self.flags ∷ []))) }
        ensures value { result ≡ length (calls_of_node (node acpi (self.proximity_domain ∷ hid ∷ uid ∷ self.flags ∷ []))) }
    {
        let vs = [
            Self::ACPI_KIND as u64,
            self.proximity_domain as u64,
            hid,
            uid as u64,
            self.flags as u64,
        ];
        field::put_all(out, at, &Self::ACPI_BODY_WIDTHS, &vs);
        1 + Self::ACPI_BODY
    }

    // Writes kind byte and body of a PCI device.
    fn put_pci_body(
        self,
        segment: u16,
        bus: u8,
        device: u8,
        function: u8,
        out: &mut [u8],
        at: usize,
    ) -> usize
        ensures out_after { out.new ≡ over out.old at (calls_of_node (node pci (self.proximity_domain ∷ segment ∷ bus ∷ device ∷ function ∷ self.flags ∷ []))) }
        ensures value { result ≡ length (calls_of_node (node pci (self.proximity_domain ∷ segment ∷ bus ∷ device ∷ function ∷ self.flags ∷ []))) }
    {
        let vs = [
            Self::PCI_KIND as u64,
            self.proximity_domain as u64,
            segment as u64,
            bus as u64,
            device as u64,
            function as u64,
            self.flags as u64,
        ];
        field::put_all(out, at, &Self::PCI_BODY_WIDTHS, &vs);
        1 + Self::PCI_BODY
    }

    // Writes kind byte and body; how many bytes that is.
    pub fn put_body(self, out: &mut [u8], at: usize) -> usize
        ensures out_after { out.new ≡ over out.old at (calls_of_node (initiator_node self)) }
        ensures value { result ≡ length (calls_of_node (initiator_node self)) }
    {
        match self.handle {
            Handle::Acpi { hid, uid } => self.put_acpi_body(hid, uid, out, at),
            Handle::Pci {
                segment,
                bus,
                device,
                function,
            } => self.put_pci_body(segment, bus, device, function, out, at),
        }
    }

    // How many values a reading call shows.
    pub fn fields_count(self) -> usize
        ensures { result ≡ length (initiator_shown self) }
    {
        match self.handle {
            Handle::Acpi { .. } => Self::ACPI_FIELDS,
            Handle::Pci { .. } => Self::PCI_FIELDS,
        }
    }

    // Writes the values that a reading call shows, in their order.
    pub fn put_fields(self, answer: &mut [u64], at: usize)
        ensures { answer.new ≡ over answer.old at (initiator_shown self) }
    {
        let domain = self.proximity_domain as u64;
        let flags = self.flags as u64;
        match self.handle {
            Handle::Acpi { hid, uid } => {
                let vs = [Handle::ACPI as u64, domain, hid, uid as u64, flags];
                field::copy(answer, at, &vs);
            }
            Handle::Pci {
                segment,
                bus,
                device,
                function,
            } => {
                let vs = [
                    Handle::PCI as u64,
                    domain,
                    segment as u64,
                    bus as u64,
                    device as u64,
                    function as u64,
                    flags,
                ];
                field::copy(answer, at, &vs);
            }
        }
    }

    // Bits 0 and 1, with either handle.
    fn is_good_flags(flags: u32) -> bool
        ensures { result ≡ leb flags 3 }
    {
        flags <= Self::FLAGS
    }

    // The place of the first field outside its range, counted from the kind byte.
    pub fn bad_field(self) -> Option<usize>
        ensures { result ≡ place_or_none (bad_field (initiator_node self)) }
    {
        let handle = self.handle;
        let bad = handle.bad_field();
        if bad.is_some() {
            return bad;
        }
        if !Self::is_good_flags(self.flags) {
            return Some(handle.flags_place());
        }
        None
    }

    // Whether a record is fixed where it has to be, and no field outside its range: device and function share a byte, so that neither can be.
    pub fn is_sound(row: &[u8]) -> bool
        ensures { result ≡ sound (form_in initiators row.now) row.now }
    {
        Self::is_fixed(row) && Self::is_good_flags(field::get::<u32>(row, 24))
    }
}

#[derive(Clone, Copy)]
pub struct RintcAffinity {
    pub proximity_domain: u32,
    pub acpi_processor_uid: u32,
    pub flags: u32,
    pub clock_domain: u32,
}

impl RintcAffinity {
    // The kind byte, and the length of the body behind it.
    pub const KIND: u8 = 36;

    pub const BODY: usize = 13;

    pub const TYPE: u8 = 7;

    pub const LEN: usize = 20;

    // How many values a reading call shows.
    pub const FIELDS: usize = 4;

    pub const ENABLED: u32 = 1;

    // All flags.
    const FLAGS: u32 = 1;

    // Where the fields stand in a body.
    pub const DOMAIN_AT: usize = 0;

    pub const UID_AT: usize = 4;

    pub const FLAGS_AT: usize = 8;

    pub const CLOCK_DOMAIN_AT: usize = 9;

    // Kind, domain, uid, flags, clock domain.
    const BODY_WIDTHS: [usize; 5] = [1, 4, 4, 1, 4];

    // Type, length, 2 zero, domain, uid, flags, clock domain.
    const WIDTHS: [usize; 7] = [1, 1, 2, 4, 4, 4, 4];

    pub fn new(proximity_domain: u32, acpi_processor_uid: u32, clock_domain: u32) -> Self
        ensures { result ≡ rintc_of proximity_domain acpi_processor_uid clock_domain }
    {
        Self {
            proximity_domain,
            acpi_processor_uid,
            flags: 0,
            clock_domain,
        }
    }

    pub fn enabled(mut self) -> Self
        ensures { result ≡ rintc_with 0 self }
    {
        self.flags |= Self::ENABLED;
        self
    }

    pub fn len() -> usize
        ensures { result ≡ size rintc }
    {
        Self::LEN
    }

    // Writes the record.
    pub fn put(self, out: &mut [u8], at: usize)
        ensures { out.new ≡ over out.old at (bytes as_is (rintc_node self)) }
    {
        let vs = [
            Self::TYPE as u64,
            Self::LEN as u64,
            0,
            self.proximity_domain as u64,
            self.acpi_processor_uid as u64,
            self.flags as u64,
            self.clock_domain as u64,
        ];
        field::put_all(out, at, &Self::WIDTHS, &vs);
    }

    // Reads the record at a place.
    pub fn get(table: &[u8], at: usize) -> Self
        ensures { rintc_node result ≡ node_at as_is rintc (drop at table.now) }
    {
        let s = field::rest(table, at);
        Self {
            proximity_domain: field::get(s, 4),
            acpi_processor_uid: field::get(s, 8),
            flags: field::get(s, 12),
            clock_domain: field::get(s, 16),
        }
    }

    // Zeros and fixed values of a record of this length, with its domain or without.
    fn is_fixed(row: &[u8], len: usize) -> bool
        ensures { result ≡ rintc_fixed len row.now }
    {
        if field::get::<u8>(row, 0) != Self::TYPE {
            return false;
        }
        if field::get::<u8>(row, 1) as usize != len {
            return false;
        }
        field::get::<u16>(row, 2) == 0
    }

    // The node of a body.
    pub fn from_body(bytes: &[u8]) -> Self
        ensures { rintc_node result ≡ node rintc (fields (body Rintc) bytes.now) }
    {
        Self {
            proximity_domain: field::get(bytes, Self::DOMAIN_AT),
            acpi_processor_uid: field::get(bytes, Self::UID_AT),
            flags: field::get::<u8>(bytes, Self::FLAGS_AT) as u32,
            clock_domain: field::get(bytes, Self::CLOCK_DOMAIN_AT),
        }
    }

    // Writes kind byte and body; how many bytes that is.
    pub fn put_body(self, out: &mut [u8], at: usize) -> usize
        ensures out_after { out.new ≡ over out.old at (calls_of_node (rintc_node self)) }
        ensures value { result ≡ length (calls_of_node (rintc_node self)) }
    {
        let vs = [
            Self::KIND as u64,
            self.proximity_domain as u64,
            self.acpi_processor_uid as u64,
            self.flags as u64,
            self.clock_domain as u64,
        ];
        field::put_all(out, at, &Self::BODY_WIDTHS, &vs);
        1 + Self::BODY
    }

    // Writes the values that a reading call shows, in their order.
    pub fn put_fields(self, answer: &mut [u64], at: usize)
        ensures { answer.new ≡ over answer.old at (rintc_shown self) }
    {
        let vs = [
            self.proximity_domain as u64,
            self.acpi_processor_uid as u64,
            self.flags as u64,
            self.clock_domain as u64,
        ];
        field::copy(answer, at, &vs);
    }

    // The place of the first field outside its range, counted from the kind byte.
    pub fn bad_field(self) -> Option<usize>
        ensures { result ≡ place_or_none (bad_field (rintc_node self)) }
    {
        if Self::FLAGS < self.flags {
            return Some(1 + Self::FLAGS_AT);
        }
        None
    }

    // Whether a record is fixed where it has to be, and no field outside its range.
    pub fn is_sound(row: &[u8]) -> bool
        ensures { result ≡ sound rintc row.now }
    {
        Self::is_fixed(row, Self::LEN) && Self::get(row, 0).bad_field().is_none()
    }
}

// The record without its domain, as it was before ACPI gave it one: it is read, but neither built nor read out.
#[derive(Clone, Copy)]
pub struct OldRintcAffinity {
    pub acpi_processor_uid: u32,
    pub flags: u32,
    pub clock_domain: u32,
}

impl OldRintcAffinity {
    // The kind byte that named it, which is retired.
    pub const KIND: u8 = 35;

    pub const LEN: usize = 16;

    // How many values a reading call shows.
    pub const FIELDS: usize = 3;

    // All flags.
    const FLAGS: u32 = RintcAffinity::FLAGS;

    // Reads the record at a place.
    pub fn get(table: &[u8], at: usize) -> Self
        ensures { old_rintc_node result ≡ node_at as_is old_rintc (drop at table.now) }
    {
        let s = field::rest(table, at);
        Self {
            acpi_processor_uid: field::get(s, 4),
            flags: field::get(s, 8),
            clock_domain: field::get(s, 12),
        }
    }

    // Writes the values that a reading call shows, in their order.
    pub fn put_fields(self, answer: &mut [u64], at: usize)
        ensures { answer.new ≡ over answer.old at (old_rintc_shown self) }
    {
        let vs = [
            self.acpi_processor_uid as u64,
            self.flags as u64,
            self.clock_domain as u64,
        ];
        field::copy(answer, at, &vs);
    }

    // Whether a record is fixed where it has to be, and no field outside its range.
    pub fn is_sound(row: &[u8]) -> bool
        ensures { result ≡ sound old_rintc row.now }
    {
        RintcAffinity::is_fixed(row, Self::LEN) && field::get::<u32>(row, 8) <= Self::FLAGS
    }
}
