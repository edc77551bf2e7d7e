// What every table has: a rolling checksum, a signature, a front, and the header of 36 bytes.
#![tactic(auto)]

ghost use Rattle.std.specs.Prelude.{◌≡◌, ℕ, ◌+◌, ◌%◌, ◌^◌, ◌<◌, length};
ghost use Rattle.format.specs.Bytes.{le, value, part, sum, over};
ghost use Rattle.format.specs.Layout.{lay};
ghost use Rattle.format.specs.Table.{code, sign, revision, tail, told, front, limit};
ghost use Rattle.format.specs.Recipe.{table_of};
ghost use Rattle.format.specs.Build.{check_of};
ghost use Rattle.format.specs.Normal.{head_call};
ghost use Rattle.format.specs.Read.{length_in};
ghost use Rattle.format.specs.Out.{head_in};
ghost use Rattle.header.specs.declared.TableHeader.{TableHeader};
ghost use Rattle.header.specs.Header.{meant, coded_as, identity, header_bytes, Sized, header_of, head_from, with_checksum};

// No table is longer.
pub const LIMIT: usize = 67108864;

pub fn limit() -> usize
    ensures { result ≡ limit }
{
    LIMIT
}

// Keeps track of a rolling sum of bytes, modulo 256, of which value() is the checksum.
#[derive(Clone, Copy, Default)]
pub struct Checksum {
    pub value: u8,
}

impl Checksum {
    // The sum with bytes added.
    pub fn append(self, data: &[u8]) -> Self
        ensures { result.value ≡ (self.value + sum «data».now) % 256 }
    {
        self.add(field::u8sum(data).low)
    }

    // The sum with bytes taken away.
    pub fn delete(self, data: &[u8]) -> Self
        ensures { result.value ≡ (self.value + check_of (sum «data».now)) % 256 }
    {
        self.sub(field::u8sum(data).low)
    }

    // The same for one byte.
    pub fn add(self, data: u8) -> Self
        ensures { result.value ≡ (self.value + «data») % 256 }
    {
        Self {
            value: self.value.wrapping_add(data),
        }
    }

    pub fn sub(self, data: u8) -> Self
        ensures { result.value ≡ (self.value + check_of «data») % 256 }
    {
        Self {
            value: self.value.wrapping_sub(data),
        }
    }

    // The sum itself.
    pub fn raw_value(self) -> u8
        ensures { result ≡ self.value }
    {
        self.value
    }

    // What the byte of the checksum has to be.
    pub fn value(self) -> u8
        ensures { result ≡ check_of self.value }
    {
        self.value.wrapping_neg()
    }
}

// The tables that are built and read.
#[derive(Clone, Copy, PartialEq, Eq)]
pub enum Table {
    Pptt,
    Srat,
    Hmat,
    Cedt,
}

impl Table {
    pub const PPTT_FRONT: usize = 36;

    pub const SRAT_FRONT: usize = 48;

    pub const HMAT_FRONT: usize = 40;

    pub const CEDT_FRONT: usize = 36;

    pub const PPTT_REVISION: u8 = 3;

    pub const SRAT_REVISION: u8 = 3;

    pub const HMAT_REVISION: u8 = 1;

    pub const CEDT_REVISION: u8 = 1;

    // The numbers in a head.
    const PPTT_CODE: u8 = 0;

    const SRAT_CODE: u8 = 1;

    const HMAT_CODE: u8 = 2;

    const CEDT_CODE: u8 = 3;

    // The table that a number in a head stands for.
    pub fn of_code(code: u8) -> Option<Table>
        ensures { coded_as result ≡ table_of code }
    {
        match code {
            Self::PPTT_CODE => Some(Table::Pptt),
            Self::SRAT_CODE => Some(Table::Srat),
            Self::HMAT_CODE => Some(Table::Hmat),
            Self::CEDT_CODE => Some(Table::Cedt),
            _ => None,
        }
    }

    fn code(self) -> u8
        ensures { result ≡ code (meant self) }
    {
        match self {
            Table::Pptt => Self::PPTT_CODE,
            Table::Srat => Self::SRAT_CODE,
            Table::Hmat => Self::HMAT_CODE,
            Table::Cedt => Self::CEDT_CODE,
        }
    }

    pub fn signature(self) -> [u8; 4]
        ensures { result ≡ sign (meant self) }
    {
        match self {
            Table::Pptt => *b"PPTT",
            Table::Srat => *b"SRAT",
            Table::Hmat => *b"HMAT",
            Table::Cedt => *b"CEDT",
        }
    }

    pub fn revision(self) -> u8
        ensures { result ≡ revision (meant self) }
    {
        match self {
            Table::Pptt => Self::PPTT_REVISION,
            Table::Srat => Self::SRAT_REVISION,
            Table::Hmat => Self::HMAT_REVISION,
            Table::Cedt => Self::CEDT_REVISION,
        }
    }

    // The length of header and front.
    pub fn front(self) -> usize
        ensures { result ≡ front (meant self) }
    {
        match self {
            Table::Pptt => Self::PPTT_FRONT,
            Table::Srat => Self::SRAT_FRONT,
            Table::Hmat => Self::HMAT_FRONT,
            Table::Cedt => Self::CEDT_FRONT,
        }
    }
}

// Standard header of the tables.
#[derive(Clone, Copy)]
pub struct TableHeader {
    pub signature: [u8; 4],
    pub length: u32,
    pub revision: u8,
    pub checksum: u8,
    pub oem_id: [u8; 6],
    pub oem_table_id: [u8; 8],
    pub oem_revision: u32,
    pub creator_id: [u8; 4],
    pub creator_revision: [u8; 4],
}

impl TableHeader {
    // The kind byte of a recipe's head, and the length of the body behind it: table, OEM ID, OEM table ID, OEM revision, creator ID, creator revision.
    pub const KIND: u8 = 1;

    pub const BODY: usize = 27;

    // Where the table's code stands in a body.
    pub const CODE_AT: usize = 0;

    pub const LEN: usize = 36;

    // Where length, revision, checksum and what a head gives stand in a header.
    const LENGTH_AT: usize = 4;

    const REVISION_AT: usize = 8;

    const CHECKSUM_AT: usize = 9;

    const IDENTITY_AT: usize = 10;

    // The header of a table without records, by the body of a recipe's head.
    pub fn from_body(table: Table, bytes: &[u8]) -> Self
        ensures { result ≡ head_from table bytes.now }
    {
        Self::new(
            table,
            table.front() as u32,
            field::padded(bytes, 1),
            field::padded(bytes, 7),
            field::get(bytes, 15),
            field::padded(bytes, 19),
            field::padded(bytes, 23),
        )
    }

    // The length of a table, as its header says it.
    pub fn length_in(table: &[u8]) -> u32
        ensures { result ≡ length_in table.now }
    {
        field::get(table, Self::LENGTH_AT)
    }

    // The revision of a table.
    pub fn revision_in(table: &[u8]) -> u8
        ensures { result ≡ value (part table.now 8 1) }
    {
        field::get(table, Self::REVISION_AT)
    }

    // Sets the length in a header.
    pub fn set_length(out: &mut [u8], length: u32)
        ensures { out.new ≡ over out.old 4 (le 4 length) }
    {
        field::put(out, Self::LENGTH_AT, length);
    }

    // Sets the checksum in a header.
    pub fn set_checksum(out: &mut [u8], checksum: u8)
        ensures { out.new ≡ over out.old 9 (le 1 checksum) }
    {
        field::put(out, Self::CHECKSUM_AT, checksum);
    }

    // Writes kind byte and body of the head of a recipe for a table of these bytes.
    pub fn put_body(table: Table, bytes: &[u8], out: &mut [u8])
        ensures { out.new ≡ over out.old 0 (head_call (head_in (meant table) bytes.now)) }
    {
        field::put(out, 0, Self::KIND);
        field::put(out, 1, table.code());
        // By way of an array: what is copied from one lent slice into another may be a call of memmove, which a program in C would have to have.
        let identity = field::padded::<26>(bytes, Self::IDENTITY_AT);
        let there = bytes.len().saturating_sub(Self::IDENTITY_AT);
        field::copy(out, 2, field::part(&identity, 0, there));
    }

    pub fn len() -> usize
        ensures { (h : TableHeader) → Sized h → result ≡ length (header_bytes h) }
    {
        Self::LEN
    }

    // The header of a table of some length, before its checksum is known.
    pub fn new(
        table: Table,
        length: u32,
        oem_id: [u8; 6],
        oem_table_id: [u8; 8],
        oem_revision: u32,
        creator_id: [u8; 4],
        creator_revision: [u8; 4],
    ) -> Self
        ensures { result ≡ header_of table length oem_id oem_table_id oem_revision creator_id creator_revision }
    {
        Self {
            signature: table.signature(),
            length,
            revision: table.revision(),
            checksum: 0,
            oem_id,
            oem_table_id,
            oem_revision,
            creator_id,
            creator_revision,
        }
    }

    // The same header with its checksum set.
    pub fn checksum(mut self, checksum: u8) -> Self
        ensures { result ≡ with_checksum self checksum }
    {
        self.checksum = checksum;
        self
    }

    // Writes what a head gives of the header.
    fn put_identity(self, out: &mut [u8], at: usize)
        requires { at + 22 < 2 ^ 64 }
        ensures { out.new ≡ over out.old at (identity self) }
    {
        field::copy(out, at, &self.oem_id);
        field::copy(out, at + 6, &self.oem_table_id);
        field::put(out, at + 14, self.oem_revision);
        field::copy(out, at + 18, &self.creator_id);
        field::copy(out, at + 22, &self.creator_revision);
    }

    // Writes the header.
    pub fn put(self, out: &mut [u8], at: usize)
        ensures { out.new ≡ over out.old at (header_bytes self) }
    {
        if out.len() <= at {
            return;
        }
        let bytes = [self.revision, self.checksum];
        field::copy(out, at, &self.signature);
        field::put(out, at + 4, self.length);
        field::copy(out, at + 8, &bytes);
        self.put_identity(out, at + 10);
    }
}

// Writes what follows the header; none of it depends on the number of records.
pub fn put_front(table: Table, out: &mut [u8])
    ensures { (n : ℕ) → out.new ≡ over out.old 36 (lay (tail (meant table)) (told (meant table) n)) }
{
    match table {
        Table::Pptt | Table::Cedt => {}
        Table::Srat => {
            field::put(out, TableHeader::LEN, 1u32);
            field::put(out, TableHeader::LEN + 4, 0u64);
        }
        Table::Hmat => field::put(out, TableHeader::LEN, 0u32),
    }
}
