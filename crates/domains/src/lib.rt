// What is printed of the records that speak of proximity domains, those of SRAT and of HMAT: the name of the row, and its fields.
#![tactic(auto)]

mod entries;
mod lines;

use hmat::{MemoryProximityDomain, MemorySideCache, SystemLocality};
use srat::{GenericInitiator, Handle, MemoryAffinity, OldRintcAffinity, RintcAffinity};
use std::io;

// ---- SRAT

// A range of memory: addresses are read in hexadecimal, its length both ways.
pub fn memory(rt: &impl Print, n: MemoryAffinity) -> io::Result<()> {
    println!(rt; "memory")?;
    words::line(rt, b"domain", n.proximity_domain as u64)?;
    words::hex_line(rt, b"base address", n.base_address)?;
    words::size_line(rt, b"length", n.length)?;
    words::flags(rt, n.flags as u64)?;
    let names = [
        (MemoryAffinity::ENABLED, "enabled"),
        (MemoryAffinity::HOT_PLUGGABLE, "hot pluggable"),
        (MemoryAffinity::NON_VOLATILE, "non volatile"),
    ];
    words::bits(rt, n.flags, &names, false)?;
    words::end(rt)
}

// An ACPI device, whose hid is a number whose eight bytes are text, or a PCI device.
fn handle(rt: &impl Print, h: Handle) -> io::Result<()> {
    match h {
        Handle::Acpi { hid, uid } => {
            print!(rt; "  handle ACPI hid ")?;
            words::text(rt, &hid.to_le_bytes(), 8)?;
            println!(rt; ", uid {uid}")
        }
        Handle::Pci {
            segment,
            bus,
            device,
            function,
        } => {
            println!(rt;
                "  handle PCI segment {segment}, bus {bus}, device {device}, function {function}"
            )
        }
    }
}

// A generic initiator.
pub fn initiator(rt: &impl Print, n: GenericInitiator) -> io::Result<()> {
    println!(rt; "generic initiator")?;
    words::line(rt, b"domain", n.proximity_domain as u64)?;
    let h = n.handle;
    handle(rt, h)?;
    words::flags(rt, n.flags as u64)?;
    let names = [
        (GenericInitiator::ENABLED, "enabled"),
        (GenericInitiator::ARCHITECTURAL, "architectural"),
    ];
    words::bits(rt, n.flags, &names, false)?;
    words::end(rt)
}

// An interrupt controller of a RISC-V hart.
pub fn rintc(rt: &impl Print, n: RintcAffinity) -> io::Result<()> {
    println!(rt; "RINTC")?;
    words::line(rt, b"domain", n.proximity_domain as u64)?;
    hart(rt, n.acpi_processor_uid, n.flags, n.clock_domain)
}

// The same as it was before it had a domain.
pub fn old_rintc(rt: &impl Print, n: OldRintcAffinity) -> io::Result<()> {
    println!(rt; "RINTC without domain")?;
    hart(rt, n.acpi_processor_uid, n.flags, n.clock_domain)
}

// What both say of a hart.
fn hart(rt: &impl Print, uid: u32, flags: u32, clock_domain: u32) -> io::Result<()> {
    words::line(rt, b"processor uid", uid as u64)?;
    words::flags(rt, flags as u64)?;
    words::bit(rt, flags, RintcAffinity::ENABLED, b"enabled", false)?;
    words::end(rt)?;
    words::line(rt, b"clock domain", clock_domain as u64)
}

// ---- HMAT: domains

// A domain; of a known record the flags have one value.
pub fn domain(rt: &impl Print, n: MemoryProximityDomain) -> io::Result<()> {
    println!(rt; "domain")?;
    words::flags(rt, MemoryProximityDomain::DOMAIN_VALID as u64)?;
    println!(rt; " domain valid")?;
    words::line(rt, b"initiator domain", n.proximity_domain_initiator as u64)?;
    words::line(rt, b"memory domain", n.proximity_domain_memory as u64)
}

// ---- HMAT: matrices

// The flags of a matrix: which level it is about, and two bits.
fn matrix_flags(rt: &impl Print, m: SystemLocality) -> io::Result<()> {
    let bits = m.flags as u32;
    let level = match m.locality() {
        0 => "memory",
        1 => "first level cache",
        2 => "second level cache",
        _ => "third level cache",
    };
    let names = [
        (
            SystemLocality::MINIMUM_TRANSFER_SIZE_REQD as u32,
            "minimum transfer size required",
        ),
        (
            SystemLocality::NON_SEQUENTIAL_TRANSFERS as u32,
            "non sequential transfers",
        ),
    ];
    words::flags(rt, bits as u64)?;
    print!(rt; " {level}")?;
    words::bits(rt, bits, &names, true)?;
    words::end(rt)
}

// What the entries are.
const DATA_TYPES: [&str; 6] = [
    "access latency",
    "read latency",
    "write latency",
    "access bandwidth",
    "read bandwidth",
    "write bandwidth",
];

// A number above 0 stands for a power of two, from 64 bytes on.
const TRANSFER_SIZES: [&str; 12] = [
    "byte aligned",
    "64 bytes",
    "128 bytes",
    "256 bytes",
    "512 bytes",
    "1 KiB",
    "2 KiB",
    "4 KiB",
    "8 KiB",
    "16 KiB",
    "32 KiB",
    "64 KiB",
];

// A field and its number, with what it stands for where that has a name.
fn named(rt: &impl Print, word: &str, n: u8, names: &[&str]) -> io::Result<()> {
    match names.get(n as usize) {
        Some(name) => println!(rt; "  {word} {n} ({name})"),
        None => println!(rt; "  {word} {n}"),
    }
}

// A matrix. What its base unit measures depends on the revision that a guest goes by, so that no unit is named.
pub fn matrix(
    rt: &impl Print,
    table: &[u8],
    place: usize,
    m: SystemLocality,
    all: bool,
) -> io::Result<()> {
    println!(rt; "matrix")?;
    matrix_flags(rt, m)?;
    named(rt, "data type", m.data_type, &DATA_TYPES)?;
    named(
        rt,
        "minimum transfer size",
        m.min_transfer_size,
        &TRANSFER_SIZES,
    )?;
    words::line(rt, b"base unit", m.entry_base_unit)?;
    words::line(rt, b"initiators", m.initiators as u64)?;
    words::line(rt, b"targets", m.targets as u64)?;
    println!(rt;
        "  entries times {}, a line for each initiator, a column for each target, - where unset",
        m.entry_base_unit
    )?;
    entries::entries(rt, table, place, m, all)
}

// ---- HMAT: side caches

// Levels, how the cache finds a line, when it writes, and line size.
fn attributes(rt: &impl Print, n: MemorySideCache) -> io::Result<()> {
    let associativity = match n.associativity() {
        0 => "none",
        1 => "direct mapped",
        _ => "complex",
    };
    let policy = match n.write_policy() {
        0 => "none",
        1 => "writeback",
        _ => "writethrough",
    };
    let (levels, level) = (n.total_cache_levels(), n.this_cache_level());
    print!(rt;
        "  attributes 0x{:x} levels {levels}, this level {level}",
        n.attributes
    )?;
    print!(rt; ", associativity {associativity}, policy {policy}")?;
    println!(rt; ", line size {}", n.cacheline_size())
}

// A side cache, and a line for each of its handles.
pub fn side(rt: &impl Print, table: &[u8], place: usize, n: MemorySideCache) -> io::Result<()> {
    println!(rt; "side cache")?;
    words::line(rt, b"domain", n.proximity_domain as u64)?;
    words::line(rt, b"size", n.cache_size)?;
    attributes(rt, n)?;
    words::line(rt, b"SMBIOS handles", n.smbios_handles as u64)?;
    for i in 0..n.smbios_handles as usize {
        let handle = MemorySideCache::smbios_handle(table, place, i);
        words::hex_line(rt, b"SMBIOS handle", handle.0 as u64)?;
    }
    Ok(())
}
