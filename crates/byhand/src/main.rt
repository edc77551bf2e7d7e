// Builds four tables through the constructors and setters of the node types, as a program for the Rust crate would, without a recipe.
// Each is shown whole, read out, and built again from that recipe: the bytes have to be the same.
#![tactic(auto)]

ghost use Rattle.std.specs.Prelude.{◌^◌, ◌<◌, length};

use cedt::{
    CxlFixedMemory, CxlHostBridge, CxlTarget, CxlVersion, InterleaveArithmetic,
    InterleaveGranularity, InterleaveWays, XorInterleaveMath, XorMap,
};
use header::{Checksum, Table, TableHeader};
use hmat::{
    Associativity, CacheLevel, DataType, LocalityType, MemoryProximityDomain, MemorySideCache,
    MinTransferSize, SmbiosHandle, SystemLocality,
};
use pptt::{
    AllocationType, CacheHandle, CacheNode, CacheNodeBuilder, CacheType, ProcessorHandle,
    ProcessorNode, Resource, WritePolicy,
};
use srat::{GenericInitiator, Handle, MemoryAffinity, RintcAffinity};
use std::io;

// Room for what is read out of a table and built again.
const ROOM: usize = 1024;

// ---- PPTT: a second-level cache behind a third-level one, a socket, and a core with both caches

const THIRD: usize = Table::PPTT_FRONT;

const SECOND: usize = THIRD + CacheNode::LEN;

const SOCKET: usize = SECOND + CacheNode::LEN;

const CORE: usize = SOCKET + ProcessorNode::LEN;

const PPTT_LEN: usize = CORE + ProcessorNode::LEN + 2 * Resource::LEN;

fn caches(out: &mut [u8]) {
    let third = CacheNodeBuilder::default()
        .size(33554432)
        .sets(32768)
        .associativity(16)
        .allocation_type(AllocationType::Both)
        .cache_type(CacheType::Unified)
        .write_policy(WritePolicy::Writethrough)
        .line_size(64)
        .id(3);
    let second = CacheNodeBuilder::default()
        .next_level(CacheHandle(THIRD as u32))
        .size(1048576)
        .allocation_type(AllocationType::Write)
        .cache_type(CacheType::Instruction)
        .write_policy(WritePolicy::Writeback);
    third.to_node().put(out, THIRD);
    second.to_node().put(out, SECOND);
}

fn processors(out: &mut [u8]) {
    let socket = ProcessorNode::new(ProcessorHandle::NONE, 0)
        .physical()
        .identical();
    let core = ProcessorNode::new(ProcessorHandle(SOCKET as u32), 7)
        .valid()
        .thread()
        .leaf();
    socket.put(out, SOCKET);
    core.put(out, CORE);
    ProcessorNode::add_cache(out, CORE, 0, CacheHandle(SECOND as u32));
    ProcessorNode::add_cache(out, CORE, 1, CacheHandle(THIRD as u32));
}

// ---- SRAT: a range of memory, an ACPI and a PCI device, an interrupt controller

const MEMORY: usize = Table::SRAT_FRONT;

const ACPI: usize = MEMORY + MemoryAffinity::LEN;

const PCI: usize = ACPI + GenericInitiator::LEN;

const RINTC: usize = PCI + GenericInitiator::LEN;

const SRAT_LEN: usize = RINTC + RintcAffinity::LEN;

fn affinities(out: &mut [u8]) {
    let memory = MemoryAffinity::new(1, 4294967296, 1073741824)
        .enabled()
        .hotpluggable()
        .nonvolatile();
    // "ACPI0016"
    let acpi = GenericInitiator::new(2, Handle::new_acpi(3904955335853491009, 5)).enabled();
    let pci = GenericInitiator::new(3, Handle::new_pci(1, 2, 31, 7))
        .enabled()
        .architectural();
    let rintc = RintcAffinity::new(1, 4, 9).enabled();
    memory.put(out, MEMORY);
    acpi.put(out, ACPI);
    pci.put(out, PCI);
    rintc.put(out, RINTC);
}

// ---- HMAT: a domain, a matrix of two initiators and three targets, a side cache with a handle

const DOMAIN: usize = Table::HMAT_FRONT;

const MATRIX: usize = DOMAIN + MemoryProximityDomain::LEN;

// two values of initiators and three of targets, and six cells
const SIDE: usize = MATRIX + SystemLocality::LEN + 5 * hmat::Value::LEN + 6 * hmat::Cell::LEN;

const HMAT_LEN: usize = SIDE + MemorySideCache::LEN + SmbiosHandle::LEN;

fn matrix(out: &mut [u8]) {
    let matrix = SystemLocality::new(
        LocalityType::FirstLevelCache,
        DataType::ReadLatency,
        MinTransferSize::Size128b,
        1000,
        2,
        3,
    )
    .non_sequential_transfers()
    .minimum_transfer_size_required();
    matrix.put(out, MATRIX);
    SystemLocality::set_initiator_value(out, MATRIX, 1, 1);
    SystemLocality::set_target_value(out, MATRIX, 2, 2, 2);
    SystemLocality::set_entry_value(out, MATRIX, 2, 3, 0, 2, 390);
    SystemLocality::set_entry_value(out, MATRIX, 2, 3, 1, 0, 140);
}

fn localities(out: &mut [u8]) {
    let side = MemorySideCache::new(
        1,
        17179869184,
        CacheLevel::Two,
        CacheLevel::One,
        Associativity::DirectMapped,
        hmat::WritePolicy::Writeback,
        64,
    );
    MemoryProximityDomain::new(0, 1).put(out, DOMAIN);
    matrix(out);
    side.put(out, SIDE);
    MemorySideCache::grow(out, SIDE, 0, SmbiosHandle(258));
}

// ---- CEDT: a host bridge of each version, a window over both, one over three others, and the maths of the first

const OLD: usize = Table::CEDT_FRONT;

const NEW: usize = OLD + CxlHostBridge::LEN;

const PAIR: usize = NEW + CxlHostBridge::LEN;

const TRIPLE: usize = PAIR + CxlFixedMemory::LEN + 2 * CxlTarget::LEN;

const MATHS: usize = TRIPLE + CxlFixedMemory::LEN + 3 * CxlTarget::LEN;

const CEDT_LEN: usize = MATHS + XorInterleaveMath::LEN + XorMap::LEN;

fn pair(out: &mut [u8]) {
    let pair = CxlFixedMemory::new(
        18253611008,
        34359738368,
        InterleaveArithmetic::ModuloXor,
        InterleaveGranularity::Granularity256b,
        InterleaveWays::Ways2,
        7,
    )
    .cxl_type_3_memory()
    .volatile();
    pair.put(out, PAIR);
    CxlFixedMemory::add_target(out, PAIR, 0, CxlTarget(6));
    CxlFixedMemory::add_target(out, PAIR, 1, CxlTarget(7));
}

fn triple(out: &mut [u8]) {
    let triple = CxlFixedMemory::new(
        52613349376,
        805306368,
        InterleaveArithmetic::Modulo,
        InterleaveGranularity::Granularity4kb,
        InterleaveWays::Ways3,
        0,
    )
    .cxl_type_2_memory()
    .persistent()
    .fixed_configuration();
    triple.put(out, TRIPLE);
    CxlFixedMemory::add_target(out, TRIPLE, 0, CxlTarget(8));
    CxlFixedMemory::add_target(out, TRIPLE, 1, CxlTarget(9));
    CxlFixedMemory::add_target(out, TRIPLE, 2, CxlTarget(10));
}

fn links(out: &mut [u8]) {
    CxlHostBridge::new(6, CxlVersion::Cxl1_1, 3489660928).put(out, OLD);
    CxlHostBridge::new(7, CxlVersion::Cxl2, 3489726464).put(out, NEW);
    pair(out);
    triple(out);
    XorInterleaveMath::new(InterleaveGranularity::Granularity256b).put(out, MATHS);
    XorInterleaveMath::add_xormap(out, MATHS, 0, XorMap(4210944));
}

// ---- the whole table

// Writes header and front of a table whose records stand, with the checksum over all of it.
fn finish(table: Table, out: &mut [u8])
    requires { length out.old < 2 ^ 32 }
{
    let head = TableHeader::new(
        table,
        out.len() as u32,
        *b"CLOUDH",
        *b"ISPALMUT",
        1,
        *b"RVAT",
        [0, 0, 0, 1],
    );
    head.put(out, 0);
    header::put_front(table, out);
    let sum = Checksum::default().append(out);
    head.checksum(sum.value()).put(out, 0);
}

// Whether a table comes back from the recipe that is read out of it.
fn comes_back(table: &[u8]) -> bool {
    let mut recipe = [0u8; ROOM];
    let mut again = [0u8; ROOM];
    let Ok(n) = readout::read_out(table, &mut recipe) else {
        return false;
    };
    let Ok(m) = build::build(field::part(&recipe, 0, n), &mut again) else {
        return false;
    };
    field::part(&again, 0, m) == table
}

// A table, shown; the sum of its bytes; then its recipe, built again.
fn trip(rt: &impl Print, table: &[u8]) -> io::Result<()> {
    shows::show(rt, table, false)?;
    println!(rt; "sum {}", Checksum::default().append(table).raw_value())?;
    if !comes_back(table) {
        return println!(rt; "another table");
    }
    println!(rt; "read out and built again: the same")
}

// What the types say of their records' lengths.
fn lengths(rt: &impl Print) -> io::Result<()> {
    let lengths = [
        ProcessorNode::get(&[0; 20], 0).len(),
        CacheNode::len(),
        MemoryAffinity::len(),
        GenericInitiator::len(),
        RintcAffinity::len(),
        MemoryProximityDomain::len(),
        CxlHostBridge::len(),
        TableHeader::len(),
        header::limit(),
    ];
    print!(rt; "lengths")?;
    for n in lengths {
        print!(rt; " {n}")?;
    }
    println!(rt)
}

fn main(rt: HostRuntime) -> io::Result<()> {
    let mut pptt = [0u8; PPTT_LEN];
    let mut srat = [0u8; SRAT_LEN];
    let mut hmat = [0u8; HMAT_LEN];
    let mut cedt = [0u8; CEDT_LEN];
    lengths(&rt)?;
    caches(&mut pptt);
    processors(&mut pptt);
    finish(Table::Pptt, &mut pptt);
    trip(&rt, &pptt)?;
    affinities(&mut srat);
    finish(Table::Srat, &mut srat);
    trip(&rt, &srat)?;
    localities(&mut hmat);
    finish(Table::Hmat, &mut hmat);
    trip(&rt, &hmat)?;
    links(&mut cedt);
    finish(Table::Cedt, &mut cedt);
    trip(&rt, &cedt)
}
