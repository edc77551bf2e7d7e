// The records of CEDT.
use cedt::{CxlFixedMemory, CxlHostBridge, XorInterleaveMath};
use std::io;

// What the version is of, and how many bytes its registers take.
pub fn bridge(rt: &impl Print, n: CxlHostBridge) -> io::Result<()> {
    let version = if n.cxl_version == 0 { "1.1" } else { "2.0" };
    println!(rt; "CXL host bridge")?;
    words::line(rt, b"uid", n.host_bridge_uid as u64)?;
    println!(rt; "  version {} (CXL {version})", n.cxl_version)?;
    words::hex_line(rt, b"base address", n.port_base)?;
    words::size_line(rt, b"length", n.registers() as u64)
}

// How targets follow each other.
fn arithmetic(rt: &impl Print, n: u8) -> io::Result<()> {
    let name = if n == 0 { "modulo" } else { "modulo XOR" };
    println!(rt; "  arithmetic {n} ({name})")
}

// A number stands for a power of two, from 256 bytes on.
fn granularity(rt: &impl Print, n: u32) -> io::Result<()> {
    let size = match n {
        0 => "256 bytes",
        1 => "512 bytes",
        2 => "1024 bytes",
        3 => "2048 bytes",
        4 => "4096 bytes",
        5 => "8192 bytes",
        6 => "16384 bytes",
        _ => "unknown",
    };
    println!(rt; "  granularity {size} (code {n})")
}

// What the window may be used for.
fn restrictions(rt: &impl Print, n: u16) -> io::Result<()> {
    let names = [
        (CxlFixedMemory::CXL_TYPE_2_MEMORY as u32, "type 2 memory"),
        (CxlFixedMemory::CXL_TYPE_3_MEMORY as u32, "type 3 memory"),
        (CxlFixedMemory::VOLATILE as u32, "volatile"),
        (CxlFixedMemory::PERSISTENT as u32, "persistent"),
        (
            CxlFixedMemory::FIXED_CONFIGURATION as u32,
            "fixed configuration",
        ),
    ];
    print!(rt; "  restrictions 0x{n:x}")?;
    words::bits(rt, n as u32, &names, false)?;
    words::end(rt)
}

// A window, and a line for each of its targets: its ways, which stand as a code, say how many.
pub fn window(rt: &impl Print, table: &[u8], place: usize, n: CxlFixedMemory) -> io::Result<()> {
    let ways = n.num_interleaved_ways();
    println!(rt; "CXL window")?;
    words::hex_line(rt, b"base address", n.base_addr)?;
    words::size_line(rt, b"size", n.size)?;
    println!(rt; "  ways {ways} (code {})", n.interleave_ways)?;
    arithmetic(rt, n.interleave_arithmetic)?;
    granularity(rt, n.interleave_granularity)?;
    restrictions(rt, n.window_restrictions)?;
    words::line(rt, b"QTG", n.qtg_id as u64)?;
    for i in 0..ways as usize {
        let target = CxlFixedMemory::interleave_target(table, place, i);
        words::line(rt, b"target", target.0 as u64)?;
    }
    Ok(())
}

// Maths, and a line for each of their maps.
pub fn maths(rt: &impl Print, table: &[u8], place: usize, n: XorInterleaveMath) -> io::Result<()> {
    println!(rt; "XOR maths")?;
    granularity(rt, n.granularity as u32)?;
    words::line(rt, b"maps", n.xormaps as u64)?;
    for i in 0..n.xormaps as usize {
        let map = XorInterleaveMath::xormap(table, place, i);
        words::hex_line(rt, b"map", map.0)?;
    }
    Ok(())
}
