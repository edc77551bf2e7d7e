// The records of PPTT.
use pptt::{CacheNode, CacheNodeBuilder, ProcessorNode};
use std::io;

// The number of the node at a place: records are counted from 1, as a recipe counts processors and caches.
fn ordinal(table: &[u8], place: u32) -> u64 {
    let end = place as usize;
    let mut at = read::first_place(table);
    let mut n = 1;
    while at < end {
        let size = field::get::<u8>(table, at + 1) as usize;
        if size == 0 || end - at < size {
            return n;
        }
        at += size;
        n += 1;
    }
    n
}

// A reference: the place in the table, and the number of the node there.
fn reference(rt: &impl Print, word: &str, table: &[u8], place: u32) -> io::Result<()> {
    if place == 0 {
        return println!(rt; "  {word} none");
    }
    println!(rt; "  {word} {place} (node {})", ordinal(table, place))
}

// The flags of a processor; a recipe may set any of 32 bits.
fn processor_flags(rt: &impl Print, flags: u32) -> io::Result<()> {
    let names = [
        (ProcessorNode::PHYSICAL, "physical"),
        (ProcessorNode::VALID, "valid"),
        (ProcessorNode::THREAD, "thread"),
        (ProcessorNode::LEAF, "leaf"),
        (ProcessorNode::IDENTICAL, "identical"),
    ];
    words::flags(rt, flags as u64)?;
    let some = words::bits(rt, flags, &names, false)?;
    if 32 <= flags {
        words::item(rt, b"bits without a name", some)?;
    }
    words::end(rt)
}

// A processor, and a line for each of its resources.
pub fn processor(rt: &impl Print, table: &[u8], place: usize, n: ProcessorNode) -> io::Result<()> {
    println!(rt; "processor")?;
    processor_flags(rt, n.flags)?;
    reference(rt, "parent", table, n.parent.0)?;
    words::line(rt, b"processor id", n.acpi_processor_id as u64)?;
    words::line(rt, b"resources", n.resources as u64)?;
    for i in 0..n.resources {
        let cache = ProcessorNode::resource(table, place, i);
        reference(rt, "resource", table, cache.0)?;
    }
    Ok(())
}

// The flags of a cache: each stands for a field that is given.
fn cache_flags(rt: &impl Print, flags: u32) -> io::Result<()> {
    let names = [
        (CacheNodeBuilder::SIZE, "size"),
        (CacheNodeBuilder::SETS, "sets"),
        (CacheNodeBuilder::ASSOCIATIVITY, "associativity"),
        (CacheNodeBuilder::ALLOCATION, "allocation"),
        (CacheNodeBuilder::TYPE, "type"),
        (CacheNodeBuilder::POLICY, "policy"),
        (CacheNodeBuilder::LINE_SIZE, "line size"),
        (CacheNodeBuilder::ID, "id"),
    ];
    words::flags(rt, flags as u64)?;
    words::bits(rt, flags, &names, false)?;
    words::end(rt)
}

// A field that counts only where its flag is set.
fn given(rt: &impl Print, flags: u32, unit: u32, word: &str, v: u32) -> io::Result<()> {
    if flags & unit == 0 {
        println!(rt; "  {word} not given")
    } else {
        println!(rt; "  {word} {v}")
    }
}

// Allocation, what the cache holds, and when it writes, each where its flag is set.
fn attributes(rt: &impl Print, n: CacheNode) -> io::Result<()> {
    let allocation = match n.allocation() {
        0 => "read",
        1 => "write",
        _ => "both",
    };
    let kind = match n.cache_type() {
        0 => "data",
        1 => "instruction",
        _ => "unified",
    };
    let policy = match n.write_policy() {
        0 => "writeback",
        _ => "writethrough",
    };
    print!(rt; "  attributes 0x{:x}", n.attributes)?;
    let mut some = false;
    for (unit, word, value) in [
        (CacheNodeBuilder::ALLOCATION, "allocation", allocation),
        (CacheNodeBuilder::TYPE, "type", kind),
        (CacheNodeBuilder::POLICY, "policy", policy),
    ] {
        if n.flags & unit != 0 {
            some = words::item(rt, word.as_bytes(), some)?;
            print!(rt; " {value}")?;
        }
    }
    println!(rt)
}

// A cache.
pub fn cache(rt: &impl Print, table: &[u8], n: CacheNode) -> io::Result<()> {
    println!(rt; "cache")?;
    cache_flags(rt, n.flags)?;
    reference(rt, "next level", table, n.next_level.0)?;
    given(rt, n.flags, CacheNodeBuilder::SIZE, "size", n.size)?;
    given(rt, n.flags, CacheNodeBuilder::SETS, "sets", n.set_count)?;
    given(
        rt,
        n.flags,
        CacheNodeBuilder::ASSOCIATIVITY,
        "associativity",
        n.associativity as u32,
    )?;
    attributes(rt, n)?;
    given(
        rt,
        n.flags,
        CacheNodeBuilder::LINE_SIZE,
        "line size",
        n.line_size as u32,
    )?;
    given(rt, n.flags, CacheNodeBuilder::ID, "id", n.id)
}
