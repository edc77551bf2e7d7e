// Calls the functions that C links by their C names, and prints what each answers: its number and the place, or the numbers of a record.
#![tactic(auto)]

use header::{Table, TableHeader};
use pptt::{CacheHandle, CacheNode, CacheNodeBuilder, ProcessorHandle, ProcessorNode, Resource};
use std::io;

// Every row.
const MASK: u32 = 255;

// The recipe of a PPTT: a cache, and a processor that has it.
const CACHE: usize = 1 + TableHeader::BODY;

const PROCESSOR: usize = CACHE + 1 + CacheNode::BODY;

const RESOURCE: usize = PROCESSOR + 1 + ProcessorNode::BODY;

// The length of its table.
const TABLE: usize = Table::PPTT_FRONT + CacheNode::LEN + ProcessorNode::LEN + Resource::LEN;

fn put_recipe(out: &mut [u8]) {
    let cache = CacheNodeBuilder::default().size(1024).to_node();
    let processor = ProcessorNode::new(ProcessorHandle::NONE, 7).valid();
    let resource = Resource {
        cache: CacheHandle(1),
    };
    TableHeader::put_body(Table::Pptt, &[0; 36], out);
    cache.put_body(out, CACHE);
    processor.put_body(out, PROCESSOR);
    resource.put_body(out, RESOURCE);
}

// A line: the function, what it answered, and the place.
fn told(rt: &impl Print, name: &str, answer: u32, place: usize) -> io::Result<()> {
    println!(rt; "{name} {answer} {place}")
}

// A line: the first ten numbers of a record.
fn listed(rt: &impl Print, name: &str, numbers: [u64; 10]) -> io::Result<()> {
    print!(rt; "{name}")?;
    for n in numbers {
        print!(rt; " {n}")?;
    }
    println!(rt)
}

// The calls on a recipe, of which the last writes the table.
fn of_recipe(rt: &impl Print, recipe: &[u8], table: &mut [u8]) -> io::Result<()> {
    let mut place: usize = 0;
    let checked = acpi::acpi_check(recipe, &mut place);
    told(rt, "check", checked, place)?;
    let built = acpi::acpi_build(recipe, table, &mut place);
    told(rt, "build", built, place)
}

// A line: the sum of a table's bytes, and what passes 64 bits.
fn added(rt: &impl Print, table: &[u8]) -> io::Result<()> {
    let mut high: u64 = 1;
    let sum = acpi::acpi_sum(table, &mut high);
    println!(rt; "sum {sum} {high}")
}

// The calls on a table, of which the last writes the recipe.
fn of_table(rt: &impl Print, table: &[u8], recipe: &mut [u8]) -> io::Result<()> {
    let mut place: usize = 0;
    let mut record = [0u64; 10];
    let mut first = [0u64; 10];
    let accepted = acpi::acpi_accept(table, MASK, &mut place);
    told(rt, "accept", accepted, place)?;
    let found = acpi::acpi_read(table, MASK, 1, &mut record, &mut place);
    told(rt, "read", found, place)?;
    listed(rt, "record", record)?;
    acpi::acpi_record_at(table, MASK, acpi::acpi_first_place(table), &mut first);
    listed(rt, "first", first)?;
    added(rt, table)?;
    let out = acpi::acpi_read_out(table, recipe, &mut place);
    told(rt, "read_out", out, place)
}

fn main(rt: HostRuntime) -> io::Result<()> {
    let mut recipe = [0u8; RESOURCE + 1 + Resource::BODY];
    let mut table = [0u8; TABLE];
    put_recipe(&mut recipe);
    of_recipe(&rt, &recipe, &mut table)?;
    of_table(&rt, &table, &mut recipe)
}
