// Prints the whole sum of the bytes on standard input, what is left of it modulo 256, and whether the checksum of the table is right.
// There have to be fewer than 1,114,112 bytes, or with 256 MiB of stack fewer than 67,174,400.
#![tactic(auto)]

use std::io;

fn show(rt: &impl Print, table: &[u8]) -> io::Result<()> {
    let mut text = [0u8; 128];
    let m = sums::lines(table, &mut text);
    prints::write_first(rt, &text, m)
}

// A long table, of which the first bytes are read already: in a large room, apart from main's (see prints::never).
fn show_large(rt: &HostRuntime, first: &[u8], depth: u64) -> io::Result<()> {
    let mut table = prints::room::<{ prints::LARGE_TABLE }>();
    let n = prints::read_on(rt, first, &mut table)?;
    if n < table.len() {
        show(rt, field::part(&table, 0, n))?;
    } else {
        eprintln!(rt; "the table has 67174400 bytes or more")?;
    }
    if 0 < depth && prints::never(rt) {
        show_large(rt, first, depth - 1)?;
    }
    Ok(())
}

fn main(rt: HostRuntime) -> io::Result<()> {
    let mut table = prints::room::<{ prints::ROOM }>();
    let n = prints::read_input(&rt, &mut table)?;
    if n < table.len() {
        show(&rt, &table[..n])
    } else if prints::has_stack(&rt) {
        show_large(&rt, &table, 1)
    } else {
        eprintln!(rt; "the table has 1114112 bytes or more")
    }
}
