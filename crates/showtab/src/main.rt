// Prints all that the table on standard input says; of a matrix with many initiators or targets the first and the last, or with the
// argument --all each. Bytes from the 1,114,112th on are not read, or with 256 MiB of stack those from the 67,174,400th on: a table that
// needs them is refused for its length.
#![tactic(auto)]

use std::env::Env;
use std::io;

// Whether the first argument asks for all.
fn asks_all(rt: &impl Env) -> bool {
    let mut word = [0u8; 6];
    let n = prints::argument(rt, 1, &mut word);
    word[..n] == b"--all"[..]
}

// A long table, of which the first bytes are read already: in a large room, apart from main's (see prints::never).
fn show_large(rt: &HostRuntime, first: &[u8], all: bool, depth: u64) -> io::Result<()> {
    let mut table = prints::room::<{ prints::LARGE_TABLE }>();
    let n = prints::read_on(rt, first, &mut table)?;
    shows::show(rt, field::part(&table, 0, n), all)?;
    if 0 < depth && prints::never(rt) {
        show_large(rt, first, all, depth - 1)?;
    }
    Ok(())
}

fn main(rt: HostRuntime) -> io::Result<()> {
    let all = asks_all(&rt);
    let mut table = prints::room::<{ prints::ROOM }>();
    let n = prints::read_input(&rt, &mut table)?;
    if table.len() <= n && prints::has_stack(&rt) {
        return show_large(&rt, &table, all, 1);
    }
    shows::show(&rt, &table[..n], all)
}
