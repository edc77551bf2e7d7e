// Writes the recipe of the table on standard input to standard output; a refusal is one line on standard error.
// A table has to be shorter than 1,114,112 bytes here, and its recipe may have that many; with 256 MiB of stack a table has to be shorter
// than 67,174,400 bytes, and its recipe may have 134,217,728.
#![tactic(auto)]

use readout::ReadOutError;
use std::io;

fn show(
    rt: &(impl Print + Eprint),
    answer: Result<usize, ReadOutError>,
    recipe: &[u8],
) -> io::Result<()> {
    match answer {
        Ok(n) => prints::write_first(rt, recipe, n),
        Err(error) => prints::refuse(rt, error.number() as u64, error.place() as u64),
    }
}

// A long table, of which the first bytes are read already, or one of a long recipe: in large rooms, apart from main's (see prints::never).
fn read_out_large(rt: &HostRuntime, first: &[u8], depth: u64) -> io::Result<()> {
    let mut table = prints::room::<{ prints::LARGE_TABLE }>();
    let n = prints::read_on(rt, first, &mut table)?;
    if n < table.len() {
        let mut recipe = prints::room::<{ prints::LARGE_RECIPE }>();
        let answer = readout::read_out(field::part(&table, 0, n), &mut recipe);
        show(rt, answer, &recipe)?;
    } else {
        eprintln!(rt; "the table has 67174400 bytes or more")?;
    }
    if 0 < depth && prints::never(rt) {
        read_out_large(rt, first, depth - 1)?;
    }
    Ok(())
}

// A table that is read to its end.
fn read_out(rt: &HostRuntime, table: &[u8]) -> io::Result<()> {
    let mut recipe = prints::room::<{ prints::ROOM }>();
    let answer = readout::read_out(table, &mut recipe);
    if matches!(answer, Err(ReadOutError::Room(_))) && prints::has_stack(rt) {
        return read_out_large(rt, table, 1);
    }
    show(rt, answer, &recipe)
}

fn main(rt: HostRuntime) -> io::Result<()> {
    let mut table = prints::room::<{ prints::ROOM }>();
    let n = prints::read_input(&rt, &mut table)?;
    if n < table.len() {
        read_out(&rt, &table[..n])
    } else if prints::has_stack(&rt) {
        read_out_large(&rt, &table, 1)
    } else {
        eprintln!(rt; "the table has 1114112 bytes or more")
    }
}
