// Writes the table of the recipe on standard input to standard output; a refusal is one line on standard error, and behind a bad field's
// comes one that says which field it is.
// A recipe has to be shorter than 1,114,112 bytes here, and its table may have that many; with 256 MiB of stack a recipe has to be shorter
// than 134,217,728 bytes, and every table has room.
#![tactic(auto)]

use build::BuildError;
use recipe::Refusal;
use std::io;

// The field that begins at a place of a recipe, if one does. No words are longer than the room here.
fn blame(rt: &HostRuntime, recipe: &[u8], place: usize) -> io::Result<()> {
    let mut words = [0u8; 64];
    let n = blames::field(recipe, place, &mut words, 0);
    if n == 0 {
        return Ok(());
    }
    rt.stderr().write_all(field::part(&words, 0, n))?;
    rt.stderr().write_all(b"\n")
}

fn refuse(rt: &HostRuntime, recipe: &[u8], error: BuildError) -> io::Result<()> {
    prints::refuse(rt, error.number() as u64, error.place() as u64)?;
    match error {
        BuildError::Refused(r) if r.refusal == Refusal::BadField => blame(rt, recipe, r.at),
        _ => Ok(()),
    }
}

fn show(
    rt: &HostRuntime,
    answer: Result<usize, BuildError>,
    recipe: &[u8],
    table: &[u8],
) -> io::Result<()> {
    match answer {
        Ok(n) => prints::write_first(rt, table, n),
        Err(error) => refuse(rt, recipe, error),
    }
}

// A long recipe, of which the first bytes are read already, or one of a long table: in large rooms, apart from main's (see prints::never).
fn build_large(rt: &HostRuntime, first: &[u8], depth: u64) -> io::Result<()> {
    let mut recipe = prints::room::<{ prints::LARGE_RECIPE }>();
    let n = prints::read_on(rt, first, &mut recipe)?;
    if n < recipe.len() {
        let mut table = prints::room::<{ prints::LARGE_TABLE }>();
        let given = field::part(&recipe, 0, n);
        let answer = build::build(given, &mut table);
        show(rt, answer, given, &table)?;
    } else {
        eprintln!(rt; "the recipe has 134217728 bytes or more")?;
    }
    if 0 < depth && prints::never(rt) {
        build_large(rt, first, depth - 1)?;
    }
    Ok(())
}

// A recipe that is read to its end.
fn build(rt: &HostRuntime, recipe: &[u8]) -> io::Result<()> {
    let mut table = prints::room::<{ prints::ROOM }>();
    let answer = build::build(recipe, &mut table);
    if matches!(answer, Err(BuildError::NoRoom(_))) && prints::has_stack(rt) {
        return build_large(rt, recipe, 1);
    }
    show(rt, answer, recipe, &table)
}

fn main(rt: HostRuntime) -> io::Result<()> {
    let mut recipe = prints::room::<{ prints::ROOM }>();
    let n = prints::read_input(&rt, &mut recipe)?;
    if n < recipe.len() {
        build(&rt, &recipe[..n])
    } else if prints::has_stack(&rt) {
        build_large(&rt, &recipe, 1)
    } else {
        eprintln!(rt; "the recipe has 1114112 bytes or more")
    }
}
