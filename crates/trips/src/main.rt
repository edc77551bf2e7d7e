// Makes the round trip of each stored recipe and table that its arguments name, and prints a line for each:
// name, length of the table, length of the recipe that is read out, and how the trip ended.
#![tactic(auto)]

use std::io;

fn refused(rt: &impl Print, refusal: u32, place: usize) -> io::Result<()> {
    println!(rt; " refused {refusal} {place}")
}

// A table, the recipe that was read out of it, and whether that is the recipe that was stored: the recipe has to give the table again.
fn again(
    rt: &impl Print,
    table: &[u8],
    recipe: &[u8],
    is_same: bool,
    space: &mut [u8],
) -> io::Result<()> {
    print!(rt; " {} {}", table.len(), recipe.len())?;
    match build::build(recipe, space) {
        Err(e) => refused(rt, e.number() as u32, e.place()),
        Ok(n) if frames::first(space, n) != table => println!(rt; " another table"),
        Ok(_) if is_same => println!(rt; " ok"),
        Ok(_) => println!(rt; " ok, another recipe"),
    }
}

// A table, and the recipe that is stored of it, if one is: what is read out of it has to give it again.
fn of_table(
    rt: &impl Print,
    table: &[u8],
    stored: Option<&[u8]>,
    back: &mut [u8],
    space: &mut [u8],
) -> io::Result<()> {
    match readout::read_out(table, back) {
        Err(e) => refused(rt, e.number(), e.place()),
        Ok(n) => {
            let recipe = frames::first(back, n);
            again(
                rt,
                frames::own(table),
                recipe,
                stored.is_none_or(|r| r == recipe),
                space,
            )
        }
    }
}

// A recipe begins with the byte 1, a table with a letter. Bytes behind a table's length are set aside.
fn trip(rt: &impl Print, bytes: &[u8]) -> io::Result<()> {
    let mut back = prints::room::<{ prints::ROOM }>();
    let mut space = prints::room::<{ prints::ROOM }>();
    if !bytes.starts_with(&[1]) {
        return of_table(rt, bytes, None, &mut back, &mut space);
    }
    let mut table = prints::room::<{ prints::ROOM }>();
    match build::build(bytes, &mut table) {
        Err(e) => refused(rt, e.number() as u32, e.place()),
        Ok(n) => of_table(
            rt,
            frames::first(&table, n),
            Some(bytes),
            &mut back,
            &mut space,
        ),
    }
}

fn show(rt: &HostRuntime, path: &[u8]) -> io::Result<()> {
    rt.write_all(path)?;
    let mut bytes = prints::room::<{ prints::ROOM }>();
    let Some(n) = prints::read_named(rt, path, &mut bytes)? else {
        return Ok(());
    };
    trip(rt, field::part(&bytes, 0, n))
}

fn main(rt: HostRuntime) -> io::Result<()> {
    let mut path = [0u8; 4096];
    for i in 1..usize::MAX {
        if !prints::has_argument(&rt, i) {
            break;
        }
        let n = prints::argument(&rt, i, &mut path);
        show(&rt, &path[..n])?;
    }
    Ok(())
}
