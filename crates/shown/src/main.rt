// Prints all that each of the stored tables says, under its name: those of the demonstration, others with every field, refused
// ones, and matrices of which only the ends are shown.
#![tactic(auto)]

use std::io;

// A table under its name.
fn show(rt: &HostRuntime, path: &[u8]) -> io::Result<()> {
    rt.write_all(b"== ")?;
    rt.write_all(path)?;
    rt.write_all(b"\n")?;
    let mut space = prints::room::<{ prints::ROOM }>();
    let Some(n) = prints::read_named(rt, path, &mut space)? else {
        return Ok(());
    };
    shows::show(rt, field::part(&space, 0, n), false)
}

// As many as crates/shown/args has lines.
fn main(rt: HostRuntime) -> io::Result<()> {
    let mut path = [0u8; 4096];
    for i in 1..17 {
        let n = prints::argument(&rt, i, &mut path);
        show(&rt, &path[..n])?;
    }
    Ok(())
}
