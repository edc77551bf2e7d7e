// Prints the lines of each table that its arguments name, under the name: stored tables against stored lines.
#![tactic(auto)]

use std::io;

fn show(rt: &HostRuntime, path: &[u8]) -> io::Result<()> {
    rt.write_all(b"== ")?;
    rt.write_all(path)?;
    rt.write_all(b"\n")?;
    let mut space = [0u8; 65536];
    let Some(n) = prints::read_named(rt, path, &mut space)? else {
        return Ok(());
    };
    let mut text = prints::room::<{ prints::ROOM }>();
    let m = lists::lines(field::part(&space, 0, n), &mut text);
    prints::write_first(rt, &text, m)
}

fn main(rt: HostRuntime) -> io::Result<()> {
    let mut path = [0u8; 4096];
    for i in 1..usize::MAX {
        if !prints::has_argument(&rt, i) {
            break;
        }
        let n = prints::argument(&rt, i, &mut path);
        show(&rt, &path[..n])?;
    }
    Ok(())
}
