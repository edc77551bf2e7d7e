// Prints the lines of the table on standard input.
#![tactic(auto)]

use std::io;

fn main(rt: HostRuntime) -> io::Result<()> {
    let mut text = prints::room::<{ prints::ROOM }>();
    let mut space = [0u8; 65536];
    let n = prints::read_input(&rt, &mut space)?;
    let m = lists::lines(&space[..n], &mut text);
    prints::write_first(&rt, &text, m)
}
