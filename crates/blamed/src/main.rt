// Prints of some recipes every place where a field begins, and its words: each kind of record once, one that is cut, one of another
// table, and a head that names no table.
#![tactic(auto)]

use std::io;

fn tell(rt: &impl Print, recipe: &[u8], place: usize) -> io::Result<()> {
    let mut words = [0u8; 64];
    let n = blames::field(recipe, place, &mut words, 0);
    if n == 0 {
        return Ok(());
    }
    print!(rt; "{place}: ")?;
    prints::write_first(rt, &words, n)?;
    println!(rt)
}

fn tell_all(rt: &impl Print, title: &str, recipe: &[u8]) -> io::Result<()> {
    println!(rt; "{title}")?;
    for place in 0..recipe.len() {
        tell(rt, recipe, place)?;
    }
    Ok(())
}

fn pptt(rt: &impl Print) -> io::Result<()> {
    let mut r = [0u8; 68];
    r[0] = 1;
    r[28] = 18;
    r[50] = 16;
    r[63] = 17;
    tell_all(rt, "PPTT", &r)?;
    tell_all(rt, "PPTT, cut", &r[..35])?;
    r[50] = 32;
    tell_all(rt, "PPTT, a kind of SRAT", &r)?;
    r[1] = 4;
    tell_all(rt, "no table", &r)?;
    r[0] = 0;
    tell_all(rt, "no head", &r)
}

fn srat(rt: &impl Print) -> io::Result<()> {
    let mut r = [0u8; 93];
    r[0] = 1;
    r[1] = 1;
    r[28] = 32;
    r[50] = 33;
    r[68] = 34;
    r[79] = 36;
    tell_all(rt, "SRAT", &r)
}

fn hmat(rt: &impl Print) -> io::Result<()> {
    let mut r = [0u8; 125];
    r[0] = 1;
    r[1] = 2;
    r[28] = 48;
    r[37] = 49;
    r[51] = 50;
    r[57] = 51;
    r[63] = 52;
    r[68] = 53;
    r[85] = 54;
    r[88] = 55;
    r[104] = 56;
    r[111] = 57;
    r[118] = 58;
    tell_all(rt, "HMAT", &r)
}

fn cedt(rt: &impl Print) -> io::Result<()> {
    let mut r = [0u8; 81];
    r[0] = 1;
    r[1] = 3;
    r[28] = 64;
    r[42] = 65;
    r[65] = 66;
    r[70] = 67;
    r[72] = 68;
    tell_all(rt, "CEDT", &r)
}

fn main(rt: HostRuntime) -> io::Result<()> {
    pptt(&rt)?;
    srat(&rt)?;
    hmat(&rt)?;
    cedt(&rt)
}
