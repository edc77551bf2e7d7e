// Words and numbers on standard output; a field is a line of its own.
#![tactic(auto)]

ghost use Rattle.std.specs.Prelude.{true, ◌≡◌, eqb, IfOk};
ghost use Rattle.std.specs.Int.Bits.{bit_and};
ghost use Rattle.format.specs.Bytes.{pick};
ghost use Rattle.words.specs.Names.{named};

use std::{io, slice};
use text::Text;

// Bytes as they are.
pub fn say(rt: &impl Print, word: &[u8]) -> io::Result<()> {
    rt.write_all(word)
}

// A number in decimal.
pub fn number(rt: &impl Print, n: u64) -> io::Result<()> {
    rt.print(n)
}

// A number in hexadecimal.
pub fn hex(rt: &impl Print, n: u64) -> io::Result<()> {
    print!(rt; "0x{n:x}")
}

// The start of a field's line.
pub fn name(rt: &impl Print, word: &[u8]) -> io::Result<()> {
    say(rt, b"  ")?;
    say(rt, word)?;
    say(rt, b" ")
}

// The end of a line.
pub fn end(rt: &impl Print) -> io::Result<()> {
    say(rt, b"\n")
}

// A field and its number.
pub fn line(rt: &impl Print, word: &[u8], n: u64) -> io::Result<()> {
    name(rt, word)?;
    println!(rt; "{n}")
}

// A field and its number in hexadecimal.
pub fn hex_line(rt: &impl Print, word: &[u8], n: u64) -> io::Result<()> {
    name(rt, word)?;
    println!(rt; "0x{n:x}")
}

// A field and how many bytes it says, in hexadecimal and in decimal.
pub fn size_line(rt: &impl Print, word: &[u8], n: u64) -> io::Result<()> {
    name(rt, word)?;
    println!(rt; "0x{n:x} ({n} bytes)")
}

// A field of flags begins: the names of the bits that are set follow.
pub fn flags(rt: &impl Print, n: u64) -> io::Result<()> {
    print!(rt; "  flags 0x{n:x}")
}

// One more name in a list, with a comma where others stand before it; now there are some.
pub fn item(rt: &impl Print, word: &[u8], some: bool) -> io::Result<bool>
    ensures { IfOk result (λ x. x ≡ true) }
{
    if some {
        say(rt, b", ")?;
    } else {
        say(rt, b" ")?;
    }
    say(rt, word)?;
    Ok(true)
}

// The name of a bit, where it is set; whether the list has some names then.
pub fn bit(rt: &impl Print, flags: u32, unit: u32, word: &[u8], some: bool) -> io::Result<bool>
    ensures { IfOk result (λ x. x ≡ pick (eqb (bit_and flags unit) 0) some true) }
{
    if flags & unit == 0 {
        return Ok(some);
    }
    item(rt, word, some)
}

// The same for several bits and their names.
pub fn bits(rt: &impl Print, flags: u32, names: &[(u32, &str)], mut some: bool) -> io::Result<bool>
    ensures { IfOk result (λ x. x ≡ named flags some names.now) }
{
    for (unit, word) in names {
        some = bit(rt, flags, *unit, word.as_bytes(), some)?;
    }
    Ok(some)
}

// ---- bytes

// The first n bytes, two digits for each.
fn digits(rt: &impl Print, s: &[u8], n: usize) -> io::Result<()> {
    print!(rt; "0x")?;
    for i in 0..n {
        print!(rt; "{:02x}", field::get::<u8>(s, i))?;
    }
    Ok(())
}

// The first n bytes: as text, without the zeros at their end, or in hexadecimal where they are none.
pub fn text(rt: &impl Print, s: &[u8], n: usize) -> io::Result<()> {
    let first = &s[..n.min(s.len())];
    let Some(last) = first.iter().rposition(|b| *b != 0) else {
        return digits(rt, s, n);
    };
    let trimmed = &first[..last + 1];
    if !trimmed.iter().all(|b| matches!(b, b' '..=b'~')) {
        return digits(rt, s, n);
    }
    say(rt, b"\"")?;
    say(rt, trimmed)?;
    say(rt, b"\"")
}

// Sixteen bytes at most: laid first, and written by one call.
fn byte_line(rt: &impl Print, s: &[u8]) -> io::Result<()> {
    let mut line = [0u8; 52];
    let mut text = Text::new(&mut line);
    text.bytes(b"   ");
    for b in s {
        text.byte(b' ');
        text.hex(slice::from_ref(b));
    }
    text.byte(b'\n');
    let n = text.len();
    prints::write_first(rt, &line, n)
}

// All bytes, sixteen a line.
pub fn bytes(rt: &impl Print, s: &[u8]) -> io::Result<()> {
    for part in s.chunks(16) {
        byte_line(rt, part)?;
    }
    Ok(())
}
