// Answers calls line by line: a request on standard input, its answer on standard output (docs/CALLS.md).
#![tactic(auto)]

ghost use Rattle.std.specs.Prelude.{◌≡◌, length, take, IsNone, IfSome};
ghost use Rattle.text.specs.Text.{laid};
ghost use Rattle.answers.specs.Lines.{too_long, answer_to};

use std::io;
use std::io::{Input, Read};

// The answer to a line of so many bytes, or to one for which there is no room.
fn reply(
    held: Option<usize>,
    line: &[u8],
    given: &mut [u8],
    lent: &mut [u8],
    text: &mut [u8],
) -> usize
    ensures long { IsNone held → (result, text.new) ≡ laid text.old 0 too_long }
    ensures answered { IfSome held (λ n. (result, text.new) ≡ laid text.old 0 (answer_to (length given.old) (length lent.old) (take n line.now))) }
{
    match held {
        None => answers::too_long(text),
        Some(n) => answers::answer(frames::first(line, n), given, lent, text),
    }
}

// One byte more: how many the line has then, where there is room for them.
fn take(line: &mut [u8], held: Option<usize>, b: u8) -> Option<usize> {
    match held {
        Some(n) if n < line.len() => {
            line[n] = b;
            Some(n + 1)
        }
        _ => None,
    }
}

// Line by line: each is answered where it ends, at once, and a last one may lack its newline. The four rooms are no struct: lending one field
// behind a reference while another is lent is not covered by proofs. Nothing says that the input ends: reads are counted, up to a number that
// no run reaches.
fn serve(
    rt: &(impl Input + Print),
    line: &mut [u8],
    given: &mut [u8],
    lent: &mut [u8],
    text: &mut [u8],
) -> io::Result<()> {
    let mut held = Some(0);
    let mut chunk = [0u8; 65536];
    for _ in 0..u64::MAX {
        let n = rt.reader().read(&mut chunk)?;
        if n == 0 {
            break;
        }
        for b in &chunk[..n] {
            if *b == b'\n' {
                let n = reply(held, line, given, lent, text);
                prints::write_first(rt, text, n)?;
                held = Some(0);
            } else {
                held = take(line, held, *b);
            }
        }
    }
    if held != Some(0) {
        let n = reply(held, line, given, lent, text);
        prints::write_first(rt, text, n)?;
    }
    Ok(())
}

// Rooms as every stack has them. A line of text has room for the longest answer too.
fn serve_small(rt: &(impl Input + Print)) -> io::Result<()> {
    let mut line = prints::room::<{ prints::LINE }>();
    let mut given = prints::room::<{ prints::ROOM }>();
    let mut lent = prints::room::<{ prints::ROOM }>();
    let mut text = prints::room::<{ prints::LINE }>();
    serve(rt, &mut line, &mut given, &mut lent, &mut text)
}

// Large rooms, apart from main's (see prints::never).
fn serve_large(rt: &HostRuntime, depth: u64) -> io::Result<()> {
    let mut line = prints::room::<{ prints::LARGE_LINE }>();
    let mut given = prints::room::<{ prints::LARGE_DATA }>();
    let mut lent = prints::room::<{ prints::LARGE_DATA }>();
    let mut text = prints::room::<{ prints::LARGE_LINE }>();
    serve(rt, &mut line, &mut given, &mut lent, &mut text)?;
    if 0 < depth && prints::never(rt) {
        serve_large(rt, depth - 1)?;
    }
    Ok(())
}

fn main(rt: HostRuntime) -> io::Result<()> {
    if prints::has_stack(&rt) {
        serve_large(&rt, 1)
    } else {
        serve_small(&rt)
    }
}
