// What the programs lend, read and write: room for a table, a recipe or a line of text, standard input into such a room, bytes to standard
// output, a refusal to standard error.
// All of it is on the stack. Every stack has room for a `ROOM` and a `LINE`; what has `LARGE` in its name is made only where it is needed
// and `has_stack` says that there is room for it.
#![tactic(auto)]

mod stack;

ghost use Rattle.std.specs.Prelude.{◌≡◌, ◌≤◌, length, replicate, IfOk, IfSome};

use std::env::{Env, FillError};
use std::fs::File;
use std::io::{Input, Read};
use std::rt::Files;
use std::{fs, io, str};

// 256 MiB: the rooms of a program, small and large, which have 208,404,736 bytes at most, with what its calls and its environment take.
const LARGE_STACK: u64 = 268435456;

// Room for most tables and recipes: 1,048,576 bytes and 65,536 more.
pub const ROOM: usize = 1114112;

// Room for a line of text: 1,114,112 bytes in hexadecimal digits, and 64 characters for what stands before them.
pub const LINE: usize = 2228288;

// Room for the longest table, 67,108,864 bytes, and 65,536 more.
pub const LARGE_TABLE: usize = 67174400;

// Room for the recipe of a matrix of 4,096 initiators and 4,096 targets with every cell, which has some 117.6 million bytes.
pub const LARGE_RECIPE: usize = 134217728;

// Room for the bytes of a long line: the table of a matrix of 4,096 initiators and 4,096 targets, 33,587,272 bytes, and some more.
pub const LARGE_DATA: usize = 33619968;

// Room for a long line of text: 33,619,968 bytes in hexadecimal digits, and 64 characters for what stands before them.
pub const LARGE_LINE: usize = 67240000;

// Zeros, as many as the type says: the function keeps the check from counting them.
pub fn room<const N: usize>() -> [u8; N]
    ensures value { N ≡ length result }
    ensures value_2 { result ≡ replicate N 0 }
{
    [0; N]
}

// Whether the stack may grow so far that large rooms fit; no where the system does not tell.
pub fn has_stack(rt: &impl Files) -> bool {
    let mut limits = [0u8; 4096];
    match read_limits(rt, &mut limits) {
        Ok(n) => stack::allows(&limits[..n]),
        Err(_) => false,
    }
}

// The text in which the system tells a process its limits, as far as there is room: how many bytes it has then.
fn read_limits(rt: &impl Files, limits: &mut [u8]) -> io::Result<usize>
    ensures { IfOk result (λ n. n ≤ length limits.new) }
{
    let mut file = fs::open(rt, "/proc/self/limits")?;
    read_full(&mut file, limits)
}

// No: a program is started with a word at least, its own name, which the compiler does not know. A function that makes large rooms calls
// itself where this is so. For what calls itself is never made a part of its caller; else the rooms would be in main's frame, for which a
// small stack has no room, whether they are made or not.
// They are five: one that took the work as a closure would require that the closure may be called, and no public function requires anything.
pub fn never(rt: &impl Env) -> bool {
    !has_argument(rt, 0)
}

// Bytes from a reader, to its end or as far as there is room: how many there are then. A read that fails ends it, and its error is the
// answer; the room has then what was read before.
pub fn read_full(from: &mut impl Read, room: &mut [u8]) -> io::Result<usize>
    ensures { IfOk result (λ n. n ≤ length room.new) }
{
    let mut done = 0;
    while done < room.len() {
        let n = from.read(&mut room[done..])?;
        if n == 0 {
            break;
        }
        done += n;
    }
    Ok(done)
}

// The same of standard input.
pub fn read_input(rt: &impl Input, room: &mut [u8]) -> io::Result<usize>
    ensures { IfOk result (λ n. n ≤ length room.new) }
{
    read_full(&mut rt.reader(), room)
}

// What the file of a name has, as far as there is room: how many bytes. Where it can't be opened, a line on standard error says why, and
// there are none.
pub fn read_named(rt: &HostRuntime, path: &[u8], room: &mut [u8]) -> io::Result<Option<usize>>
    ensures { IfOk result (λ found. IfSome found (λ n. n ≤ length room.new)) }
{
    match open(rt, path) {
        Ok(mut file) => Ok(Some(read_full(&mut file, room)?)),
        Err(e) => {
            rt.stderr().write_all(path)?;
            eprintln!(rt; ": {e}")?;
            Ok(None)
        }
    }
}

// The file of a name, which has to be text.
fn open(rt: &HostRuntime, path: &[u8]) -> io::Result<File> {
    let name = str::from_utf8(path).map_err(|_| io::Error::from(io::ErrorKind::InvalidFilename))?;
    fs::open(rt, name)
}

// The i-th word that a program was started with: how many bytes it has. One that is missing or longer than the room is empty.
pub fn argument(rt: &impl Env, i: usize, room: &mut [u8]) -> usize
    ensures { result ≤ length room.new }
{
    rt.arg(i, room).unwrap_or(0)
}

// Whether a program was started with an i-th word.
pub fn has_argument(rt: &impl Env, i: usize) -> bool {
    let mut word = [0u8; 1];
    !matches!(rt.arg(i, &mut word), Err(FillError::NotPresent))
}

// Bytes that were read already, and behind them the rest of standard input, as far as there is room: how many there are then.
pub fn read_on(rt: &impl Input, first: &[u8], room: &mut [u8]) -> io::Result<usize> {
    let n = first.len();
    if room.len() < n {
        return Ok(0);
    }
    room[..n].copy_from_slice(first);
    Ok(n + read_input(rt, &mut room[n..])?)
}

// The first n bytes of a buffer.
pub fn write_first(rt: &impl Print, bytes: &[u8], n: usize) -> io::Result<()> {
    match bytes.get(..n) {
        Some(first) => rt.write_all(first),
        None => Ok(()),
    }
}

// One line: the refusal's number and its place.
pub fn refuse(rt: &impl Eprint, number: u64, place: u64) -> io::Result<()> {
    eprintln!(rt; "refused {number} {place}")
}
