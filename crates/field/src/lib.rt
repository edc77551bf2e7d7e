// Numbers and byte strings, laid into a buffer and read out of one, the lowest byte first.
// Any place is allowed: what would reach past the end is left out, and what is read there counts as 0.
#![tactic(auto)]

ghost use Rattle.std.specs.Prelude.{◌≡◌, ◌+◌, ◌-◌, ◌*◌, ◌/◌, ◌%◌, ◌^◌, ◌<◌, ◌≤◌, min, ℕ, length, drop, replicate};
ghost use Rattle.std.proofs.Common.{rules};
ghost use Rattle.format.specs.Bytes.{le, value, join, part, over, sum};
ghost use Rattle.field.specs.Whole.{number_of, whole_of};

// How many of n bytes from a place on stand before the end.
fn fitting(len: usize, at: usize, n: usize) -> usize
    ensures { result ≡ min n (len - at) }
{
    len.saturating_sub(at).min(n)
}

// The place k steps of w bytes behind another. Where that is past what a usize can name it is the last place of all: no slice is longer,
// so nothing stands there.
pub fn behind(at: usize, w: usize, k: usize) -> usize
    ensures { result ≡ min (at + w * k) (2 ^ 64 - 1) }
{
    at.saturating_add(w.saturating_mul(k))
}

// ---- numbers

// A number of at most eight whole bytes.
pub trait Number: Copy {
    // How many bytes it has.
    ghost WIDTH: { ℕ };

    const WIDTH: usize;

    // The number that it is.
    ghost number: { Self → ℕ };

    // Writes it at the front of a slice, as far as there is room.
    fn write(self, out: &mut [u8])
        ensures { out.new ≡ over out.old 0 (le WIDTH (number self)) };

    // Reads it from the front of a slice; what is not there counts as 0.
    fn read(s: &[u8]) -> Self
        ensures { number result ≡ value (part s.now 0 WIDTH) };

    ghost narrow: { WIDTH ≤ 8 };
}

impl Number for u8 {
    ghost WIDTH = { 1 };

    const WIDTH: usize = 1;

    ghost number = { λ n. n };

    fn write(self, out: &mut [u8]) {
        copy(out, 0, &u8::to_le_bytes(self));
    }

    fn read(s: &[u8]) -> u8 {
        u8::from_le_bytes(padded(s, 0))
    }

    ghost narrow = { Prim.search rules };
}

impl Number for u16 {
    ghost WIDTH = { 2 };

    const WIDTH: usize = 2;

    ghost number = { λ n. n };

    fn write(self, out: &mut [u8]) {
        copy(out, 0, &u16::to_le_bytes(self));
    }

    fn read(s: &[u8]) -> u16 {
        u16::from_le_bytes(padded(s, 0))
    }

    ghost narrow = { Prim.search rules };
}

impl Number for u32 {
    ghost WIDTH = { 4 };

    const WIDTH: usize = 4;

    ghost number = { λ n. n };

    fn write(self, out: &mut [u8]) {
        copy(out, 0, &u32::to_le_bytes(self));
    }

    fn read(s: &[u8]) -> u32 {
        u32::from_le_bytes(padded(s, 0))
    }

    ghost narrow = { Prim.search rules };
}

impl Number for u64 {
    ghost WIDTH = { 8 };

    const WIDTH: usize = 8;

    ghost number = { λ n. n };

    fn write(self, out: &mut [u8]) {
        copy(out, 0, &u64::to_le_bytes(self));
    }

    fn read(s: &[u8]) -> u64 {
        u64::from_le_bytes(padded(s, 0))
    }

    ghost narrow = { Prim.search rules };
}

// Writes v at any place.
pub fn put<T: Number>(out: &mut [u8], at: usize, v: T)
    ensures { out.new ≡ over out.old at (le T.WIDTH (T.number v)) }
{
    if at <= out.len() && T::WIDTH <= out.len() - at {
        v.write(&mut out[at..at + T::WIDTH]);
        return;
    }
    let at = at.min(out.len());
    v.write(&mut out[at..]);
}

// The number at any place.
pub fn get<T: Number>(s: &[u8], at: usize) -> T
    ensures { T.number result ≡ value (part s.now at T.WIDTH) }
{
    if at <= s.len() && T::WIDTH <= s.len() - at {
        return T::read(&s[at..at + T::WIDTH]);
    }
    T::read(&padded::<8>(s, at)[..T::WIDTH])
}

// Writes the low w bytes of v; how many of them stand before the end.
fn put_low(out: &mut [u8], at: usize, w: usize, v: u64) -> usize
    ensures out_after { out.new ≡ over out.old at (le w v) }
    ensures value { result ≡ min w (length out.old - at) }
{
    // where nothing has room, as in a walk that measures, the rest is not worked out
    if out.len() <= at {
        return 0;
    }
    let n = fitting(out.len(), at, w);
    let mut rest = v;
    for i in 0..n {
        out[at + i] = (rest % 256) as u8;
        rest /= 256;
    }
    n
}

// The same at any place, number by number.
fn put_each(out: &mut [u8], at: usize, ws: &[usize], vs: &[u64])
    ensures { out.new ≡ over out.old at (join ws.now vs.now) }
{
    let mut p = at;
    for (&w, &v) in ws.iter().zip(vs) {
        p += put_low(out, p, w, v);
    }
}

// How many bytes the widths are, as far as a usize reaches.
fn total(ws: &[usize]) -> usize
    ensures { result ≡ min (sum ws.now) (2 ^ 64 - 1) }
{
    let mut n: usize = 0;
    for &w in ws {
        n = n.saturating_add(w);
    }
    n
}

// Writes numbers one behind the other, each at its width. Where all of them have room, they go into a window of their own, of which the
// compiler knows the length and tests no bound for each; where not even the first has room, nothing is done: a walk that measures is
// spared them.
pub fn put_all(out: &mut [u8], at: usize, ws: &[usize], vs: &[u64])
    ensures { out.new ≡ over out.old at (join ws.now vs.now) }
{
    let len = out.len();
    if len <= at {
        return;
    }
    let n = total(ws);
    if len - at < n {
        put_each(out, at, ws, vs);
        return;
    }
    let end = at + n;
    put_each(&mut out[at..end], 0, ws, vs);
}

// The first N bytes from a place on, with zeros where there are none.
pub fn padded<const N: usize>(s: &[u8], at: usize) -> [u8; N]
    ensures { result ≡ over (replicate N 0) 0 (drop at s.now) }
{
    let mut bytes = [0u8; N];
    copy(&mut bytes, 0, rest(s, at));
    bytes
}

// At most n bytes from a place on.
pub fn part(s: &[u8], at: usize, n: usize) -> &[u8]
    ensures { result.now ≡ part s.now at n }
{
    let s = rest(s, at);
    &s[..n.min(s.len())]
}

// What stands from a place on.
pub fn rest(s: &[u8], at: usize) -> &[u8]
    ensures { result.now ≡ drop at s.now }
{
    &s[at.min(s.len())..]
}

// ---- byte strings

// Writes all of src.
pub fn copy<T: Copy>(out: &mut [T], at: usize, src: &[T])
    ensures { out.new ≡ over out.old at src.now }
{
    let at = at.min(out.len());
    let n = src.len().min(out.len() - at);
    out[at..at + n].copy_from_slice(&src[..n]);
}

// Writes v n times.
pub fn fill(out: &mut [u8], at: usize, n: usize, v: u8)
    ensures { out.new ≡ over out.old at (replicate n v) }
{
    let at = at.min(out.len());
    let n = n.min(out.len() - at);
    out[at..at + n].fill(v);
}

// ---- sums

// A whole number that may pass 64 bits: high times 256 and low. It holds the sum of every slice: each byte adds at most one to high,
// and a slice has fewer bytes than a u64 counts.
#[derive(Clone, Copy)]
pub struct Whole {
    pub high: u64,
    pub low: u8,
}

impl Whole {
    // The number less a multiple of 2,560: it has the same last digit, and of high only the last digit counts.
    fn units(self) -> u64
        ensures { result ≡ self.high % 10 * 256 + self.low }
    {
        self.high % 10 * 256 + self.low as u64
    }

    // The number without its last decimal digit.
    pub fn tenth(self) -> Whole
        ensures { result ≡ whole_of (number_of self / 10) }
    {
        Whole {
            high: self.high / 10,
            low: (self.units() / 10) as u8,
        }
    }

    // Its last decimal digit.
    pub fn digit(self) -> u8
        ensures { result ≡ number_of self % 10 }
    {
        (self.units() % 10) as u8
    }
}

// What two bytes carry over.
fn carry(a: u8, b: u8) -> u64
    ensures value { result ≡ (a + b) / 256 }
    ensures little { result ≤ 1 }
{
    (a as u64 + b as u64) / 256
}

// The sum of the bytes, whole.
pub fn u8sum(s: &[u8]) -> Whole
    ensures { result ≡ whole_of (sum s.now) }
{
    let mut high: u64 = 0;
    let mut low: u8 = 0;
    for &b in s {
        high += carry(low, b);
        low = low.wrapping_add(b);
    }
    Whole { high, low }
}
