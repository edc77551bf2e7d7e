// Requests as text: words, decimal numbers, bytes as hexadecimal digits. Any function takes any bytes.
#![tactic(auto)]

ghost use Rattle.std.specs.Prelude.{◌≡◌, ◌≤◌, length};
ghost use Rattle.format.specs.Bytes.{over};
ghost use Rattle.talk.specs.Words.{space_in, word_in, behind_in, call_in};
ghost use Rattle.talk.specs.Numbers.{step_to, number_in};
ghost use Rattle.talk.specs.Hex.{value_of, pair_of, all_hex, pairs, data_in, all_are};

// ---- words

// Where the first space stands, or the end.
fn space(text: &[u8]) -> usize
    ensures { (result ≡ space_in text.now) × (result ≤ length text.now) }
{
    text.iter().position(|&b| b == b' ').unwrap_or(text.len())
}

// What stands before the first space.
pub fn word(text: &[u8]) -> &[u8]
    ensures { result.now ≡ word_in text.now }
{
    let n = space(text);
    &text[..n]
}

// What stands behind the first space.
pub fn behind(text: &[u8]) -> &[u8]
    ensures { result.now ≡ behind_in text.now }
{
    field::rest(field::rest(text, space(text)), 1)
}

// The calls.
#[derive(Clone, Copy)]
pub enum Call {
    Build,
    Out,
    Read,
    Sum,
}

// The call that a word names.
#[tactic(auto, using(crate::proofs::Tests::same_pointwise), unfolding(crate::specs::Words::call_in))]
pub fn named(name: &[u8]) -> Option<Call>
    ensures { result ≡ call_in name.now }
{
    if name == b"build".as_slice() {
        return Some(Call::Build);
    }
    if name == b"out".as_slice() {
        return Some(Call::Out);
    }
    if name == b"read".as_slice() {
        return Some(Call::Read);
    }
    if name == b"sum".as_slice() {
        return Some(Call::Sum);
    }
    None
}

// ---- decimal numbers

// A number with one more digit behind it, if that is a digit and the number no more than most.
#[tactic(auto, unfolding(crate::specs::Numbers::step_to))]
fn step(v: u64, b: u8, most: u64) -> Option<u64>
    ensures { result ≡ step_to most v b }
{
    if !b.is_ascii_digit() {
        return None;
    }
    let w = v.checked_mul(10)?.checked_add((b - b'0') as u64)?;
    if w <= most { Some(w) } else { None }
}

// The number that a word of decimal digits stands for, up to most.
pub fn decimal(text: &[u8], most: u64) -> Option<u64>
    ensures { result ≡ number_in most text.now }
{
    if text.is_empty() {
        return None;
    }
    let mut v = 0;
    for &b in text {
        v = step(v, b, most)?;
    }
    Some(v)
}

// ---- hexadecimal digits, lower case

// The number of a digit.
#[tactic(auto, unfolding(crate::specs::Hex::value_of))]
fn value(b: u8) -> Option<u8>
    ensures { result ≡ value_of b }
{
    match b {
        b'0'..=b'9' => Some(b - b'0'),
        b'a'..=b'f' => Some(b - b'a' + 10),
        _ => None,
    }
}

// Whether all bytes are digits.
fn all_hex(text: &[u8]) -> bool
    ensures { result ≡ all_hex text.now }
{
    text.iter().all(|&b| value(b).is_some())
}

// Why a word stands for no bytes.
#[derive(Clone, Copy)]
pub enum DataError {
    TooLong,
    Other,
}

// How many bytes a word stands for, where there is room for so many: two digits a byte, '-' none.
#[tactic(auto, using(crate::proofs::Tests::same_pointwise), unfolding(crate::specs::Hex::data_in))]
pub fn count(text: &[u8], room: usize) -> Result<usize, DataError>
    ensures { result ≡ data_in room text.now }
{
    if text == b"-".as_slice() {
        return Ok(0);
    }
    let n = text.len();
    if n == 0 || n % 2 == 1 || !all_hex(text) {
        return Err(DataError::Other);
    }
    if room < n / 2 {
        return Err(DataError::TooLong);
    }
    Ok(n / 2)
}

// The byte of two digits; what is no digit counts as 0.
#[tactic(auto, using(crate::proofs::Tests::value_few), unfolding(crate::specs::Hex::pair_of))]
fn pair(a: u8, b: u8) -> u8
    ensures { result ≡ pair_of a b }
{
    value(a).unwrap_or(0) * 16 + value(b).unwrap_or(0)
}

// Writes the bytes of a word's digits, as many as there is room for.
pub fn unhex(text: &[u8], out: &mut [u8])
    ensures { out.new ≡ over out.old 0 (pairs text.now) }
{
    for i in 0..out.len().min(text.len() / 2) {
        out[i] = pair(text[2 * i], text[2 * i + 1]);
    }
}

// Whether all bytes are v.
pub fn all_are(s: &[u8], v: u8) -> bool
    ensures { result ≡ all_are v s.now }
{
    s.iter().all(|&b| b == v)
}
