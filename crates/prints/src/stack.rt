// How far the stack may grow, from the text in which Linux tells a process its limits. The call getrlimit wants a reference to a struct,
// which no proof covers yet.
use crate::LARGE_STACK;

// The soft limit stands behind 26 columns.
const SOFT: &[u8] = b"Max stack size            ";

// The number that a text begins with, or the largest where it is larger still; 0 where it begins with none.
fn number(text: &[u8]) -> u64 {
    text.iter()
        .map_while(|b| (*b as char).to_digit(10))
        .fold(0u64, |n, d| n.saturating_mul(10).saturating_add(d as u64))
}

// Whether the limits have a stack that is large.
pub fn allows(limits: &[u8]) -> bool {
    let Some(at) = limits.windows(SOFT.len()).position(|w| w == SOFT) else {
        return false;
    };
    let soft = &limits[at + SOFT.len()..];
    soft.starts_with(b"unlimited") || LARGE_STACK <= number(soft)
}
