// The parts of a case's line.
use crate::ROOM;
use streams::Run;

// A case as it is printed before its answer.
pub(crate) fn asked(run: Run, case: &[u8]) -> Run {
    run.text(case).text(b": ")
}

// The first byte, 0 for none.
pub(crate) fn first(s: &[u8]) -> u8 {
    s.first().copied().unwrap_or(0)
}

// What stands after place n.
pub(crate) fn rest(s: &[u8], n: usize) -> &[u8] {
    if n < s.len() { &s[n + 1..] } else { &s[..0] }
}

// What stands after the first blank.
pub(crate) fn after(s: &[u8]) -> &[u8] {
    rest(s, octets::find(s, 0, b' '))
}

// What stands before the first blank.
pub(crate) fn word(s: &[u8]) -> &[u8] {
    octets::part(s, 0, octets::find(s, 0, b' '))
}

// What stands before the bar, and after it.
pub(crate) fn printed(s: &[u8]) -> &[u8] {
    octets::part(s, 0, octets::find(s, 0, b'|'))
}

pub(crate) fn operands(s: &[u8]) -> &[u8] {
    rest(s, octets::find(s, 0, b'|'))
}

// The number that a text begins with, 0 for none.
pub(crate) fn number(s: &[u8]) -> u64 {
    let mut n = 0;
    for b in s {
        if !b.is_ascii_digit() {
            break;
        }
        n = followed(n, *b - b'0');
    }
    n
}

// A number and one digit more, where a u64 has room for it.
fn followed(n: u64, digit: u8) -> u64 {
    n.checked_mul(10)
        .and_then(|tens| tens.checked_add(u64::from(digit)))
        .unwrap_or(n)
}

// A text may have one byte in it that is repeated: `{A*8192}`. That byte:
pub(crate) fn fill(s: &[u8]) -> u8 {
    first(rest(s, octets::find(s, 0, b'{')))
}

// Stores what stands before and after the braces in a buffer that is full of the repeated byte, and says
// where the text ends.
pub(crate) fn expand(s: &[u8], out: &mut [u8]) -> usize {
    let open = octets::find(s, 0, b'{');
    let times = number(rest(s, octets::find(s, 0, b'*'))) as usize;
    let last = rest(s, octets::find(s, 0, b'}'));
    octets::copy_at(octets::part(s, 0, open), out, 0);
    let end = open.min(ROOM) + times.min(ROOM);
    octets::copy_at(last, out, end);
    end + last.len().min(ROOM)
}
