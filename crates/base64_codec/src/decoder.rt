// Decoding in two passes: the whole text is checked, and then its bytes are stored.
ghost use Rattle.std.specs.Prelude.{◌≡◌, ℕ, ◌+◌, ◌*◌, ◌/◌, ◌%◌, ◌≤◌, ◌<◌, true, length, drop};
ghost use Rattle.std.proofs.lemmas.List.Edits.{sets};
ghost use Rattle.octets.specs.Members.{every};
ghost use Rattle.base64_codec.specs.Decode.{scan, verdict_of, bytes_of};
ghost use Rattle.base64_codec.specs.Decode as Decode;
ghost use Rattle.base64_codec.specs.Letters.{is_letter, value_before};

use crate::Fault;
use crate::alphabet::{PAD, value};

// The number of padding characters of the whole text, or its fault. Its characters are taken left to right;
// p is the value of the last.
pub(crate) fn check(text: &[u8]) -> Result<usize, Fault>
    ensures { result ≡ verdict_of text.now }
{
    if text.len() % 4 != 0 {
        return Err(Fault::Length);
    }
    let start = pass_letters(text);
    let mut p = before(text, start);
    for i in start..text.len() {
        let c = text[i];
        let v = value(c);
        if v == 64 {
            if c == PAD {
                return ending(p, &text[i + 1..]);
            }
            return Err(Fault::Character);
        }
        p = v;
    }
    Ok(0)
}

// Passes letters, four at a time: a place from which on the text is what it is from its start on.
fn pass_letters(text: &[u8]) -> usize
    ensures { (result ≤ length text.now)
        × (scan (value_before text.now result) (drop result text.now) ≡ scan 0 text.now) }
{
    let start = pass_blocks(text);
    let (groups, _) = text[start..].as_chunks::<4>();
    for (k, group) in groups.iter().enumerate() {
        if !four(group) {
            return start + 4 * k;
        }
    }
    start + 4 * groups.len()
}

// Passes blocks of letters, all of them or none: such a place again. The last group, which may have
// padding, is in no block.
fn pass_blocks(text: &[u8]) -> usize
    ensures { (result ≤ length text.now)
        × (scan (value_before text.now result) (drop result text.now) ≡ scan 0 text.now) }
{
    let n = text.len().saturating_sub(4) / 32 * 32;
    if all_letters(&text[..n]) { n } else { 0 }
}

// Whether each byte of s is a letter. No early way out, as `all` has one: so many are tested at once, and
// decoding is six times as fast.
fn all_letters(s: &[u8]) -> bool
    ensures { result ≡ every is_letter s.now }
{
    let mut all = true;
    for c in s {
        all &= is_letter(*c);
    }
    all
}

// Whether c is a letter: `/` stands before 0. A choice of ranges by `&` and `|` compiles to no branch:
// `matches!` is slower by a third where many are tested, and `is_ascii_alphanumeric` somewhat.
fn is_letter(c: u8) -> bool
    ensures { result ≡ is_letter c }
{
    (c >= b'a') & (c <= b'z') | (c >= b'A') & (c <= b'Z') | (c >= b'/') & (c <= b'9') | (c == b'+')
}

// Whether four characters are letters. A byte that is none has the value 64, a bit that no letter's has, so
// one test does for the four.
fn four(group: &[u8; 4]) -> bool
    ensures { result ≡ every is_letter group.now }
{
    let [a, b, c, d] = *group;
    (value(a) | value(b) | value(c) | value(d)) < 64
}

// The value of the character before place i, and 0 at the start.
fn before(text: &[u8], i: usize) -> u8
    requires { i ≤ length text.now }
    ensures { result ≡ value_before text.now i }
{
    if i == 0 { 0 } else { value(text[i - 1]) }
}

// What the text is by its end: before `left` stands its first `=`, before that the value p.
fn ending(p: u8, left: &[u8]) -> Result<usize, Fault>
    ensures { result ≡ Decode.ending p left.now }
{
    match left {
        [] => unused(p % 4, 1),
        [c] if *c == PAD => unused(p % 16, 2),
        _ => Err(Fault::Length),
    }
}

// What the text is by the bits that no byte uses, with its number of padding characters.
fn unused(bits: u8, padding: usize) -> Result<usize, Fault>
    ensures { result ≡ Decode.unused bits padding }
{
    if bits == 0 {
        return Ok(padding);
    }
    Err(Fault::UnusedBits)
}

// Stores the bytes of a valid text in `out` from place `at` on. Only its last group has padding.
pub(crate) fn fill(text: &[u8], out: &mut [u8], at: usize)
    requires text_value { (k : ℕ) × (verdict_of text.now ≡ Ok k) }
    requires room { at + length (bytes_of text.now) ≤ length out.old }
    ensures { out.new ≡ sets out.old at (bytes_of text.now) }
{
    if let Some((letters, end)) = text.split_last_chunk::<4>() {
        let o = at + letters.len() / 4 * 3;
        full(letters, out, at);
        last(end, out, o);
    }
}

// Stores the bytes of whole groups of letters from place `at` on, two groups a turn: their words are made side by side.
fn full(text: &[u8], out: &mut [u8], at: usize)
    requires letters { (every is_letter text.now ≡ true) × (length text.now % 4 ≡ 0) }
    requires room { at + length (bytes_of text.now) ≤ length out.old }
    ensures { out.new ≡ sets out.old at (bytes_of text.now) }
{
    let (pairs, single) = text.as_chunks::<8>();
    let mut o = at;
    for [a, b, c, d, e, f, g, h] in pairs {
        put(&[*a, *b, *c, *d], out, o);
        put(&[*e, *f, *g, *h], out, o + 3);
        o += 6;
    }
    if let Some((group, _)) = single.split_first_chunk::<4>() {
        put(group, out, o);
    }
}

// Stores the three bytes of a group of letters from place o on.
fn put(group: &[u8; 4], out: &mut [u8], o: usize)
    requires letters { every is_letter group.now ≡ true }
    requires room { o + 3 ≤ length out.old }
    ensures { out.new ≡ sets out.old o (bytes_of group.now) }
{
    let [a, b, c, d] = *group;
    let w = word(value(a), value(b), value(c), value(d));
    out[o] = byte1(w);
    out[o + 1] = byte2(w);
    out[o + 2] = byte3(w);
}

// Stores the bytes of a last group from place o on. The value of a `=`, 64, counts as 0.
fn last(group: &[u8; 4], out: &mut [u8], o: usize)
    requires { o + length (bytes_of group.now) ≤ length out.old }
    ensures { out.new ≡ sets out.old o (bytes_of group.now) }
{
    let [a, b, c, d] = *group;
    let w = word(value(a) % 64, value(b) % 64, value(c) % 64, value(d) % 64);
    out[o] = byte1(w);
    if c == PAD {
        return;
    }
    out[o + 1] = byte2(w);
    if d == PAD {
        return;
    }
    out[o + 2] = byte3(w);
}

// Four values of six bits as one number of 24, and its three bytes: with `to_be_bytes` in their place
// decoding is slower by up to a tenth.
fn word(a: u8, b: u8, c: u8, d: u8) -> u32
    ensures { result ≡ a * 262144 + b * 4096 + c * 64 + d }
{
    u32::from(a) * 262144 + u32::from(b) * 4096 + u32::from(c) * 64 + u32::from(d)
}

fn byte1(w: u32) -> u8
    ensures { result ≡ w / 65536 % 256 }
{
    (w / 65536 % 256) as u8
}

fn byte2(w: u32) -> u8
    ensures { result ≡ w / 256 % 256 }
{
    (w / 256 % 256) as u8
}

fn byte3(w: u32) -> u8
    ensures { result ≡ w % 256 }
{
    (w % 256) as u8
}
