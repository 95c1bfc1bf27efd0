// Encoding, a group of three bytes at a time.
ghost use Rattle.std.specs.Prelude.{◌≡◌, ◌+◌, ◌≤◌, ◌<◌, [], ◌∷◌, length};
ghost use Rattle.std.proofs.lemmas.List.Edits.{sets};
ghost use Rattle.base64_codec.specs.Encode.{text_of};
ghost use Rattle.base64_codec.specs.Encode as Encode;

use crate::alphabet::{PAD, letter};

// Stores the text of `data` in `out` from place `at` on.
pub(crate) fn fill(data: &[u8], out: &mut [u8], at: usize)
    requires { at + length (text_of «data».now) ≤ length out.old }
    ensures { out.new ≡ sets out.old at (text_of «data».now) }
{
    let (groups, left) = data.as_chunks::<3>();
    let mut o = at;
    for [a, b, c] in groups {
        put(out, o, char1(*a), char2(*a, *b), char3(*b, *c), char4(*c));
        o += 4;
    }
    tail(left, out, o);
}

// Stores the text of the last bytes, fewer than three, from place o on.
fn tail(left: &[u8], out: &mut [u8], o: usize)
    requires { (length left.now < 3) × (o + length (text_of left.now) ≤ length out.old) }
    ensures { out.new ≡ sets out.old o (text_of left.now) }
{
    match left {
        [] => {}
        [a] => put(out, o, char1(*a), char2(*a, 0), PAD, PAD),
        [a, b, ..] => put(out, o, char1(*a), char2(*a, *b), char3(*b, 0), PAD),
    }
}

// Stores four characters from place o on. One store for each, not a copy of an array: so the loop above
// is compiled for many groups at once.
fn put(out: &mut [u8], o: usize, c1: u8, c2: u8, c3: u8, c4: u8)
    requires { o + 4 ≤ length out.old }
    ensures { out.new ≡ sets out.old o (c1 ∷ c2 ∷ c3 ∷ c4 ∷ []) }
{
    out[o] = c1;
    out[o + 1] = c2;
    out[o + 2] = c3;
    out[o + 3] = c4;
}

fn char1(a: u8) -> u8
    ensures { result ≡ Encode.char1 a }
{
    letter(a / 4)
}

fn char2(a: u8, b: u8) -> u8
    ensures { result ≡ Encode.char2 a b }
{
    letter(a % 4 * 16 + b / 16)
}

fn char3(b: u8, c: u8) -> u8
    ensures { result ≡ Encode.char3 b c }
{
    letter(b % 16 * 4 + c / 64)
}

fn char4(c: u8) -> u8
    ensures { result ≡ Encode.char4 c }
{
    letter(c % 64)
}
