// Writing digits: their number first, then each from the last to the first.
ghost use Rattle.std.specs.Prelude.{◌≡◌, ◌+◌, ◌≤◌, ◌<◌, length};
ghost use Rattle.std.proofs.lemmas.List.Edits.{sets};
ghost use Rattle.decimal.specs.Write.{width_of, fixed, text_of};

use crate::Number;

// How many digits a number takes without leading zeros.
pub(crate) fn width(n: u64) -> usize
    ensures { (result ≡ width_of n) × (result ≤ 20) }
{
    if n == 0 { 1 } else { n.ilog10() as usize + 1 }
}

// Stores the text of n from place `at` on.
pub(crate) fn fill(n: Number, out: &mut [u8], at: usize)
    requires { at + length (text_of n) ≤ length out.old }
    ensures { out.new ≡ sets out.old at (text_of n) }
{
    let w = width(n.magnitude);
    if n.negative {
        out[at] = b'-';
        digits(n.magnitude, w, out, at + 1);
    } else {
        digits(n.magnitude, w, out, at);
    }
}

// Stores the last w digits of n from place `at` on. A loop and no `fold` over the places: each turn both
// stores a digit and keeps the rest, so that a closure would be the same two lines.
fn digits(n: u64, w: usize, out: &mut [u8], at: usize)
    requires { at + w ≤ length out.old }
    ensures { out.new ≡ sets out.old at (fixed w n) }
{
    let mut rest = n;
    for k in (0..w).rev() {
        out[at + k] = digit(rest % 10);
        rest /= 10;
    }
}

fn digit(d: u64) -> u8
    requires { d < 10 }
    ensures { result ≡ d + 48 }
{
    d as u8 + b'0'
}
