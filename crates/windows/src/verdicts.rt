// What is found of a start: whether both have it, and where their contents differ.
ghost use Rattle.std.specs.Prelude.{◌≡◌, ◌+◌, ◌*◌, ◌≤◌, ◌==◌, not, length, position, zip};
ghost use Rattle.windows.specs.Compare.{first_diff, against};
ghost use Rattle.windows.specs.Steps.{heard, Laid, start_at, partner_of, judged};

use crate::side::Side;
use crate::{Judgement, contents, matching};

// Compares contents: the first offset at which they differ is the shorter length where one is the start
// of the other.
fn first_difference(a: &[u8], b: &[u8]) -> Judgement
    ensures { result ≡ judged (first_diff a.now b.now) }
{
    match first_unlike(a, b) {
        Some(offset) => Judgement::Different(offset),
        None if a.len() == b.len() => Judgement::Same,
        None => Judgement::Different(a.len().min(b.len())),
    }
}

// The first offset at which both have a byte, and not the same.
fn first_unlike(a: &[u8], b: &[u8]) -> Option<usize>
    ensures { result ≡ position (λ bytes. not (bytes.0 == bytes.1)) (zip a.now b.now) }
{
    a.iter().zip(b).position(|(x, y)| x != y)
}

// The contents of two starts compared, each gathered first.
fn compared(
    first: Side,
    row: usize,
    second: Side,
    partner: usize,
    a: &mut [u8],
    b: &mut [u8],
) -> Judgement
    requires { (row * 7 + 7 ≤ length first.events.now) × Laid (heard first) (length a.old)
        × (partner * 7 + 7 ≤ length second.events.now) × Laid (heard second) (length b.old) }
    ensures { result ≡ judged (first_diff (start_at (heard first.entry) (row * 7)).contents
        (start_at (heard second.entry) (partner * 7)).contents) }
{
    let n = contents::gather(first, row, a);
    let m = contents::gather(second, partner, b);
    first_difference(&a[..n], &b[..m])
}

// What is found of a start in the first.
pub(crate) fn judge(first: Side, row: usize, second: Side, a: &mut [u8], b: &mut [u8]) -> Judgement
    requires { (row * 7 + 7 ≤ length first.events.now)
        × Laid (heard first) (length a.old) × Laid (heard second) (length b.old) }
    ensures { result ≡ judged (against (start_at (heard first.entry) (row * 7))
        (partner_of (heard first.entry) (heard second.entry) (row * 7))) }
{
    match matching::partner(first, row, second) {
        None => Judgement::OnlyFirst,
        Some(partner) => compared(first, row, second, partner, a, b),
    }
}
