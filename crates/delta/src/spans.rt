// Blocks of the old file.
ghost use Rattle.std.specs.Prelude.{◌≡◌, ◌<◌};
ghost use Rattle.delta.specs.Walk.{span_of};

use crate::Span;

// A block and the `more` ones after it, in a file of `len` bytes: each of them must start before its end.
#[tactic(auto, using(crate::proofs::RangeLaws::reaching), unfolding(crate::specs::Walk::span_of))]
pub(crate) fn reach(size: usize, len: usize, first: usize, more: usize) -> Option<Span>
    requires { 0 < size }
    ensures { result ≡ span_of size len first more }
{
    let last = first.checked_add(more)?.checked_mul(size)?;
    if last >= len {
        return None;
    }
    let start = first * size;
    let all = more.saturating_add(1).saturating_mul(size);
    Some(Span {
        start,
        len: all.min(len - start),
    })
}
