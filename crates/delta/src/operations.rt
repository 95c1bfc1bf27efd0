// A delta's operations: a type byte, and operands by the type.
ghost use Rattle.std.specs.Prelude.{◌≡◌, ◌+◌, ◌≤◌, ◌<◌, length, drop, get_or, IfOk};
ghost use Rattle.delta.specs.Read as Read;

use crate::fields::field;
use crate::{Measured, Operation, Refusal, Span, Step};

// The operation at a place; the end at or past the delta's end.
#[tactic(auto, unfolding(crate::specs::Read::step_of))]
pub fn operation_at(delta: &[u8], at: usize) -> Result<Step, Refusal>
    ensures { result ≡ Read.step_of delta.now at }
{
    if delta.len() > Measured::LIMIT {
        return Err(Refusal::TooLong);
    }
    if at >= delta.len() {
        return Ok(Step {
            operation: Operation::End,
            next: at,
        });
    }
    next(delta, at)
}

// The operation whose type byte stands at a place.
#[tactic(auto, unfolding(crate::specs::Read::operation_of, crate::specs::Read::placed))]
pub(crate) fn next(delta: &[u8], at: usize) -> Result<Step, Refusal>
    requires { (at < length delta.now) × (length delta.now ≤ Read.limit) }
    ensures { result ≡ Read.placed at (Read.operation_of (get_or delta.now at 0) (drop (at + 1) delta.now)) }
{
    match delta[at] {
        0 => block(delta, at),
        1 => {
            let payload = sized(delta, at, 4)?;
            Ok(Step {
                operation: Operation::Data(payload),
                next: payload.start + payload.len,
            })
        }
        2 => {
            let payload = sized(delta, at, 2)?;
            Ok(Step {
                operation: Operation::Hash(payload),
                next: payload.start + payload.len,
            })
        }
        3 => blocks(delta, at),
        _ => Err(Refusal::Damaged),
    }
}

// A block and a range differ in a number and in what is made of them, not in a type or a size, so one
// function of both would be no plainer.
#[tactic(auto, unfolding(crate::specs::Read::block_in, crate::specs::Read::placed))]
fn block(delta: &[u8], at: usize) -> Result<Step, Refusal>
    requires { (at < length delta.now) × (length delta.now ≤ Read.limit) }
    ensures { result ≡ Read.placed at (Read.block_in (drop (at + 1) delta.now)) }
{
    let next = past(delta, at, 8)?;
    let index = field(delta, at + 1, 8);
    Ok(Step {
        operation: Operation::Block(index),
        next,
    })
}

#[tactic(auto, using(crate::proofs::OperationLaws::range_more), unfolding(crate::specs::Read::blocks_in, crate::specs::Read::placed))]
fn blocks(delta: &[u8], at: usize) -> Result<Step, Refusal>
    requires { (at < length delta.now) × (length delta.now ≤ Read.limit) }
    ensures { result ≡ Read.placed at (Read.blocks_in (drop (at + 1) delta.now)) }
{
    let next = past(delta, at, 12)?;
    let index = field(delta, at + 1, 8);
    let more = field(delta, at + 9, 4) as u32;
    Ok(Step {
        operation: Operation::Blocks(index, more),
        next,
    })
}

// A payload whose size is a number of some bytes.
#[tactic(auto, unfolding(crate::specs::Read::payload_at))]
fn sized(delta: &[u8], at: usize, width: usize) -> Result<Span, Refusal>
    requires { (width ≤ 8) × (at < length delta.now) × (length delta.now ≤ Read.limit) }
    ensures value { result ≡ Read.payload_at at width (drop (at + 1) delta.now) }
    ensures inside { IfOk result (λ p. p.start + p.len ≤ length delta.now) }
{
    let start = past(delta, at, width)?;
    let len = field(delta, at + 1, width) as usize;
    if !octets::fits(start, len, delta.len()) {
        return Err(Refusal::Damaged);
    }
    Ok(Span { start, len })
}

// The place after n bytes of operands.
fn past(delta: &[u8], at: usize, n: usize) -> Result<usize, Refusal>
    requires { (n < 13) × (at < length delta.now) × (length delta.now ≤ Read.limit) }
    ensures { result ≡ Read.past_of at n (drop (at + 1) delta.now) }
{
    let end = at + 1 + n;
    if end > delta.len() {
        return Err(Refusal::Damaged);
    }
    Ok(end)
}
