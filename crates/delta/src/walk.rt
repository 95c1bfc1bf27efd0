// The walk over a delta's operations. It counts the new file's bytes, and stores them where the lent
// output has room: one walk with no room measures, and a second one stores.
ghost use Rattle.std.specs.Prelude.{◌<◌, ◌≤◌, length};
ghost use Rattle.delta.specs.Read.{limit};

use crate::{Measured, Operation, Refusal, Span, Step, operations, spans};

// How long a block is, an old file, and a delta of it.
#[derive(Clone, Copy)]
pub struct Patch<'a> {
    pub size: u32,
    pub old: &'a [u8],
    pub delta: &'a [u8],
    ghost some: { 0 < size },
    ghost short_old: { length old.now ≤ limit },
    ghost short_delta: { length delta.now ≤ limit },
}

// How far a walk has come: the place in the delta, how many bytes of the new file were made, and the hash.
#[derive(Clone, Copy)]
pub struct Tally {
    pub at: usize,
    pub total: usize,
    pub checksum: Option<Span>,
}

impl<'a> Patch<'a> {
    ghost use Rattle.std.specs.Prelude.{◌≡◌, ◌*◌};
    ghost use Rattle.octets.specs.Outcome.{outcome};
    ghost use Rattle.delta.specs.Calls as Calls;
    ghost use Rattle.delta.specs.Patch.{result_of};
    ghost use Rattle.delta.specs.Walk as Walk;

    // Measured by a walk with no room.
    #[tactic(auto, using(crate::proofs::CallLaws::answered), unfolding(crate::specs::Calls::patched_of, crate::specs::Walk::limited_to))]
    pub(crate) fn measured(&self) -> Result<Measured, Refusal>
        ensures { result ≡ Calls.measured_in (Calls.patched_of self.now.size self.now.old.now self.now.delta.now) }
    {
        let measured = self.walk(&mut [])?;
        if measured.length > Measured::LIMIT {
            return Err(Refusal::NoRoom);
        }
        Ok(measured)
    }

    // Measured first, so that nothing is written where something is refused.
    #[tactic(auto, using(crate::proofs::CallLaws::stored_made), unfolding(crate::specs::Calls::patched_of))]
    pub(crate) fn made(&self, out: &mut [u8]) -> Result<Measured, Refusal>
        ensures { outcome result out.new
            ≡ Calls.stored_in (Calls.patched_of self.now.size self.now.old.now self.now.delta.now) out.old }
    {
        if self.measured()?.length > out.len() {
            return Err(Refusal::NoRoom);
        }
        self.walk(out)
    }

    fn walk(&self, out: &mut [u8]) -> Result<Measured, Refusal>
        ensures { Walk.Makes (result_of self.now.size self.now.old.now self.now.delta.now) out.old result out.new }
    {
        let mut tally = Tally {
            at: 0,
            total: 0,
            checksum: None,
        };
        while tally.at < self.delta.len() {
            let step = operations::next(self.delta, tally.at)?;
            tally = self.turn(step, tally, out)?;
        }
        Ok(Measured {
            length: tally.total,
            checksum: tally.checksum,
        })
    }

    // Past an operation. What is made stays small because each operation takes a byte of the delta; once the
    // tally stands behind it, no ghost field over place and total could say so, so it is asked for.
    #[tactic(auto, using(crate::proofs::WalkLaws::turning), unfolding(crate::specs::Walk::turn_of, crate::specs::Walk::put_of))]
    fn turn(&self, step: Step, tally: Tally, out: &mut [u8]) -> Result<Tally, Refusal>
        requires { tally.total ≤ limit * limit }
        ensures { outcome result out.new
            ≡ Walk.turn_of step.operation step.next tally self.now.size self.now.old.now self.now.delta.now out.old }
    {
        let tally = Tally {
            at: step.next,
            ..tally
        };
        match step.operation {
            Operation::End => Err(Refusal::Damaged),
            Operation::Block(i) => self.copied(i as usize, 0, tally, out),
            Operation::Blocks(i, more) => self.copied(i as usize, more as usize, tally, out),
            Operation::Data(span) => {
                Ok(tally.put(octets::part(self.delta, span.start, span.len), out))
            }
            Operation::Hash(span) => tally.hashed(span),
        }
    }

    // Blocks of the old file.
    #[tactic(auto, using(crate::proofs::FieldLaws::part_small), unfolding(crate::specs::Walk::copied_of))]
    fn copied(
        &self,
        first: usize,
        more: usize,
        tally: Tally,
        out: &mut [u8],
    ) -> Result<Tally, Refusal>
        requires { tally.total ≤ limit * limit }
        ensures { outcome result out.new
            ≡ Walk.copied_of (Walk.span_of self.now.size (length self.now.old.now) first more) tally.at tally self.now.old.now out.old }
    {
        let span = spans::reach(self.size as usize, self.old.len(), first, more).ok_or(
            Refusal::Damaged,
        )?;
        Ok(tally.put(octets::part(self.old, span.start, span.len), out))
    }
}

impl Tally {
    ghost use Rattle.std.specs.Prelude.{◌≡◌, ◌*◌, Ok};
    ghost use Rattle.octets.specs.Outcome.{outcome};
    ghost use Rattle.delta.specs.Walk as Walk;

    // Bytes of the new file, stored where they fit.
    #[tactic(auto, unfolding(crate::specs::Walk::put_of))]
    fn put(self, piece: &[u8], out: &mut [u8]) -> Tally
        requires { (length piece.now ≤ limit) × (self.total ≤ limit * limit) }
        ensures { outcome (Ok result) out.new ≡ Walk.put_of piece.now self.at self out.old }
    {
        octets::copy_at(piece, out, self.total);
        Tally {
            total: self.total + piece.len(),
            ..self
        }
    }

    // The hash, of which there is at most one.
    fn hashed(self, span: Span) -> Result<Tally, Refusal>
        ensures { result ≡ Walk.hashed_of self.checksum self span self.at }
    {
        match self.checksum {
            None => Ok(Tally {
                checksum: Some(span),
                ..self
            }),
            Some(_) => Err(Refusal::Damaged),
        }
    }
}
