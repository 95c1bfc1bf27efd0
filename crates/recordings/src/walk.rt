// The walk over a recording. It counts what is kept and what is dropped, and stores it where the lent
// buffers have room: one walk with no room measures, and a second one stores.
ghost use Rattle.std.specs.Prelude.{◌≡◌, ◌+◌, ◌≤◌, length};
ghost use Rattle.octets.specs.Outcome.{outcome};
ghost use Rattle.recordings.specs.Mend.{recording_limit};
ghost use Rattle.recordings.specs.Walk as Walk;

use crate::sights::{Fault, Sight};
use crate::{Mended, sights};
use command::Command;

// How far a walk has come: the place, outside texts, where it goes on; where the bytes outside a
// command begin that it passed since the last piece; how many bytes were kept; and how many stretches
// were dropped.
#[derive(Clone, Copy)]
pub struct Tally {
    pub at: usize,
    pub mark: usize,
    pub kept: usize,
    pub rows: usize,
}

// The whole walk.
pub(crate) fn over(recording: &[u8], output: &mut [u8], list: &mut [usize]) -> Tally
    requires { length recording.now ≤ recording_limit }
    ensures { Walk.Walked recording.now output.old list.old
        (Walk.walk result output.new list.new) }
{
    let mut scratch = [0u8; Command::SCRATCH_ROOM];
    let mut tally = Tally::START;
    while tally.at < recording.len() {
        let sight = sights::next(recording, tally.at, &mut scratch);
        tally = tally.turn(sight, recording, output, list);
    }
    tally.outside(recording.len(), list)
}

impl Tally {
    // No derived Default: an answer cannot cite what that ensures.
    pub const START: Tally = Tally {
        at: 0,
        mark: 0,
        kept: 0,
        rows: 0,
    };

    // Past what stands next.
    #[tactic(auto, unfolding(crate::specs::Walk::turn_of))]
    fn turn(self, sight: Sight, recording: &[u8], output: &mut [u8], list: &mut [usize]) -> Tally
        requires { (self.kept ≤ recording_limit) × (self.rows ≤ recording_limit) × (length recording.now ≤ recording_limit) }
        ensures { Walk.walk result output.new list.new
            ≡ Walk.turn_of (Walk.seen sight) self recording.now output.old list.old }
    {
        match sight {
            Sight::Outside(to) => Tally { at: to, ..self },
            Sight::Kept(start, end) => self.outside(start, list).kept(end, recording, output),
            Sight::Faulty(start, end, fault) => self.outside(start, list).faulty(end, fault, list),
        }
    }

    // A stretch outside a command, from the mark up to a place; no row where it is empty.
    #[tactic(auto, unfolding(crate::specs::Walk::outside_to))]
    fn outside(self, to: usize, list: &mut [usize]) -> Tally
        requires { self.rows ≤ recording_limit }
        ensures { outcome result list.new ≡ Walk.outside_to self to list.old }
    {
        if self.mark >= to {
            return self.moved(to);
        }
        put_row(list, self.rows, self.mark, to - self.mark, None);
        Tally {
            rows: self.rows + 1,
            ..self.moved(to)
        }
    }

    // A command with a fault, from the mark up to a place.
    #[tactic(auto, unfolding(crate::specs::Walk::refused_to))]
    fn faulty(self, to: usize, fault: Fault, list: &mut [usize]) -> Tally
        requires { self.rows ≤ recording_limit + 1 }
        ensures { outcome result list.new ≡ Walk.refused_to self to (Walk.fault_number fault) list.old }
    {
        let len = to.saturating_sub(self.mark);
        put_row(list, self.rows, self.mark, len, Some(fault));
        Tally {
            rows: self.rows + 1,
            ..self.moved(to)
        }
    }

    // A frame that is kept, from the mark up to a place.
    #[tactic(auto, unfolding(crate::specs::Walk::kept_to))]
    fn kept(self, to: usize, recording: &[u8], output: &mut [u8]) -> Tally
        requires { (self.kept ≤ recording_limit) × (length recording.now ≤ recording_limit) }
        ensures { outcome result output.new ≡ Walk.kept_to self to recording.now output.old }
    {
        let frame = octets::part(recording, self.mark, to.saturating_sub(self.mark));
        octets::copy_at(frame, output, self.kept);
        Tally {
            kept: self.kept + frame.len(),
            ..self.moved(to)
        }
    }

    fn moved(self, to: usize) -> Tally
        ensures { result ≡ Walk.tallied to self.kept self.rows }
    {
        Tally {
            at: to,
            mark: to,
            ..self
        }
    }
}

// A row of the list, where it fits.
#[tactic(auto, unfolding(crate::specs::Walk::with_row))]
fn put_row(list: &mut [usize], row: usize, start: usize, len: usize, fault: Option<Fault>)
    requires { row ≤ recording_limit + 1 }
    ensures { list.new ≡ Walk.with_row list.old row start len (Walk.why_number fault) }
{
    let at = row * Mended::ROW;
    if octets::fits(at, Mended::ROW, list.len()) {
        list[at..at + Mended::ROW].copy_from_slice(&[start, len, why(fault)]);
    }
}

// The number of a stretch that is dropped: 0 outside a command. A caller of `mend` lends numbers, and `mend_of`
// speaks of them.
fn why(fault: Option<Fault>) -> usize
    ensures { result ≡ Walk.why_number fault }
{
    match fault {
        None => 0,
        Some(fault) => usize::from(fault.number()),
    }
}
