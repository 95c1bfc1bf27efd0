// What stands next in a recording, a command text being read.
ghost use Rattle.std.specs.Prelude.{◌≡◌, ◌+◌, ◌≤◌, length};
ghost use Rattle.command.specs.Meaning.{meaning_of};
ghost use Rattle.command.specs.Read.{scratch_room};
ghost use Rattle.recordings.specs.Walk.{next_escape, escape_at, meant, fault_number, seen};
ghost use Rattle.recordings.specs.Texts.{text_between};

use crate::texts::{TextSight, next_text};
use command::Refusal;

// What is wrong with a command that is not kept: its text is abandoned, or refused by the reader.
#[derive(Clone, Copy)]
pub enum Fault {
    Abandoned,
    Refused(Refusal),
}

impl Fault {
    // The number that the list has of it.
    pub(crate) fn number(self) -> u8
        ensures { result ≡ fault_number self }
    {
        match self {
            Fault::Abandoned => 2,
            Fault::Refused(refusal) => refusal.number(),
        }
    }
}

// Bytes outside a command up to a place; or, from a place up to another, a frame to keep, or a command
// with a fault.
#[derive(Clone, Copy)]
pub enum Sight {
    Outside(usize),
    Kept(usize, usize),
    Faulty(usize, usize, Fault),
}

// What stands next from a place on, which is outside texts.
pub(crate) fn next(recording: &[u8], at: usize, scratch: &mut [u8]) -> Sight
    requires { (at ≤ length recording.now) × (scratch_room ≤ length scratch.old) }
    ensures { seen result ≡ escape_at recording.now (next_escape recording.now at) }
{
    match next_text(recording, at) {
        TextSight::Outside(to) => Sight::Outside(to),
        TextSight::Text(start, end) => judged(recording, start, end, scratch),
        TextSight::Abandoned(start, end) => Sight::Faulty(start, end, Fault::Abandoned),
    }
}

// A command frame from a place up to another: kept if its text reads without refusal.
fn judged(recording: &[u8], start: usize, end: usize, scratch: &mut [u8]) -> Sight
    requires { (start + 4 ≤ end) × (end ≤ length recording.now) × (scratch_room ≤ length scratch.old) }
    ensures { seen result ≡ meant (meaning_of (text_between recording.now start end)) start end }
{
    let text = &recording[start + 2..end - 2];
    match command_reader::read(text, scratch) {
        Ok(_) => Sight::Kept(start, end),
        Err(refusal) => Sight::Faulty(start, end, Fault::Refused(refusal)),
    }
}
