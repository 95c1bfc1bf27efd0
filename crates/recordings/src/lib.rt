// Mends a noisy recording: copies every command frame that reads without refusal, unchanged and in
// order, drops the rest, and lists each stretch that was dropped, with its start, its length and why.
//
// Where its command texts stand is found by `texts`, which any reader of a recording may call.
//
// Not here: sessions. A command that every session would ignore is kept.
#![tactic(auto)]

mod sights;
pub mod texts;
mod walk;

ghost use Rattle.std.specs.Prelude.{◌≡◌};
ghost use Rattle.recordings.specs.Refusals.{refusal_number};
ghost use Rattle.recordings.specs.Pieces.{pieces_of};
ghost use Rattle.recordings.specs.Laws.{MendLaws};
ghost use Rattle.recordings.specs.Mend.{mending, mend_of};
ghost use Rattle.recordings.specs.WrongMenders.{MendTeeth};
ghost use Rattle.recordings.specs.Examples.{MendExamples};

// How many bytes were kept, and how many stretches dropped.
#[derive(Clone, Copy, Debug, PartialEq, Eq)]
pub struct Mended {
    pub kept: usize,
    pub rows: usize,
}

impl Mended {
    // How many bytes a recording has at most.
    pub const LIMIT: usize = 65536;

    // How many numbers are room for the list of any recording.
    pub const LIST_ROOM: usize = 49152;

    // How many numbers a row of the list has.
    pub const ROW: usize = 3;
}

// Why nothing was done with a recording: it is over the limit, or there is no room for what it gives.
#[derive(Clone, Copy, Debug, PartialEq, Eq)]
pub enum Refusal {
    TooLong = 17,
    NoRoom = 9,
}

impl Refusal {
    pub fn number(self) -> u8
        ensures { result ≡ refusal_number self }
    {
        self as u8
    }
}

// Mends a recording into the output, and lists what was dropped: three numbers for each stretch, its
// start, its length, and 0 where it is outside a command, else the refusal's number. Nothing is written
// where something is refused.
pub fn mend(recording: &[u8], output: &mut [u8], list: &mut [usize]) -> Result<Mended, Refusal>
    ensures list_after { mending result output.new list.new
        ≡ mend_of recording.now output.old list.old }
    ensures mend_laws { MendLaws pieces_of × MendTeeth × MendExamples }
{
    if recording.len() > Mended::LIMIT {
        return Err(Refusal::TooLong);
    }
    let needed = walk::over(recording, &mut [], &mut []);
    if needed.kept > output.len() || needed.rows * Mended::ROW > list.len() {
        return Err(Refusal::NoRoom);
    }
    let done = walk::over(recording, output, list);
    Ok(Mended {
        kept: done.kept,
        rows: done.rows,
    })
}
