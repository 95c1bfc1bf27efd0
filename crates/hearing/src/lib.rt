// Hears one recording as the console of `replay` hears it: every session is allowed at once, every ask
// is answered done. What happens is noted in numbers, seven a row, and the parts in bytes, each where
// its command's text stands in the recording: a part is shorter than its text, so none touches another.
//
// Its commands are heard one after another (`turns`), what is told of each (`sighted`) is noted (`noting`),
// and a row is written and read (`row`).
#![tactic(auto)]

mod noting;
mod row;
mod sighted;
mod turns;

ghost use Rattle.std.specs.Prelude.{◌≡◌, length};
ghost use Rattle.hearing.specs.Calls.{read_back, hear_of, Within, Unwritten};

use recordings::{Mended, Refusal};
pub use row::{Kind, Row};

// What is heard in a recording: how many numbers its rows take. The rows, read with the recording and the
// bytes, say which files start and which parts are handed over. So many numbers and bytes as a recording
// has at most are room for any; with fewer nothing is heard.
#[tactic(auto, unfolding(crate::specs::Calls::hear_of))]
pub fn hear(recording: &[u8], events: &mut [usize], bytes: &mut [u8]) -> Result<usize, Refusal>
    ensures bytes_after { read_back result recording.now events.new bytes.new
        ≡ hear_of recording.now (length events.new) (length bytes.new) }
    ensures within { Within result events.new bytes.new
        × Unwritten result events.old bytes.old events.new bytes.new }
{
    if recording.len() > Mended::LIMIT {
        return Err(Refusal::TooLong);
    }
    if events.len() < Mended::LIMIT || bytes.len() < Mended::LIMIT {
        return Err(Refusal::NoRoom);
    }
    Ok(turns::all(recording, events, bytes))
}
