// Compares two recordings of one window: for each start of a session id and a file id in either, whether
// it is only in the first, only in the second, the same, or different.
//
// Each recording is heard as the console of `replay` hears it (the crate `hearing`), which leaves rows of
// what happened (`side`); these are matched (`matching`), their contents gathered (`contents`) and
// compared (`verdicts`), and the lines listed (`lines`, `line`).
#![tactic(auto)]

mod contents;
mod line;
mod lines;
mod matching;
mod side;
mod verdicts;

ghost use Rattle.std.specs.Prelude.{◌≡◌};
ghost use Rattle.octets.specs.Outcome.{outcome};
ghost use Rattle.recordings.specs.Mend.{recording_limit};
ghost use Rattle.hearing.specs.Hearing.{heard_in};
ghost use Rattle.windows.specs.Compare.{starts_of, first_diff, compared, compare_of};
ghost use Rattle.windows.specs.Laws.{CompareLaws};
ghost use Rattle.windows.specs.Examples.{CompareExamples};
ghost use Rattle.windows.specs.WrongComparers.{CompareTeeth};
ghost use Rattle.windows.specs.WrongHearers.{HearerTeeth};
ghost use Rattle.windows.specs.Steps.{heard, Laid, lines_between, beside_of, listed_in};

pub use line::{Judgement, Line};
use recordings::Mended;
pub use recordings::Refusal;
use side::Side;

// Compares two recordings, and lists each start once: the first's in order, then those only the second
// has, in order. The answer is how many lines the list has. The ids of a line stand in the second
// recording where only the second has it, and else in the first. Nothing is written where something is
// refused.
pub fn compare(first: &[u8], second: &[u8], list: &mut [usize]) -> Result<usize, Refusal>
    ensures list_after { outcome result list.new ≡ compare_of first.now second.now list.old }
    ensures compare_laws { CompareLaws compared first_diff heard_in starts_of × CompareTeeth × HearerTeeth × CompareExamples }
{
    let mut events = [0usize; Mended::LIMIT];
    let mut bytes = [0u8; Mended::LIMIT];
    let n = hearing::hear(first, &mut events, &mut bytes)?;
    let first = Side {
        recording: first,
        bytes: &bytes,
        events: &events[..n],
    };
    beside(first, second, list)
}

// The same once the first was heard: the second is heard too.
fn beside(first: Side, second: &[u8], list: &mut [usize]) -> Result<usize, Refusal>
    requires { Laid (heard first) recording_limit }
    ensures { outcome result list.new ≡ beside_of (heard first.entry) second.now list.old }
{
    let mut events = [0usize; Mended::LIMIT];
    let mut bytes = [0u8; Mended::LIMIT];
    let n = hearing::hear(second, &mut events, &mut bytes)?;
    let second = Side {
        recording: second,
        bytes: &bytes,
        events: &events[..n],
    };
    fitted(first, second, list)
}

// Lists the lines, where there is room for all of them.
fn fitted(first: Side, second: Side, list: &mut [usize]) -> Result<usize, Refusal>
    requires { Laid (heard first) recording_limit × Laid (heard second) recording_limit }
    ensures { outcome result list.new
        ≡ listed_in (lines_between (heard first.entry) (heard second.entry)) list.old }
{
    let mut a = [0u8; Mended::LIMIT];
    let mut b = [0u8; Mended::LIMIT];
    let needed = lines::list(first, second, &mut a, &mut b, &mut []);
    if needed * Line::LEN > list.len() {
        return Err(Refusal::NoRoom);
    }
    Ok(lines::list(first, second, &mut a, &mut b, list))
}
