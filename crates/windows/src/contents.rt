// "Contents are the parts handed over from that start to the pair's next start", joined.
ghost use Rattle.std.specs.Prelude.{◌≡◌, ◌+◌, ◌*◌, ◌≤◌, length, take, drop};
ghost use Rattle.windows.specs.Compare.{contents_of};
ghost use Rattle.hearing.specs.Rows.{happenings_in, Apart};
ghost use Rattle.windows.specs.Steps.{heard, Laid, key_of, start_at};

use crate::side::{Pair, Side};

// The contents of the start at a row, stored from the start of `into`, and how many bytes they have.
// They fit: the parts lie one after another in the bytes, so that what was joined before a part is no
// more than what lies before it.
pub(crate) fn gather(side: Side, row: usize, into: &mut [u8]) -> usize
    requires { (row * 7 + 7 ≤ length side.events.now) × Laid (heard side) (length into.old) }
    ensures { (result ≤ length into.new) × (length into.new ≡ length into.old)
        × (take result into.new ≡ (start_at (heard side.entry) (row * 7)).contents) }
{
    gather_from(side, row + 1, side.pair_at(row), into)
}

// What is handed over for a pair from a row on, up to its next start.
fn gather_from(side: Side, from: usize, pair: Pair, into: &mut [u8]) -> usize
    requires { (from * 7 ≤ length side.events.now) × Apart 0 (length side.bytes.now) (drop (from * 7) side.events.now)
        × (length side.bytes.now ≤ length into.old) }
    ensures { (result ≤ length into.new) × (length into.new ≡ length into.old)
        × (take result into.new ≡ contents_of (key_of pair.entry)
        (happenings_in side.entry.recording.now side.entry.bytes.now (drop (from * 7) side.entry.events.now))) }
{
    let mut n = 0;
    for row in from..side.rows() {
        if !side.of_pair(row, pair) {
            continue;
        }
        if side.row(row).is_start() {
            return n;
        }
        let part = side.part_at(row);
        octets::copy_at(part, into, n);
        n += part.len();
    }
    n
}
