// A recording as it was heard, and what is read of the row that has so many before it.
ghost use Rattle.std.specs.Prelude.{◌≡◌, ◌+◌, ◌*◌, ◌/◌, ◌≤◌, length, get_or};
ghost use Rattle.octets.specs.Slices.{equals, part_of};
ghost use Rattle.hearing.specs.Rows.{row_at};
ghost use Rattle.windows.specs.Compare.{same_key};
ghost use Rattle.windows.specs.Steps.{heard, heard_before, key_of, key_at, starts_at};

use command::Place;
use hearing::Row;

// The recording, the bytes where its parts stand, and the numbers of its rows.
#[derive(Clone, Copy)]
pub struct Side<'a> {
    pub recording: &'a [u8],
    pub bytes: &'a [u8],
    pub events: &'a [usize],
}

// A session's id and a file's id.
#[derive(Clone, Copy)]
pub struct Pair<'a> {
    pub id: &'a [u8],
    pub file: &'a [u8],
}

impl<'a> Side<'a> {
    // How many rows there are.
    pub(crate) fn rows(self) -> usize
        ensures { result ≡ length self.entry.events.now / 7 }
    {
        self.events.len() / Row::LEN
    }

    // What was heard before a row.
    pub(crate) fn before(self, row: usize) -> Side<'a>
        requires { row * 7 ≤ length self.events.now }
        ensures { heard result ≡ heard_before (heard self.entry) (row * 7) }
    {
        Side {
            events: &self.events[..row * Row::LEN],
            ..self
        }
    }

    pub(crate) fn row(self, row: usize) -> Row
        requires { row * 7 + 7 ≤ length self.events.now }
        ensures { result ≡ row_at self.entry.events.now (row * 7) }
    {
        let at = row * Row::LEN;
        let events = self.events;
        Row::read(&[
            events[at],
            events[at + 1],
            events[at + 2],
            events[at + 3],
            events[at + 4],
            events[at + 5],
            events[at + 6],
        ])
    }

    // What stands at a place of the recording.
    fn named(self, place: Place) -> &'a [u8]
        ensures { result.now ≡ part_of self.entry.recording.now place.start place.len }
    {
        octets::part(self.recording, place.start, place.len)
    }

    pub(crate) fn pair_at(self, row: usize) -> Pair<'a>
        requires { row * 7 + 7 ≤ length self.events.now }
        ensures { key_of result ≡ key_at self.entry.recording.now self.entry.events.now (row * 7) }
    {
        let row = self.row(row);
        Pair {
            id: self.named(row.id),
            file: self.named(row.file_id),
        }
    }

    // The part that is handed over.
    pub(crate) fn part_at(self, row: usize) -> &'a [u8]
        requires { row * 7 + 7 ≤ length self.events.now }
        ensures { result.now ≡ part_of self.entry.bytes.now (get_or self.entry.events.now (row * 7 + 5) 0)
            (get_or self.entry.events.now (row * 7 + 6) 0) }
    {
        let part = self.row(row).part;
        octets::part(self.bytes, part.start, part.len)
    }

    // Whether a row is of a pair. Inside the loops that ask it of all rows nothing is copied for it.
    #[inline(always)]
    pub(crate) fn of_pair(self, row: usize, pair: Pair) -> bool
        requires { row * 7 + 7 ≤ length self.events.now }
        ensures { result ≡ same_key (key_of pair.entry)
            (key_at self.entry.recording.now self.entry.events.now (row * 7)) }
    {
        let row = self.row(row);
        same(pair.id, self.named(row.id)) && same(pair.file, self.named(row.file_id))
    }

    // Whether it is a start of a pair.
    #[inline(always)]
    pub(crate) fn starts_pair(self, row: usize, pair: Pair) -> bool
        requires { row * 7 + 7 ≤ length self.events.now }
        ensures { result ≡ starts_at self.entry.recording.now self.entry.events.now (row * 7) (key_of pair.entry) }
    {
        self.row(row).is_start() && self.of_pair(row, pair)
    }
}

// As `octets::equal`, but the library's test alone and inlined: it is asked of every row for every start, and
// by a call 195 ms were taken where no id is the one looked for, 179 so.
#[inline(always)]
fn same(a: &[u8], b: &[u8]) -> bool
    ensures { result ≡ equals a.now b.now }
{
    a == b
}
