// A row of what was heard, as seven numbers and read from them: a caller of `hear` lends numbers, and
// `read_back` in its contract reads them there, the kind and the places.
ghost use Rattle.std.specs.Prelude.{◌≡◌, ◌+◌, ◌*◌, ◌≤◌, length};
ghost use Rattle.std.proofs.lemmas.List.Edits.{sets};
ghost use Rattle.hearing.specs.Rows.{is_start, kind_of, row_at, row_numbers};

use command::Place;

#[derive(Clone, Copy, Debug, PartialEq, Eq)]
pub enum Kind {
    Part = 0,
    Start = 1,
}

// A part or a start; where the session's id and the file's id stand in the recording; and where its part
// stands in the bytes.
#[derive(Clone, Copy, Debug, PartialEq, Eq)]
pub struct Row {
    pub kind: Kind,
    pub id: Place,
    pub file_id: Place,
    pub part: Place,
}

impl Row {
    // How many numbers a row has.
    pub const LEN: usize = 7;

    pub fn read(numbers: &[usize; Row::LEN]) -> Row
        ensures { result ≡ row_at numbers.now 0 }
    {
        let [kind, id, id_len, file, file_len, part, part_len] = *numbers;
        Row {
            kind: kind_of(kind),
            id: Place {
                start: id,
                len: id_len,
            },
            file_id: Place {
                start: file,
                len: file_len,
            },
            part: Place {
                start: part,
                len: part_len,
            },
        }
    }

    pub fn is_start(self) -> bool
        ensures { result ≡ is_start self.kind }
    {
        matches!(self.kind, Kind::Start)
    }

    // Stores it, with so many before it.
    pub(crate) fn write(self, events: &mut [usize], row: usize)
        requires { row * 7 + 7 ≤ length events.old }
        ensures { events.new ≡ sets events.old (row * 7) (row_numbers self) }
    {
        let at = row * Row::LEN;
        events[at] = self.kind as usize;
        events[at + 1] = self.id.start;
        events[at + 2] = self.id.len;
        events[at + 3] = self.file_id.start;
        events[at + 4] = self.file_id.len;
        events[at + 5] = self.part.start;
        events[at + 6] = self.part.len;
    }
}

fn kind_of(number: usize) -> Kind
    ensures { result ≡ kind_of number }
{
    if number == Kind::Part as usize {
        Kind::Part
    } else {
        Kind::Start
    }
}
