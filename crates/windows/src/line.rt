// A line of the list, as six numbers and read from them: a caller of `compare` lends numbers, and its contract
// speaks of them, of the judgement too.
ghost use Rattle.std.specs.Prelude.{◌≡◌, ◌+◌, ◌*◌, ◌≤◌, length};
ghost use Rattle.std.proofs.lemmas.List.Edits.{sets};
ghost use Rattle.windows.specs.Lines.{judgement_number, judgement_offset, judgement_of, line_numbers, line_in, WrittenReads};

use command::Place;
use recordings::Mended;

// What is found of a start: only the first recording has it, only the second has it, or both have it with
// the same contents, or with contents that differ at an offset first.
#[derive(Clone, Copy, Debug, PartialEq, Eq)]
pub enum Judgement {
    OnlyFirst,
    OnlySecond,
    Same,
    Different(usize),
}

impl Judgement {
    pub fn number(self) -> usize
        ensures { result ≡ judgement_number self }
    {
        match self {
            Judgement::OnlyFirst => 1,
            Judgement::OnlySecond => 2,
            Judgement::Same => 3,
            Judgement::Different(_) => 4,
        }
    }

    // The offset: 0 unless contents differ.
    pub fn offset(self) -> usize
        ensures { result ≡ judgement_offset self }
    {
        match self {
            Judgement::Different(offset) => offset,
            _ => 0,
        }
    }

    // What has this number, and this offset.
    fn of(number: usize, offset: usize) -> Judgement
        ensures { result ≡ judgement_of number offset }
    {
        match number {
            1 => Judgement::OnlyFirst,
            2 => Judgement::OnlySecond,
            3 => Judgement::Same,
            _ => Judgement::Different(offset),
        }
    }
}

// What was found, and where the session's id and the file's id stand.
#[derive(Clone, Copy, Debug, PartialEq, Eq)]
pub struct Line {
    pub found: Judgement,
    pub id: Place,
    pub file_id: Place,
}

impl Line {
    // How many numbers a line has.
    pub const LEN: usize = 6;

    // How many numbers are room for the list of any two recordings: 3,854 lines.
    pub const LIST_ROOM: usize = 23124;

    // How many bytes a recording has at most.
    pub const LIMIT: usize = Mended::LIMIT;

    pub fn read(numbers: &[usize; Line::LEN]) -> Line
        ensures line { result ≡ line_in numbers.now }
        ensures written_reads { WrittenReads }
    {
        let [number, offset, id, id_len, file, file_len] = *numbers;
        Line {
            found: Judgement::of(number, offset),
            id: Place {
                start: id,
                len: id_len,
            },
            file_id: Place {
                start: file,
                len: file_len,
            },
        }
    }

    // Stores it, with so many before it.
    pub(crate) fn write(self, list: &mut [usize], line: usize)
        requires { line * 6 + 6 ≤ length list.old }
        ensures { list.new ≡ sets list.old (line * 6) (line_numbers self) }
    {
        let at = line * Line::LEN;
        list[at] = self.found.number();
        list[at + 1] = self.found.offset();
        list[at + 2] = self.id.start;
        list[at + 3] = self.id.len;
        list[at + 4] = self.file_id.start;
        list[at + 5] = self.file_id.len;
    }
}
