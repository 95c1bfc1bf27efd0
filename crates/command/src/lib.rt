// The command of a text, as values: what reading a command text gives, and what writing one takes.
//
// Here stand the types, the definitions of reading and writing (specs/) and the theorems about them
// (proofs/), and what reading and writing share: the table of keys (`keys`), the test of bytes (`letters`)
// and the words of a list (`words`). The functions that read and write are in `command_reader` and
// `command_writer`.
#![tactic(auto)]

mod codes;
pub mod keys;
pub mod letters;
mod refusals;
pub mod words;

ghost use Rattle.std.specs.Prelude.{◌||◌, ◌≡◌, eqb};
ghost use Rattle.command.specs.Refusals.{refusal_number};
ghost use Rattle.command.specs.Slots as Slots;

use decimal::Number;

// "action": none is the case of a command without one, which only a writer can meet.
#[derive(Clone, Copy, PartialEq, Eq, Debug)]
pub enum Action {
    None,
    Send,
    Receive,
    File,
    Data,
    EndData,
    Finish,
    Cancel,
    Status,
}

// "file type"
#[derive(Clone, Copy, PartialEq, Eq, Debug)]
pub enum FileType {
    Regular,
    Directory,
    Symlink,
    Link,
}

// "transmission"
#[derive(Clone, Copy, PartialEq, Eq, Debug)]
pub enum Transmission {
    Simple,
    Rsync,
}

// Where bytes stand in a buffer.
#[derive(Clone, Copy, PartialEq, Eq, Debug)]
pub struct Place {
    pub start: usize,
    pub len: usize,
}

// What an integer that is absent means.
pub const ZERO: Number = Number {
    negative: false,
    magnitude: 0,
};

// A command. id, file_id, bypass and parent stand in the text; name, status and data, decoded,
// in the scratch. Compression has one word only, so that it holds nothing.
#[derive(Clone, Copy)]
pub struct Command {
    pub action: Action,
    pub file_type: FileType,
    pub transmission: Transmission,
    pub id: Place,
    pub file_id: Place,
    pub bypass: Place,
    pub quiet: u64,
    pub modified: Number,
    pub permissions: Number,
    pub size: Number,
    pub name: Place,
    pub status: Place,
    pub parent: Place,
    pub payload: Place,
}

impl Command {
    // Whether one of an action and an id, which a command must have, is lacking.
    pub fn lacks(&self) -> bool
        ensures { result ≡ (eqb (Slots.action_code self.now.action) 0 || eqb self.now.id.len 0) }
    {
        self.action == Action::None || self.id.len == 0
    }

    // How many bytes a scratch has at least: three for each four of the longest text.
    pub const SCRATCH_ROOM: usize = 6144;

    // Every field at what absent means.
    pub const NONE: Command = Command {
        action: Action::None,
        file_type: FileType::Regular,
        transmission: Transmission::Simple,
        id: Place::NOWHERE,
        file_id: Place::NOWHERE,
        bypass: Place::NOWHERE,
        quiet: 0,
        modified: ZERO,
        permissions: ZERO,
        size: ZERO,
        name: Place::NOWHERE,
        status: Place::NOWHERE,
        parent: Place::NOWHERE,
        payload: Place::NOWHERE,
    };
}

impl Place {
    // No bytes.
    pub const NOWHERE: Place = Place { start: 0, len: 0 };
}

// Why a text is not read, or a command not written, each with its number in the tables of documents 01
// and 02.
#[derive(Clone, Copy, PartialEq, Eq, Debug)]
pub enum Refusal {
    TextTooLong = 1,
    BadByte = 3,
    BadField = 4,
    Repeated = 5,
    UnknownWord = 61,
    UnsafeCharacter = 62,
    MalformedInteger = 63,
    OutOfRange = 64,
    Base64Length = 65,
    Base64Character = 66,
    UnusedBits = 67,
    Missing = 7,
    TooLong = 8,
    ShortBuffer = 9,
}

impl Refusal {
    // Its number.
    pub fn number(self) -> u8
        ensures { result ≡ refusal_number self }
    {
        self as u8
    }
}

// One field of a command, whichever its key: a word's code or an integer, and a string's place. What a
// key's kind does not use is zero; no enum says which it is, since the kind does.
#[derive(Clone, Copy)]
pub struct Slot {
    pub number: Number,
    pub place: Place,
}

impl Slot {
    // What a key that has not stood means, whichever its kind.
    pub const EMPTY: Slot = Slot {
        number: ZERO,
        place: Place::NOWHERE,
    };

    // That of an integer.
    pub fn numbered(number: Number) -> Slot
        ensures { result ≡ Slots.numbered number }
    {
        Slot {
            number,
            ..Slot::EMPTY
        }
    }

    // That of a word's code.
    pub fn coded(code: u64) -> Slot
        ensures { result ≡ Slots.coded code }
    {
        Slot::numbered(Number {
            negative: false,
            magnitude: code,
        })
    }

    // That of a string.
    pub fn placed(place: Place) -> Slot
        ensures { result ≡ Slots.placed place }
    {
        Slot {
            place,
            ..Slot::EMPTY
        }
    }
}
