// The table of keys, in writing order: each row is a key's name and the kind of its values.
//
// It is the table of specs/Keys. The reader finds a key's number here, and both look up its row.
ghost use Rattle.std.specs.Prelude.{◌≡◌, length};
ghost use Rattle.std.specs.List.{position};
ghost use Rattle.std.specs.Str.{bytes_eq};
ghost use Rattle.command.specs.Keys as Keys;
ghost use Rattle.command.specs.Rows.{key_of};
ghost use Rattle.command.specs.declared.keys.Row.{Row};

use crate::Refusal;
use crate::words::{Alias, Words};

// The kinds of values; of a safe string, whether it is at most 32 bytes. A flag and no two kinds, as in
// specs/Keys: one test of a length hangs on it (`letters::over`), and both are else read and written alike.
#[derive(Clone, Copy)]
pub enum Kind {
    Integer,
    Base64,
    Word(Words),
    Safe(bool),
}

// A key's name, and its kind. The fields have no names, so that each row stands on one line of the table.
#[derive(Clone, Copy)]
pub struct Row(pub &'static [u8], pub Kind);

// How many keys there are.
pub const COUNT: usize = 15;

static ROWS: [Row; COUNT] = [
    Row(b"ac", Kind::Word(ACTIONS)),
    Row(b"zip", Kind::Word(COMPRESSIONS)),
    Row(b"ft", Kind::Word(FILE_TYPES)),
    Row(b"tt", Kind::Word(TRANSMISSIONS)),
    Row(b"id", Kind::Safe(true)),
    Row(b"fid", Kind::Safe(true)),
    Row(b"pw", Kind::Safe(false)),
    Row(b"q", Kind::Word(LEVELS)),
    Row(b"mod", Kind::Integer),
    Row(b"prm", Kind::Integer),
    Row(b"sz", Kind::Integer),
    Row(b"n", Kind::Base64),
    Row(b"st", Kind::Base64),
    Row(b"pr", Kind::Safe(true)),
    Row(b"d", Kind::Base64),
];

// That of no key: it has no name.
static NAMELESS: Row = Row(b"", Kind::Integer);

const ACTIONS: Words = Words {
    unknown: Refusal::UnknownWord,
    first: 1,
    texts: &[
        b"send",
        b"receive",
        b"file",
        b"data",
        b"end_data",
        b"finish",
        b"cancel",
        b"status",
    ],
    aliases: &[Alias {
        text: b"finished",
        code: 6,
    }],
};

const COMPRESSIONS: Words = Words {
    unknown: Refusal::UnknownWord,
    first: 0,
    texts: &[b"none"],
    aliases: &[],
};

const FILE_TYPES: Words = Words {
    unknown: Refusal::UnknownWord,
    first: 0,
    texts: &[b"regular", b"directory", b"symlink", b"link"],
    aliases: &[],
};

const TRANSMISSIONS: Words = Words {
    unknown: Refusal::UnknownWord,
    first: 0,
    texts: &[b"simple", b"rsync"],
    aliases: &[],
};

const LEVELS: Words = Words {
    unknown: Refusal::OutOfRange,
    first: 0,
    texts: &[b"0", b"1", b"2"],
    aliases: &[],
};

// The row of the key with number k; of no key, one without a name.
#[tactic(auto, unfolding(octets::specs::Split::split, octets::specs::Split::onto))]
pub fn row_at(k: usize) -> &'static Row
    ensures { key_of result.now ≡ Keys.key_at Keys.keys k }
{
    ROWS.get(k).unwrap_or(&NAMELESS)
}

// The number of the key with a name.
pub fn number_of(name: &[u8]) -> Option<usize>
    ensures { result ≡ Keys.within (length Keys.keys) (Keys.number_of Keys.keys name.now) }
{
    row_of(&ROWS, name)
}

// The place of a name among those of rows.
fn row_of(rows: &[Row], name: &[u8]) -> Option<usize>
    ensures { result ≡ position (λ (r : Row). bytes_eq name.now r.0.now) rows.now }
{
    rows.iter().position(|row| name == row.0)
}
