// Values, each read by its key's kind.
ghost use Rattle.std.specs.Prelude.{◌≡◌, ℕ, ◌+◌, ◌*◌, ◌≤◌, ◌<◌, length};
ghost use Rattle.command.specs.Keys as Keys;
ghost use Rattle.command.specs.Rows.{words_of};
ghost use Rattle.command_reader.specs.Keeping.{plain, Plain, Keeps};

use command::keys::{Kind, Row, row_at};
use command::letters::Class;
use command::words::Words;
use command::{Place, Refusal, Slot, letters};

// What a value is kept as: its slot, and how many bytes it stored in the scratch.
#[derive(Clone, Copy)]
pub struct Kept {
    pub slot: Slot,
    pub stored: usize,
}

impl Kept {
    // A value of which nothing goes to the scratch.
    fn plain(slot: Slot) -> Kept
        ensures { result ≡ plain slot }
    {
        Kept { slot, stored: 0 }
    }
}

// Keeps the value v of the key with number k, which stands at place `at` of the text. What it stores in
// the scratch comes after the bytes that are used.
pub(crate) fn keep(
    k: usize,
    at: usize,
    v: &[u8],
    scratch: &mut [u8],
    used: usize,
) -> Result<Kept, Refusal>
    requires { 4 * used + 3 * length v.now ≤ 4 * length scratch.old }
    ensures { Keeps (Keys.kind_at Keys.keys k) at v.now scratch.old used result scratch.new }
{
    let Row(_, kind) = row_at(k);
    match kind {
        Kind::Word(words) => word(words, v),
        Kind::Safe(short) => safe(*short, at, v),
        Kind::Integer => integer(v),
        Kind::Base64 => base64(v, scratch, used),
    }
}

// One of the words of a key.
fn word(words: &Words, v: &[u8]) -> Result<Kept, Refusal>
    ensures { (at : ℕ) → Plain (words_of words.now) at v.now result }
{
    let code = words.code(v)?;
    Ok(Kept::plain(Slot::coded(code)))
}

// A safe string, of at most 32 bytes if it is to be short. It stays where it stands.
fn safe(short: bool, at: usize, v: &[u8]) -> Result<Kept, Refusal>
    ensures { Plain (Keys.safe short) at v.now result }
{
    if !letters::all(Class::Safe, v) {
        return Err(Refusal::UnsafeCharacter);
    }
    if letters::over(short, v.len()) {
        return Err(Refusal::TooLong);
    }
    let place = Place {
        start: at,
        len: v.len(),
    };
    Ok(Kept::plain(Slot::placed(place)))
}

fn integer(v: &[u8]) -> Result<Kept, Refusal>
    ensures { (at : ℕ) → Plain Keys.integer at v.now result }
{
    let number = decimal::parse(v)?;
    Ok(Kept::plain(Slot::numbered(number)))
}

// Base64, whose bytes go to the scratch. There is room for them, so that NoRoom does not come.
fn base64(v: &[u8], scratch: &mut [u8], used: usize) -> Result<Kept, Refusal>
    requires { 4 * used + 3 * length v.now ≤ 4 * length scratch.old }
    ensures { (at : ℕ) → Keeps Keys.base64 at v.now scratch.old used result scratch.new }
{
    let stored = base64_codec::decode(v, scratch, used)?;
    let place = Place {
        start: used,
        len: stored,
    };
    let slot = Slot::placed(place);
    Ok(Kept { slot, stored })
}
