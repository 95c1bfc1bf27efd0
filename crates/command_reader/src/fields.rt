// The fields of a text, left to right.
ghost use Rattle.std.specs.Prelude.{◌≡◌, ◌≤◌, length, drop};
ghost use Rattle.octets.specs.Outcome.{outcome};
ghost use Rattle.octets.specs.Split.{split};
ghost use Rattle.frames.specs.Stream.{text_limit};
ghost use Rattle.command.specs.Fields.{fields_read};
ghost use Rattle.command.specs.Read.{answered, begun, finished, kept, scratch_room};
ghost use Rattle.command_reader.specs.States.{Names};

use crate::slots::complete;
use crate::values;
use command::keys::{COUNT, number_of};
use command::letters::Class;
use command::{Command, Refusal, letters};

// A field: the number of its key, if it is known, and where its value starts and ends.
#[derive(Clone, Copy)]
pub struct Field {
    pub key: Option<usize>,
    pub from: usize,
    pub end: usize,
}

// Reads the fields of a text that starts `5113;`, and puts the command together. The slots and how many
// bytes of the scratch are used stay here: to hand them on would copy them.
pub(crate) fn read_fields(text: &[u8], scratch: &mut [u8]) -> Result<Command, Refusal>
    requires { (5 ≤ length text.now) × (length text.now ≤ text_limit) × (scratch_room ≤ length scratch.old) }
    ensures { outcome (answered result) scratch.new
        ≡ finished (fields_read kept 5 (split 59 (drop 5 text.now)) (begun scratch.old)) }
{
    let mut slots = [None; COUNT];
    let mut used = 0;
    let mut at = 5;
    while at <= text.len() {
        let field = next_field(text, at)?;
        if let Some(n) = field.key {
            if slots[n].is_some() {
                return Err(Refusal::Repeated);
            }
            let value = &text[field.from..field.end];
            let kept = values::keep(n, field.from, value, scratch, used)?;
            slots[n] = Some(kept.slot);
            used += kept.stored;
        }
        at = field.end + 1;
    }
    complete(slots)
}

// The field at place `at`, refused where no key stands before a `=`. The bytes of its key are passed, and
// then its value.
fn next_field(text: &[u8], at: usize) -> Result<Field, Refusal>
    requires { (at ≤ length text.now) × (length text.now ≤ text_limit) }
    ensures { Names result text.now at }
{
    let sign = letters::pass(Class::Key, text, at);
    if sign == text.len() || text[sign] != b'=' || sign == at {
        return Err(Refusal::BadField);
    }
    let from = sign + 1;
    let end = octets::find(text, from, b';');
    let key = number_of(&text[at..sign]);
    Ok(Field { key, from, end })
}
