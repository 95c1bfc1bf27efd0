// The fields of a command, in writing order.
ghost use Rattle.std.specs.Prelude.{◌<◌};
ghost use Rattle.command.specs.Keys.{keys, key_at, kind_at};
ghost use Rattle.command.specs.Values.{shown};
ghost use Rattle.command.specs.Slots.{value_at, values_of};
ghost use Rattle.command.specs.Write.{checked_of};
ghost use Rattle.command_writer.specs.Pieces.{whole, FieldPut};
ghost use Rattle.command_writer.specs.Stores.{Told};

use crate::slots::slots;
use crate::store::Draft;
use command::keys::{Kind, Row, row_at};
use command::{Command, Refusal, Slot};

// What the places of a command lie in.
#[derive(Clone, Copy)]
pub struct Sources<'a> {
    pub text: &'a [u8],
    pub scratch: &'a [u8],
}

// Puts `5113` and then the fields of a command, up to the first that is refused.
pub(crate) fn put_fields(
    command: &Command,
    sources: &Sources<'_>,
    draft: &mut Draft<'_>,
) -> Result<(), Refusal>
    ensures { Told (checked_of keys (values_of command.now sources.now.text.now sources.now.scratch.now))
        (whole (values_of command.now sources.now.text.now sources.now.scratch.now)) draft.old result draft.new }
{
    draft.put(b"5113");
    let slots = slots(command);
    for (k, slot) in slots.iter().enumerate() {
        put_field(k, *slot, sources, draft)?;
    }
    Ok(())
}

// Puts the field of the key with number k.
fn put_field(
    k: usize,
    slot: Slot,
    sources: &Sources<'_>,
    draft: &mut Draft<'_>,
) -> Result<(), Refusal>
    ensures { FieldPut (key_at keys k).name
        (shown (kind_at keys k) (value_at (kind_at keys k) slot sources.now.text.now sources.now.scratch.now))
        draft.old result draft.new }
{
    let Row(name, kind) = row_at(k);
    match kind {
        Kind::Word(words) => draft.put_word(name, words, slot.number),
        Kind::Safe(short) => draft.put_safe(name, *short, sources.text, slot.place),
        Kind::Integer => draft.put_integer(name, slot.number),
        Kind::Base64 => draft.put_bytes(name, sources.scratch, slot.place),
    }
}
