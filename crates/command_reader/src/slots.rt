// Slots put together as a command.
ghost use Rattle.std.specs.Prelude.{◌≡◌};
ghost use Rattle.command.specs.Read as Read;
ghost use Rattle.command.specs.Slots.{command_of, held};

use command::{Action, Command, FileType, Refusal, Slot, Transmission};

// The command of the slots, if it has an action and an id.
pub(crate) fn complete(slots: [Option<Slot>; 15]) -> Result<Command, Refusal>
    ensures { Read.answered result ≡ Read.complete (command_of slots) }
{
    let command = command_of(slots);
    if command.lacks() {
        return Err(Refusal::Missing);
    }
    Ok(command)
}

fn command_of(slots: [Option<Slot>; 15]) -> Command
    ensures { result ≡ command_of slots }
{
    Command {
        action: Action::from(held(slots[0]).number.magnitude),
        file_type: FileType::from(held(slots[2]).number.magnitude),
        transmission: Transmission::from(held(slots[3]).number.magnitude),
        id: held(slots[4]).place,
        file_id: held(slots[5]).place,
        bypass: held(slots[6]).place,
        quiet: held(slots[7]).number.magnitude,
        modified: held(slots[8]).number,
        permissions: held(slots[9]).number,
        size: held(slots[10]).number,
        name: held(slots[11]).place,
        status: held(slots[12]).place,
        parent: held(slots[13]).place,
        payload: held(slots[14]).place,
    }
}

// What a slot holds; one of a key that has not stood, what absent means.
fn held(slot: Option<Slot>) -> Slot
    ensures { result ≡ held slot }
{
    slot.unwrap_or(Slot::EMPTY)
}
