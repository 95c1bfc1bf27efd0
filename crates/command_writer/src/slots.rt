// A command's slots, in writing order.
ghost use Rattle.std.specs.Prelude.{◌≡◌};
ghost use Rattle.command.specs.Slots.{slots_of};

use command::{Command, Slot};

// The slots of all keys. Compression has one word, so its code is always 0.
pub(crate) fn slots(command: &Command) -> [Slot; 15]
    ensures { result ≡ slots_of command.now }
{
    [
        Slot::coded(command.action.code()),
        Slot::coded(0),
        Slot::coded(command.file_type.code()),
        Slot::coded(command.transmission.code()),
        Slot::placed(command.id),
        Slot::placed(command.file_id),
        Slot::placed(command.bypass),
        Slot::coded(command.quiet),
        Slot::numbered(command.modified),
        Slot::numbered(command.permissions),
        Slot::numbered(command.size),
        Slot::placed(command.name),
        Slot::placed(command.status),
        Slot::placed(command.parent),
        Slot::placed(command.payload),
    ]
}
