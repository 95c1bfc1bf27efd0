// An input of the calls, to which a script appends.
use crate::desk::ROOM;
use script_parts::{byte, four_bytes, rest};

#[derive(Drop)]
pub struct Input {
    pub room: [u8; ROOM],
    pub len: usize,
}

impl Input {
    pub(crate) fn empty() -> Input {
        Input {
            room: [0u8; ROOM],
            len: 0,
        }
    }

    pub(crate) fn bytes(&self) -> &[u8] {
        octets::part(&self.room, 0, self.len)
    }

    // Appends the operation's bytes, or a capital's byte as often as it says; none where they do not fit.
    pub(crate) fn append(&mut self, operation: &[u8]) -> Option<()> {
        self.len = if byte(operation, 0).is_ascii_uppercase() {
            self.repeat(byte(operation, 5), four_bytes(operation, 1))?
        } else {
            octets::copy_at(rest(operation, 3), &mut self.room, self.len)?
        };
        Some(())
    }

    fn repeat(&mut self, byte: u8, count: usize) -> Option<usize> {
        let end = self.len.checked_add(count)?;
        self.room.get_mut(self.len..end)?.fill(byte);
        Some(end)
    }
}
