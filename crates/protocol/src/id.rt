// Ids of sessions and files, kept by value: memory is fixed, and a slice of the caller's text would not
// outlive the call.
ghost use Rattle.std.specs.Prelude.{◌≡◌};
ghost use Rattle.octets.specs.Slices.{equals};
ghost use Rattle.protocol.specs.Table.{kept_id, id_bytes};

// An id: the first len bytes of the array.
#[derive(Clone, Copy)]
pub struct Id {
    pub bytes: [u8; Id::ROOM],
    pub len: usize,
}

impl Id {
    // "at most 32 bytes"
    pub const ROOM: usize = 32;

    pub const NONE: Id = Id {
        bytes: [0; Id::ROOM],
        len: 0,
    };

    // An id in the array, with zeros after it. Of a longer one the array holds what it has room for, and the
    // length says that there was more.
    pub fn of(id: &[u8]) -> Id
        ensures { result ≡ kept_id id.now }
    {
        let len = id.len();
        let mut bytes = [0; Id::ROOM];
        let n = len.min(Id::ROOM);
        bytes[..n].copy_from_slice(&id[..n]);
        Id { bytes, len }
    }

    pub fn as_slice(&self) -> &[u8]
        ensures { result.now ≡ id_bytes self.now }
    {
        &self.bytes[..self.len.min(Id::ROOM)]
    }

    // "Ids match only if length and all bytes agree".
    pub fn is(&self, id: &[u8]) -> bool
        ensures { result ≡ equals (id_bytes self.now) id.now }
    {
        octets::equal(self.as_slice(), id)
    }
}
