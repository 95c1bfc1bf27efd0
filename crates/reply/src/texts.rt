// The texts of values: ids as they stand, a size in decimal digits, a status in Base64.
ghost use Rattle.std.specs.Prelude.{◌≡◌};
ghost use Rattle.base64_codec.specs.Encode.{text_of};
ghost use Rattle.protocol.specs.Replies.{status_word, size_text};
ghost use Rattle.reply.specs.Texts.{text_in};

use decimal::Number;
use protocol::Status;

// A text made here: the first len bytes of the array. 20 hold the digits of every u64.
#[derive(Drop)]
pub(crate) struct Text {
    bytes: [u8; 20],
    len: usize,
}

impl Text {
    pub(crate) fn as_slice(&self) -> &[u8]
        ensures { result.now ≡ text_in self.now }
    {
        &self.bytes[..self.len.min(self.bytes.len())]
    }
}

// The digits of a size; none where the reply leaves it out.
pub(crate) fn size_text(size: u64) -> Text
    ensures { text_in result ≡ size_text size }
{
    let mut bytes = [0; 20];
    if size == 0 {
        return Text { bytes, len: 0 };
    }
    let n = Number {
        negative: false,
        magnitude: size,
    };
    let len = decimal::write(n, &mut bytes, 0).unwrap_or(0);
    Text { bytes, len }
}

// The Base64 of a status' word.
pub(crate) fn status_text(status: Status) -> Text
    ensures { text_in result ≡ text_of (status_word status) }
{
    let mut bytes = [0; 20];
    let len = base64_codec::encode(word_of(status), &mut bytes, 0).unwrap_or(0);
    Text { bytes, len }
}

// The word of a status.
pub fn word_of(status: Status) -> &'static [u8]
    ensures { result.now ≡ status_word status }
{
    match status {
        Status::Ok => b"OK",
        Status::Started => b"STARTED",
        Status::Progress => b"PROGRESS",
        Status::Canceled => b"CANCELED",
        Status::Eperm => b"EPERM",
        Status::Eio => b"EIO",
        Status::Enoent => b"ENOENT",
        Status::Enospc => b"ENOSPC",
        Status::Ebusy => b"EBUSY",
        Status::Enotsup => b"ENOTSUP",
        Status::Einval => b"EINVAL",
        Status::Eexist => b"EEXIST",
        Status::Emfile => b"EMFILE",
        Status::Efbig => b"EFBIG",
    }
}
