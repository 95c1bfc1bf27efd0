// The fields of a status text, with opener and closer: which are there, in their order.
ghost use Rattle.std.specs.Prelude.{◌≡◌, length, leb};
ghost use Rattle.octets.specs.Outcome.{outcome};
ghost use Rattle.reply.specs.Parts.{key_for, parts_of, joined, written};
ghost use Rattle.reply.specs.Puts.{texts};

use crate::writer;

// Stores the reply with these values at the buffer's start, where it fits, and says how long it is.
pub(crate) fn put_fields<'v>(
    buffer: &mut [u8],
    id: &'v [u8],
    file: &'v [u8],
    size: &'v [u8],
    word: &'v [u8],
) -> usize
    ensures { outcome result buffer.new
        ≡ written (joined (parts_of id.now file.now size.now word.now)) buffer.old }
{
    let closing = b"\x1b\\";
    let parts: [&[u8]; 10] = [
        b"\x1b]5113;ac=status",
        key_for(b";id=", id),
        id,
        key_for(b";fid=", file),
        file,
        key_for(b";sz=", size),
        size,
        b";st=",
        word,
        closing,
    ];
    if !fit(&parts, buffer.len()) {
        return 0;
    }
    writer::put_parts(buffer, &parts)
}

// Whether parts have room, one after another.
fn fit(parts: &[&[u8]], room: usize) -> bool
    ensures { result ≡ leb (length (joined (texts parts.now))) room }
{
    let mut left = room;
    for part in parts {
        if part.len() > left {
            return false;
        }
        left -= part.len();
    }
    true
}

// The key of a field, or nothing where its value is empty: such a field is left out.
fn key_for<'k>(key: &'k [u8], value: &[u8]) -> &'k [u8]
    ensures { result.now ≡ key_for key.now value.now }
{
    if value.is_empty() { b"" } else { key }
}
