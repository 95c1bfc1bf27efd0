// Replies: a status text put together field by field in the lent reply buffer.
//
// No exported function has a `requires`: any reply and any buffer are answered. What a reply says, and
// whether one is due, is decided before.
#![tactic(auto)]

mod fields;
mod texts;
mod writer;

ghost use Rattle.std.specs.Prelude.{◌≡◌};
ghost use Rattle.octets.specs.Outcome.{outcome};
ghost use Rattle.protocol.specs.Promises.{EveryStatus};
ghost use Rattle.protocol.specs.Replies.{is_progress, is_held, replied_of};

use protocol::{Reply, Status};
pub use texts::word_of;

// Stores a reply at the buffer's start and says how long it is. Where none is due, quiet holds it back, or
// it does not fit, the length is 0 and the buffer as before (no Option: definition `replied_of` and README's
// loop, which sends so many bytes, take the 0). That every reply is canonical text and reads
// back as what it says stands here too.
pub fn send(reply: Option<Reply>, buffer: &mut [u8]) -> usize
    ensures buffer_after { outcome result buffer.new ≡ replied_of reply buffer.old }
    ensures every_status { EveryStatus }
{
    let Some(reply) = reply else {
        return 0;
    };
    if is_held(reply.status, reply.quiet) {
        return 0;
    }
    let size = texts::size_text(reply.size);
    let word = texts::status_text(reply.status);
    fields::put_fields(
        buffer,
        reply.id.as_slice(),
        reply.file_id.as_slice(),
        size.as_slice(),
        word.as_slice(),
    )
}

// Whether quiet holds a reply with this status back.
pub fn is_held(status: Status, quiet: u64) -> bool
    ensures { result ≡ is_held status quiet }
{
    quiet >= 2 || quiet >= 1 && is_progress(status)
}

// Whether quiet 1 holds a reply with this status back.
fn is_progress(status: Status) -> bool
    ensures { result ≡ is_progress status }
{
    matches!(
        status,
        Status::Ok | Status::Started | Status::Progress | Status::Canceled
    )
}
