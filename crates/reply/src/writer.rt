// The writer: a borrowed buffer, and the place of the next byte in it.
//
// What a part does to the buffer is decided in `put_at`, on slice and number.
ghost use Rattle.std.specs.Prelude.{◌≡◌};
ghost use Rattle.octets.specs.Outcome.{outcome};
ghost use Rattle.reply.specs.Puts.{put, put_all, stored, stored_all, texts};

// A named form: document 01 asks for this struct (docs/DECISIONS.md).
#[derive(Drop)]
struct Writer<'b> {
    buf: &'b mut [u8],
    at: usize,
}

impl<'b> Writer<'b> {
    // Puts a part in; the next one goes after it.
    fn put(&mut self, part: &[u8])
        ensures { self.new ≡ stored self.old part.now }
    {
        let at = self.at;
        self.at = put_at(&mut *self.buf, at, part);
    }

    // Puts parts in, one after another.
    fn put_all(&mut self, parts: &[&[u8]])
        ensures { self.new ≡ stored_all self.old (texts parts.now) }
    {
        for part in parts {
            self.put(part);
        }
    }
}

// Puts parts in from the buffer's start on, and says where they end.
pub(crate) fn put_parts(buf: &mut [u8], parts: &[&[u8]]) -> usize
    ensures { outcome result buf.new ≡ put_all (outcome 0 buf.old) (texts parts.now) }
{
    let mut w = Writer { buf, at: 0 };
    w.put_all(parts);
    w.at
}

// Stores a part from place `at` on and says where the next one goes. A part that does not fit is left
// out.
fn put_at(buf: &mut [u8], at: usize, part: &[u8]) -> usize
    ensures { outcome result buf.new ≡ put (outcome at buf.old) part.now }
{
    octets::copy_at(part, buf, at).unwrap_or(at)
}
