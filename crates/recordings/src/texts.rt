// The command texts of a recording, found without reading them.
//
// A search always starts where the bytes are outside texts: the 1B that abandons a text is read again
// as one outside, where the byte after it means the same. So nothing is carried from one text to the
// next.
ghost use Rattle.std.specs.Prelude.{◌≡◌, ◌+◌, ◌≤◌, length, cond};
ghost use Rattle.frames.specs.Stream.{is_command};
ghost use Rattle.recordings.specs.Texts.{next_text, text_from};
ghost use Rattle.recordings.specs.Walk.{next_escape};

// Bytes outside a command up to a place; or, from a place up to another, a command text with its opener
// and its closer, or one that is abandoned, with its opener.
#[derive(Clone, Copy)]
pub enum TextSight {
    Outside(usize),
    Text(usize, usize),
    Abandoned(usize, usize),
}

// What stands next from a place on, which is outside texts.
#[tactic(auto, unfolding(crate::specs::Texts::escape_text))]
pub fn next_text(recording: &[u8], at: usize) -> TextSight
    ensures { result ≡ next_text recording.now at }
{
    let len = recording.len();
    let i = octets::find(recording, at, 0x1B);
    if !octets::fits(i, 2, len) {
        return TextSight::Outside(len);
    }
    if recording[i + 1] != 0x5D {
        return TextSight::Outside(i + 1);
    }
    text(recording, i)
}

// The text whose opener stands at a place.
#[tactic(auto, unfolding(crate::specs::Texts::text_from, crate::specs::Texts::closed_text, crate::specs::Texts::abandoned_text))]
fn text(recording: &[u8], start: usize) -> TextSight
    requires { start + 2 ≤ length recording.now }
    ensures { result ≡ text_from recording.now start (next_escape recording.now (start + 2)) }
{
    let from = start + 2;
    let end = octets::find(recording, from, 0x1B);
    if !octets::fits(end, 2, recording.len()) {
        return TextSight::Outside(recording.len());
    }
    let text = &recording[from..end];
    let after = end + 2;
    if recording[end + 1] == 0x5C {
        return if_command(text, TextSight::Text(start, after), after);
    }
    if_command(text, TextSight::Abandoned(start, end), end)
}

// What is seen of a command's text; any other, up to its end, is outside commands.
fn if_command(text: &[u8], sight: TextSight, end: usize) -> TextSight
    ensures { result ≡ cond (is_command text.now) sight (TextSight.Outside end) }
{
    if is_command(text) {
        sight
    } else {
        TextSight::Outside(end)
    }
}

fn is_command(text: &[u8]) -> bool
    ensures { result ≡ is_command text.now }
{
    octets::starts_with(text, b"5113;")
}
