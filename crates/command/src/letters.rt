// Which bytes may stand where, and how many.
ghost use Rattle.std.specs.Prelude.{◌+◌, ◌&&◌, ◌≡◌, drop, ltb, not, position};
ghost use Rattle.octets.specs.Members.{every};
ghost use Rattle.command.specs.Classes.{byte_of, run};
ghost use Rattle.command.specs.Letters.{key_byte, safe_byte, text_byte};

// The bytes of a text, of a key, and of a safe string.
#[derive(Clone, Copy)]
pub enum Class {
    Text,
    Key,
    Safe,
}

// Whether each byte of s is of the class. No early way out as `all` of an iterator has, so that many are
// tested at once: by the same loop instead of `all` decoding in `base64_codec` is six times as fast.
pub fn all(class: Class, s: &[u8]) -> bool
    ensures { result ≡ every (byte_of class) s.now }
{
    let mut all = true;
    for c in s {
        all &= is(class, *c);
    }
    all
}

// The first place at or after `from` where a byte of s is not of the class; where there is none, the end
// of s, or `from` where it lies past that.
pub fn pass(class: Class, s: &[u8], from: usize) -> usize
    ensures { result ≡ from + run (byte_of class) (drop from s.now) }
{
    if from > s.len() {
        return from;
    }
    match lapse(class, &s[from..]) {
        Some(passed) => from + passed,
        None => s.len(),
    }
}

// The first place where a byte of s is not of the class.
fn lapse(class: Class, s: &[u8]) -> Option<usize>
    ensures { result ≡ position (λ c. not (byte_of class c)) s.now }
{
    s.iter().position(|c| !is(class, *c))
}

// Whether a string is not "at most 32 bytes", where that is asked.
pub fn over(short: bool, len: usize) -> bool
    ensures { result ≡ (short && ltb 32 len) }
{
    short && len > 32
}

// Whether c is of the class.
fn is(class: Class, c: u8) -> bool
    ensures { result ≡ byte_of class c }
{
    match class {
        Class::Text => is_text(c),
        Class::Key => is_key(c),
        Class::Safe => is_safe(c),
    }
}

#[tactic(auto, unfolding(crate::specs::Letters::text_byte))]
fn is_text(c: u8) -> bool
    ensures { result ≡ text_byte c }
{
    matches!(c, b' '..=b'~')
}

#[tactic(auto, unfolding(crate::specs::Letters::key_byte, octets::specs::Search::index_of, octets::specs::Search::index_after))]
fn is_key(c: u8) -> bool
    ensures { result ≡ key_byte c }
{
    matches!(c, b'0'..=b'9' | b'A'..=b'Z' | b'_' | b'a'..=b'z')
}

// What safe strings have besides keys' bytes stands beside these: `-`, `.` and `/` before 0, `:` after 9,
// and `@` before A.
#[tactic(auto, unfolding(crate::specs::Letters::safe_byte, octets::specs::Search::index_of, octets::specs::Search::index_after))]
fn is_safe(c: u8) -> bool
    ensures { result ≡ safe_byte c }
{
    matches!(c, b'-'..=b':' | b'@'..=b'Z' | b'_' | b'a'..=b'z')
}
