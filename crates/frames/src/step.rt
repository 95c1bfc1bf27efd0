// What one byte does.
ghost use Rattle.std.specs.Prelude.{◌≡◌, ◌+◌, ◌<◌, ◌^◌};
ghost use Rattle.frames.specs.Stream.{after_escape};
ghost use Rattle.frames.specs.Framings.{count, framing_of, capped_of, mark_of};
ghost use Rattle.frames.specs.Steps.{first_byte, in_mark, in_text, step_of, framing_after};

use crate::{Framing, Mark};

// The bytes go on, or a text of so many bytes that has its mark ends.
#[derive(Clone, Copy)]
pub(crate) enum Event {
    On(Framing),
    Closed(usize),
    Abandoned(usize, Framing),
}

#[tactic(auto, unfolding(crate::specs::Steps::step_of))]
pub(crate) fn step(f: Framing, b: u8) -> Event
    requires { count f + 1 < 2 ^ 64 }
    ensures { result ≡ step_of f b }
{
    match f {
        Framing::Plain if b == 0x1B => Event::On(Framing::Escape),
        Framing::Plain => Event::On(Framing::Plain),
        Framing::Escape => Event::On(after_escape(b)),
        Framing::Text(mark, n) => Event::On(in_text(mark, n, b)),
        Framing::TextEscape(n) if b == 0x5C => Event::Closed(n),
        Framing::TextEscape(n) => Event::Abandoned(n, after_escape(b)),
    }
}

#[tactic(auto, unfolding(crate::specs::Framings::may_be, octets::specs::Slices::starts_with))]
fn after_escape(b: u8) -> Framing
    ensures { result ≡ framing_of (after_escape b) }
{
    match b {
        0x5D => Framing::Text(Mark::Transfer, 0),
        0x1B => Framing::Escape,
        _ => Framing::Plain,
    }
}

fn in_text(mark: Mark, n: usize, b: u8) -> Framing
    requires { n + 1 < 2 ^ 64 }
    ensures { result ≡ in_text mark n b }
{
    if n == 0 {
        first_byte(b)
    } else {
        in_mark(mark, n, b)
    }
}

// The first byte says which of the two marks a text may start with: they differ in it.
fn first_byte(b: u8) -> Framing
    ensures { result ≡ first_byte b }
{
    match b {
        0x1B => Framing::Escape,
        b'5' => Framing::Text(Mark::Transfer, 1),
        b'7' => Framing::Text(Mark::DragDrop, 1),
        _ => Framing::Plain,
    }
}

// A later byte. Not inlined: few bytes come here, and with it inlined the scan of plain bytes with a 1B
// every 20 takes 85 ms for 100 MB where it takes 76 (bench/frames.sh).
#[inline(never)]
fn in_mark(mark: Mark, n: usize, b: u8) -> Framing
    requires { n + 1 < 2 ^ 64 }
    ensures { result ≡ in_mark mark n b }
{
    let word = mark.word();
    let is_within = n < word.len();
    if b == 0x1B {
        if is_within {
            Framing::Escape
        } else {
            Framing::TextEscape(n)
        }
    } else if is_within && b != word[n] {
        Framing::Plain
    } else {
        Framing::Text(mark, n + 1)
    }
}

// The framing with its count at most one more than a reported text may have.
pub(crate) fn capped(f: Framing) -> Framing
    ensures { result ≡ capped_of f }
{
    match f {
        Framing::Plain | Framing::Escape => f,
        Framing::Text(mark, n) => Framing::Text(mark, n.min(Framing::TEXT_LIMIT + 1)),
        Framing::TextEscape(n) => Framing::TextEscape(n.min(Framing::TEXT_LIMIT + 1)),
    }
}

pub(crate) fn framing_after(event: Event) -> Framing
    ensures { result ≡ framing_after event }
{
    match event {
        Event::On(g) | Event::Abandoned(_, g) => g,
        Event::Closed(_) => Framing::Plain,
    }
}
