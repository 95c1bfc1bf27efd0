// Byte slices: compare, search, copy to a place.
//
// No function here has a `requires`: any slices, any positions and any lengths are answered. What
// later crates share besides (choices by a test, laws on lists, splitting at a byte) stands in
// specs/ and proofs/.
#![tactic(auto)]

mod blocks;

ghost use Rattle.std.specs.Prelude.{◌≡◌, ◌+◌, leb, drop};
ghost use Rattle.octets.specs.Search.{index_of};
ghost use Rattle.octets.specs.Outcome.{outcome};
ghost use Rattle.octets.specs.Slices.{equals, starts_with, part_of, copy_at};

// Whether a and b agree in length and in every byte.
pub fn equal(a: &[u8], b: &[u8]) -> bool
    ensures { result ≡ equals a.now b.now }
{
    a.len() == b.len() && a.starts_with(b)
}

// Whether the first bytes of s are those of prefix.
pub fn starts_with(s: &[u8], prefix: &[u8]) -> bool
    ensures { result ≡ starts_with s.now prefix.now }
{
    prefix.len() <= s.len() && prefix == &s[..prefix.len()]
}

// The first place at or after `from` where b stands in s; where there is none, the end of s, or
// `from` where it lies past that. Long blocks are passed first, then short ones, then a few bytes at
// once: an escape that is near is found without a look at each byte before it.
// The end and no `None`: each caller goes on from there, so that it is a place as any other.
pub fn find(s: &[u8], from: usize, b: u8) -> usize
    ensures { result ≡ from + index_of b (drop from s.now) }
{
    if from > s.len() {
        return from;
    }
    let far = blocks::pass(s, from, b, 128);
    let near = blocks::pass(s, far, b, 32);
    let last = blocks::pass(s, near, b, 8);
    blocks::first(s, last, b)
}

// The n bytes of s from place `start` on, and none where they pass its end. Empty and no `Option`: the
// clause says `part_of`, by which the definitions of the crates above read a place.
pub fn part(s: &[u8], start: usize, n: usize) -> &[u8]
    ensures { result.now ≡ part_of s.now start n }
{
    if fits(start, n, s.len()) {
        let end = start + n;
        &s[start..end]
    } else {
        &s[..0]
    }
}

// Whether n bytes from place `at` on lie within `len` bytes.
pub fn fits(at: usize, n: usize, len: usize) -> bool
    ensures { result ≡ leb (at + n) len }
{
    at <= len && n <= len - at
}

// Copies src into dst from place `at` on, and answers where it ends. Where it does not fit, dst is as before.
pub fn copy_at(src: &[u8], dst: &mut [u8], at: usize) -> Option<usize>
    ensures { outcome result dst.new ≡ copy_at src.now dst.old at }
{
    if !fits(at, src.len(), dst.len()) {
        return None;
    }
    let end = at + src.len();
    dst[at..end].copy_from_slice(src);
    Some(end)
}
