// The numbers of a script, the lowest byte first. What lies past the script's end reads as 0.
ghost use Rattle.std.specs.Prelude.{◌≡◌, ◌≤◌, get_or, take, drop};
ghost use Rattle.octets.specs.Little.{number};

// The bytes from a place on: a number's places are counted from there, so that none of them overflows.
#[tactic(auto, using(std::proofs::lemmas::List::drop_min))]
pub fn rest(s: &[u8], at: usize) -> &[u8]
    ensures { result.now ≡ drop at s.now }
{
    &s[at.min(s.len())..]
}

pub fn byte(s: &[u8], at: usize) -> u8
    ensures { result ≡ get_or s.now at 0 }
{
    s.get(at).copied().unwrap_or(0)
}

#[tactic(auto, using(crate::proofs::NumberLaws::of_two))]
pub fn two_bytes(s: &[u8], at: usize) -> usize
    ensures { (result ≡ number (take 2 (drop at s.now))) × (result ≤ 65535) }
{
    let t = rest(s, at);
    usize::from(byte(t, 0)) + usize::from(byte(t, 1)) * 256
}

#[tactic(auto, using(crate::proofs::NumberLaws::of_three))]
pub fn three_bytes(s: &[u8], at: usize) -> usize
    ensures { (result ≡ number (take 3 (drop at s.now))) × (result ≤ 16777215) }
{
    let t = rest(s, at);
    two_bytes(t, 0) + usize::from(byte(t, 2)) * 65536
}

#[tactic(auto, using(crate::proofs::NumberLaws::of_four))]
pub fn four_bytes(s: &[u8], at: usize) -> usize
    ensures { (result ≡ number (take 4 (drop at s.now))) × (result ≤ 4294967295) }
{
    let t = rest(s, at);
    two_bytes(t, 0) + two_bytes(t, 2) * 65536
}

pub fn eight_bytes(s: &[u8], at: usize) -> u64
    ensures { result ≡ number (take 8 (drop at s.now)) }
{
    let t = rest(s, at);
    four_bytes(t, 0) as u64 + four_bytes(t, 4) as u64 * 4294967296
}
