// Numbers of a layout.
ghost use Rattle.std.specs.Prelude.{◌≡◌, ◌+◌, ◌^◌, ◌≤◌, ◌<◌, length, take, drop};
ghost use Rattle.octets.specs.Little.{number};

// The number in the n bytes from a place on.
#[tactic(auto, using(crate::proofs::FieldLaws::in_part))]
pub(crate) fn field(s: &[u8], at: usize, n: usize) -> u64
    requires { (n ≤ 8) × (at + n ≤ length s.now) }
    ensures { (result ≡ number (take n (drop at s.now))) × (result < 256 ^ n) }
{
    little(octets::part(s, at, n))
}

// From the last byte on. A loop and no `fold`: that a turn's product fits is known from how many bytes are
// left, which an invariant can say and a closure does not see.
fn little(bytes: &[u8]) -> u64
    requires { length bytes.now ≤ 8 }
    ensures { (result ≡ number bytes.now) × (result < 256 ^ length bytes.now) }
{
    let mut n = 0u64;
    for byte in bytes.iter().rev() {
        n = n * 256 + u64::from(*byte);
    }
    n
}
