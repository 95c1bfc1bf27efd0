// The weak sum of the rsync technical report.
ghost use Rattle.std.specs.Prelude.{◌≡◌};
ghost use Rattle.delta.specs.Weak.{weak_of, rolled_of};
ghost use Rattle.delta.specs.Laws.{Rolls};

// The report's M.
const M: u32 = 65536;

// The weak sum of a window.
#[tactic(auto, unfolding(crate::specs::Weak::sum_of, crate::specs::Weak::weighed_of, crate::specs::Weak::weak_of))]
pub fn weak_sum(window: &[u8]) -> u32
    ensures { result ≡ weak_of window.now }
{
    let mut a = 0u32;
    let mut b = 0u32;
    for byte in window {
        a = (a + u32::from(*byte)) % M;
        b = (b + a) % M;
    }
    a + M * b
}

// The sum of a window of `len` bytes, moved one byte on: `first` leaves it and `next` enters. Of a window
// that is not empty that is the sum of the next one, worked out afresh.
#[tactic(auto, using(crate::proofs::WeakLaws::rolls), unfolding(crate::specs::Weak::rolled_of))]
pub fn roll(sum: u32, len: usize, first: u8, next: u8) -> u32
    ensures value { result ≡ rolled_of sum len first next }
    ensures rolls { Rolls weak_of rolled_of }
{
    let x = u32::from(first);
    let n = (len % M as usize) as u32;
    let a = (sum % M + M - x + u32::from(next)) % M;
    let b = (sum / M + M - n * x % M + a) % M;
    a + M * b
}
