// Sums of whole buffers, so that a printed line tells two buffers apart.
ghost use Rattle.std.specs.Prelude.{◌≡◌};
ghost use Rattle.script_parts.specs.Sums.{sum_of, in_front};

// The sum of (i + 1) times byte i, modulo 65521: byte i counts in each of the i + 1 sums of the bytes
// from a place on.
pub fn sum(bytes: &[u8]) -> usize
    ensures { result ≡ sum_of bytes.now }
{
    let sums = bytes
        .iter()
        .rev()
        .fold(Sums::NONE, |sums, b| sums.with(usize::from(*b)));
    usize::from(sums.total)
}

// The same of numbers.
pub fn list_sum(list: &[usize]) -> usize
    ensures { result ≡ sum_of list.now }
{
    let sums = list.iter().rev().fold(Sums::NONE, |sums, n| sums.with(*n));
    usize::from(sums.total)
}

// Of the members from a place on: the sum of their sums from each place on, and their sum.
#[derive(Clone, Copy)]
struct Sums {
    total: u16,
    tail: u16,
}

impl Sums {
    const NONE: Sums = Sums { total: 0, tail: 0 };

    // With one member more in front.
    fn with(self, member: usize) -> Sums
        ensures { result ≡ in_front self member }
    {
        let tail = (usize::from(self.tail) + member % 65521) % 65521;
        let total = (usize::from(self.total) + tail) % 65521;
        Sums {
            total: total as u16,
            tail: tail as u16,
        }
    }
}
