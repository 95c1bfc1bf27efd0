// "A pair's starts matched in order": the start of a pair in the first that has so many of its pair
// before it is matched with the one in the second that has as many before it.
ghost use Rattle.std.specs.Prelude.{◌≡◌, ◌+◌, ◌*◌, ◌≤◌, length};
ghost use Rattle.windows.specs.Ranks.{count_of, nth};
ghost use Rattle.windows.specs.Steps.{heard, key_of, rank_at, partner_of, is_left, found_at, IsRow, starts_in};

use crate::side::{Pair, Side};

// How many starts of a pair there are. It and the search below go over all rows for each start. Each is a loop
// of its own, what it asks of a row inside: without, long recordings took 123 and 108 ms where they take 112 and 91.
#[inline(never)]
fn count(side: Side, pair: Pair) -> usize
    ensures { result ≡ count_of (key_of pair.entry) (starts_in (heard side.entry)) }
{
    let mut n = 0;
    for row in 0..side.rows() {
        if side.starts_pair(row, pair) {
            n += 1;
        }
    }
    n
}

// The start of a pair that has so many others of it before it.
#[inline(never)]
fn nth_start(side: Side, rank: usize, pair: Pair) -> Option<usize>
    ensures { IsRow (heard side.entry) result × (found_at (heard side.entry) result
        ≡ nth (key_of pair.entry) rank (starts_in (heard side.entry))) }
{
    let mut left = rank;
    for row in 0..side.rows() {
        if side.starts_pair(row, pair) {
            if left == 0 {
                return Some(row);
            }
            left -= 1;
        }
    }
    None
}

// How many starts of the pair of a row stand before it.
fn rank(side: Side, row: usize) -> usize
    requires { row * 7 + 7 ≤ length side.events.now }
    ensures { result ≡ rank_at (heard side.entry) (row * 7) }
{
    count(side.before(row), side.pair_at(row))
}

// The partner of a start in the first.
pub(crate) fn partner(first: Side, row: usize, second: Side) -> Option<usize>
    requires { row * 7 + 7 ≤ length first.events.now }
    ensures { IsRow (heard second.entry) result × (found_at (heard second.entry) result
        ≡ partner_of (heard first.entry) (heard second.entry) (row * 7)) }
{
    nth_start(second, rank(first, row), first.pair_at(row))
}

// Whether only the second has a start: as many of its pair stand before it as the first has.
pub(crate) fn is_left(first: Side, second: Side, row: usize) -> bool
    requires { row * 7 + 7 ≤ length second.events.now }
    ensures { result ≡ is_left (heard first.entry) (heard second.entry) (row * 7) }
{
    count(first, second.pair_at(row)) <= rank(second, row)
}
