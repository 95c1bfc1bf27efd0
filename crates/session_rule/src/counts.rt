// Counts of a file's bytes, their limit, and the length that was declared.
ghost use Rattle.std.specs.Prelude.{◌+◌, min, ◌≡◌, ltb};
ghost use Rattle.protocol.specs.Files.{count_limit, passes, ends_short};

// A file has at most 2^40 bytes.
const COUNT_LIMIT: u64 = 1099511627776;

// Whether a count passes 2^40 with n bytes more.
pub(crate) fn passes_limit(count: u64, n: usize) -> bool
    ensures { result ≡ ltb count_limit (count + n) }
{
    count > COUNT_LIMIT || n as u64 > COUNT_LIMIT - count
}

// A count with n bytes more, at most 2^40.
pub(crate) fn grow(count: u64, n: usize) -> u64
    ensures { result ≡ min (count + n) count_limit }
{
    count.saturating_add(n as u64).min(COUNT_LIMIT)
}

// Whether a count passes the declared length, if there is one.
pub(crate) fn passes_declared(declared: u64, count: u64) -> bool
    ensures { result ≡ passes declared count }
{
    declared != 0 && count > declared
}

// Whether the last part leaves a count short of the declared length.
pub(crate) fn ends_short(last: bool, declared: u64, count: u64) -> bool
    ensures { result ≡ ends_short last declared count }
{
    last && count < declared
}
