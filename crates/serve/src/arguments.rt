// The arguments: the paths that are served. An argument's number counts from 1; the program's name is 0.

// Puts argument k at the start of the buffer, and answers its length. One that is longer than the buffer
// has none: no path that an office names is as long.
pub(crate) fn read(rt: &HostRuntime, k: usize, buf: &mut [u8]) -> usize {
    streams::argument(rt, k, buf).unwrap_or(0)
}

// Which argument is this path, byte for byte.
pub(crate) fn find(rt: &HostRuntime, path: &[u8]) -> Option<usize> {
    (1..streams::argument_count(rt)).find(|k| is(rt, *k, path))
}

// Whether argument k is this path. No argument is an empty one.
pub(crate) fn is(rt: &HostRuntime, k: usize, path: &[u8]) -> bool {
    let mut own = [0u8; 4096];
    let n = read(rt, k, &mut own);
    n > 0 && octets::part(&own, 0, n) == path
}
