// The receive session that has its turn. The receiver keeps no names: what it named is kept here.
use crate::{arguments, files};
use protocol::{Id, Session};

// A path that the session named: the id that it gave it, its number among the arguments, and the size that
// it is listed with, which is 0 for none; or that it is not listed.
#[derive(Clone, Copy)]
pub struct Path {
    pub id: Id,
    pub argument: usize,
    pub listed: Option<u64>,
}

impl Path {
    pub const NONE: Path = Path {
        id: Id::NONE,
        argument: 0,
        listed: None,
    };
}

// The session's id, whether every path that it named is an argument, and these paths in their order. A
// program has fixed memory too, so the paths are an array with how many of it are there.
#[derive(Clone, Copy)]
pub struct Current {
    pub id: Id,
    pub is_good: bool,
    pub count: usize,
    pub paths: [Path; Session::FILES],
}

impl Current {
    // It has its turn from here on.
    pub(crate) fn begun(id: &[u8]) -> Current {
        Current {
            id: Id::of(id),
            is_good: true,
            count: 0,
            paths: [Path::NONE; Session::FILES],
        }
    }

    // Whether it is the one with this id.
    pub(crate) fn is(&self, id: &[u8]) -> bool {
        self.id.is(id)
    }

    // It names one more path. One that is no argument spoils it. The receiver takes no more paths than there
    // is room for.
    pub(crate) fn named<'a>(mut self, rt: &HostRuntime, id: &'a [u8], name: &'a [u8]) -> Current {
        match arguments::find(rt, name) {
            Some(argument) if self.count < Session::FILES => {
                self.paths[self.count] = Path {
                    id: Id::of(id),
                    argument,
                    listed: None,
                };
                self.count += 1;
            }
            _ => self.is_good = false,
        }
        self
    }

    // Each path is looked at: one whose file can be opened is listed.
    pub(crate) fn looked(mut self, rt: &HostRuntime) -> Current {
        let n = self.count.min(Session::FILES);
        for path in &mut self.paths[..n] {
            path.listed = files::look(rt, path.argument);
        }
        self
    }

    // The argument that is listed by this name.
    pub(crate) fn find_listed(&self, rt: &HostRuntime, name: &[u8]) -> Option<usize> {
        self.paths
            .iter()
            .find(|path| path.listed.is_some() && arguments::is(rt, path.argument, name))
            .map(|path| path.argument)
    }
}
