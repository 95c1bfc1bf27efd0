// What follows a feed: what becomes of the session that has its turn, and how the console answers.
use crate::current::Current;
use crate::report;
use command::Transmission;
use protocol::{Ask, Told};
use std::io::Stderr;

#[derive(Clone, Copy)]
pub enum Plan {
    // Nothing is to answer.
    Rest,
    // The session of the command is denied.
    Deny,
    // This session, which has its turn, is let in, and gets its listing.
    Open(Current),
    // The file of an argument is supplied.
    Supply(usize),
    // The file that is asked for is not listed.
    Unlisted,
}

// The session that has its turn from here on, if one has.
#[derive(Clone, Copy)]
pub struct Planned {
    pub current: Option<Current>,
    pub plan: Plan,
}

// Given the session's id and the path's, and the name of the command that was read. Of the asks only a
// request is answered: no send session is open, so that each is one of the session that has its turn.
pub(crate) fn heed<'a>(
    rt: &HostRuntime,
    current: Option<Current>,
    told: Told,
    transmission: Transmission,
    id: &'a [u8],
    path_id: &'a [u8],
    name: &'a [u8],
) -> Planned {
    match told {
        Told::Asked => follow(current, Plan::Deny),
        Told::Naming => follow(begun(current, id), Plan::Rest),
        Told::Path => follow(named(rt, current, id, path_id, name), Plan::Rest),
        Told::LastPath => decided(rt, named(rt, current, id, path_id, name), id),
        Told::Ask(Ask::Request) => follow(current, requested(rt, current, transmission, name)),
        Told::Withdrawn | Told::Discarded => follow(ended(current, id), Plan::Rest),
        _ => follow(current, Plan::Rest),
    }
}

fn follow(current: Option<Current>, plan: Plan) -> Planned {
    Planned { current, plan }
}

// ---- Sessions.
// A session that begins while another has its turn is left to its last path, and denied there.
fn begun(current: Option<Current>, id: &[u8]) -> Option<Current> {
    match current {
        Some(_) => current,
        None => Some(Current::begun(id)),
    }
}

fn named<'a>(
    rt: &HostRuntime,
    current: Option<Current>,
    id: &'a [u8],
    path_id: &'a [u8],
    name: &'a [u8],
) -> Option<Current> {
    match current {
        Some(own) if own.is(id) => Some(own.named(rt, path_id, name)),
        _ => current,
    }
}

// The last path is named. The files are looked at before the session is let in.
fn decided(rt: &HostRuntime, current: Option<Current>, id: &[u8]) -> Planned {
    match current {
        Some(own) if own.is(id) => {
            if own.is_good {
                let listed = own.looked(rt);
                follow(Some(listed), Plan::Open(listed))
            } else {
                follow(None, Plan::Deny)
            }
        }
        _ => follow(current, Plan::Deny),
    }
}

// A session is dropped.
fn ended(current: Option<Current>, id: &[u8]) -> Option<Current> {
    match current {
        Some(own) if own.is(id) => None,
        _ => current,
    }
}

// ---- Requests.
// A client that asks for a delta takes plain parts for one, and its old file would be lost.
fn requested(
    rt: &HostRuntime,
    current: Option<Current>,
    transmission: Transmission,
    name: &[u8],
) -> Plan {
    match (current, transmission) {
        (Some(own), Transmission::Simple) => match own.find_listed(rt, name) {
            Some(k) => Plan::Supply(k),
            None => unlisted(rt.stderr(), name),
        },
        _ => unlisted(rt.stderr(), name),
    }
}

fn unlisted(err: Stderr, name: &[u8]) -> Plan {
    report::heard(err, b"request denied: ", name);
    Plan::Unlisted
}
