// The rule of one session: what a command, an answer or a decision of the console makes of it.
//
// A step takes the session by value and gives a change, which names no place of the table; it equals
// what `protocol` defines, for any session. The table finds the session and takes the change back.
//
// Not here: which session is meant, reading a command's text, and the bytes of a reply.
#![tactic(auto)]

pub mod actions;
pub mod answers;
mod changes;
pub mod commands;
mod counts;
mod data;
pub mod decisions;
mod file;
mod files;
mod finish;
mod receives;
pub mod replies;
mod settling;
