// A call on a receiver that is lent, of which it copies one session out: which session that is, its step
// and its reply. Nothing here takes a receiver; `receiver_in_place` lends the parts and puts them back.
//
// Not here: the step of a session in the table (`session_rule`, `sessions`).
#![tactic(auto)]

pub mod calls;
pub mod feeds;
pub mod steps;
pub mod supplies;

use command::Command;
use frames::Report;
use protocol::{Failure, Told};

// The console's calls but feed and supply.
#[derive(Clone, Copy)]
pub enum Call {
    Allow,
    Deny,
    Drop,
    Done,
    Failed(Failure),
    // The file that is asked for is a directory or not listed.
    Unlisted,
}

// What a feed answers: `Fed` without the receiver. `Fed` does not hold it, nor `Answered` the one below:
// README and docs/CONSOLE.md read `fed.told`, `fed.command`, `answered.reply_len` as they stand.
#[derive(Clone, Copy)]
pub struct FedInPlace {
    pub consumed: usize,
    pub report: Report,
    pub told: Told,
    pub command: Command,
    pub reply_len: usize,
}

// What another call answers: `Answered` without the receiver.
#[derive(Clone, Copy)]
pub struct AnsweredInPlace {
    pub told: Told,
    pub reply_len: usize,
}
