// Serves files to an office: serve FILE..
//
// Commands come from standard input and answers go to standard output: both are the terminal line. An
// office gets the files that are named here and no others, in one receive session at a time. What could
// not be served is said on standard error.
#![tactic(auto)]

mod arguments;
mod console;
mod current;
mod files;
mod line;
mod listing;
mod plans;
mod report;
mod requests;

fn main(rt: HostRuntime) {
    line::run(&rt).end(rt.stderr(), b"serve");
}
