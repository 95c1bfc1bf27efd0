// Sends files to a console: send_files SESSION LOCAL NAME [LOCAL NAME]..
//
// Commands go to standard output and replies come from standard input: both are the terminal line. What
// became of each file is said on standard error.
#![tactic(auto)]

mod arguments;
mod commands;
mod course;
mod line;
mod news;
mod notes;
mod office;
mod report;
mod source;

fn main(rt: HostRuntime) {
    match arguments::files(streams::argument_count(&rt)) {
        Some(files) => office::run(&rt, files),
        None => report::plain(
            &rt,
            b"usage: send_files SESSION LOCAL NAME [LOCAL NAME]..",
            None,
        ),
    }
}
