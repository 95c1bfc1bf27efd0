// The scripted console, its calls by value.
#![tactic(auto)]

use scripts::ByValue;

fn main(rt: HostRuntime) {
    scripts::run::<ByValue>(&rt, b"drive");
}
