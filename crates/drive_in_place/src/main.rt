// The scripted console, its calls on a receiver that is lent and changed in place. Script and output are
// those of `drive`, byte for byte.
#![tactic(auto)]

use scripts::InPlace;

fn main(rt: HostRuntime) {
    scripts::run::<InPlace>(&rt, b"drive_in_place");
}
