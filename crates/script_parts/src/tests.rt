// What no clause says: that a run plays its script. The standard input of a test is empty.
use crate::run;

#[test]
fn closure_is_played(rt: HostRuntime) {
    let mut played = None;
    run(&rt, b"script_parts", |run, script| {
        played = Some(script.len());
        run
    });
    assert!(rt; played == Some(0));
}
