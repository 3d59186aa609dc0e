// Reads a session from standard input and writes the smallest nudge of a call: nudge TASK FINISHED-BEFORE.
#![tactic(auto)]

use buffers::{FILE, zeroed};
use nudge_tool::run_nudge;
use program_io::arguments::started_with;
use program_io::filter::{Messages, filter};

// Stays (2): a program names its tool, its room and its messages; what programs share is `filter`.
fn main(rt: HostRuntime) {
    let mut output = rt.stdout();
    let mut errors = rt.stderr();
    let usage = b"usage: nudge TASK FINISHED-BEFORE < SESSION\n";
    let says = Messages {
        cannot_read: b"nudge: cannot read standard input",
        cannot_write: b"nudge: cannot write standard output",
    };
    let given: Option<[u32; 2]> = started_with(
        &rt,
        &mut output,
        usage,
        says.cannot_write,
        &mut errors,
    );
    let Some(call) = given else {
        return;
    };
    filter(
        &mut rt.stdin(),
        &mut zeroed::<FILE>(),
        &mut [0; 4096],
        |file, out| run_nudge(file, call[0], call[1], out),
        &mut output,
        says,
        &mut errors,
    );
}
