// Reads a session from standard input and writes its bus times: bus LL LH SL SH HL HH, the low and high time of a load, a store and a
// hardware CAS, in tenths of a nanosecond.
#![tactic(auto)]

use buffers::{FILE, LINES, zeroed};
use bus_tool::run_bus;
use program_io::arguments::started_with;
use program_io::filter::{Messages, filter};

// Stays (2): a program names its tool, its room and its messages; what programs share is `filter`.
fn main(rt: HostRuntime) {
    let mut output = rt.stdout();
    let mut errors = rt.stderr();
    let usage = b"usage: bus LL LH SL SH HL HH\n";
    let says = Messages {
        cannot_read: b"bus: cannot read standard input",
        cannot_write: b"bus: cannot write standard output",
    };
    let given: Option<[u32; 6]> = started_with(
        &rt,
        &mut output,
        usage,
        says.cannot_write,
        &mut errors,
    );
    let Some(n) = given else {
        return;
    };
    filter(
        &mut rt.stdin(),
        &mut zeroed::<FILE>(),
        &mut zeroed::<LINES>(),
        |file, out| run_bus(n[0], n[1], n[2], n[3], n[4], n[5], file, out),
        &mut output,
        says,
        &mut errors,
    );
}
