// The lines that bus prints. Room for any of them is 90 bytes; with the numbers that a session has, a call's takes at most 31.
ghost use Rattle.std.specs.Prelude.{◌≡◌, ◌+◌, ◌≤◌, ◌<◌, length};
ghost use Rattle.text.specs.Page.{Written};
ghost use Rattle.bus_spec.specs.Bus.{rounded_up, call_line, all_line};
ghost use Rattle.bus_tool.specs.Structs.{call_of, longest_of, sums_in, sums_line};

use crate::calls::{BusTotals, CallTime};
use text::page::Page;

// Whole nanoseconds, rounded up.
fn up(n: u64) -> u64
    requires { n ≤ 18446744073709551606 }
    ensures { result ≡ rounded_up n }
{
    (n + 9) / 10
}

pub fn put_call(page: &mut Page<'_>, c: CallTime)
    requires { (page.old.at + 90 ≤ length page.old.bytes.now) × (c.greatest ≤ 18446744073709551606) }
    ensures written { Written page.old page.new (call_line (call_of c)) }
    ensures upper_bound { (c.task < 100) × (c.earlier < 100000) × (c.least ≤ 21000000) × (c.greatest ≤ 21000000) → page.new.at ≤ page.old.at + 31 }
{
    let numbers = [
        u64::from(c.task),
        u64::from(c.earlier),
        c.least / 10,
        up(c.greatest),
    ];
    page.line(b"(bus", &numbers);
}

fn put_sums(page: &mut Page<'_>, least: u64, greatest: u64, c: CallTime)
    requires { (page.old.at + 90 ≤ length page.old.bytes.now) × (greatest ≤ 18446744073709551606) }
    ensures { Written page.old page.new (sums_line least greatest (call_of c)) }
{
    let numbers = [
        least / 10,
        up(greatest),
        u64::from(c.task),
        u64::from(c.earlier),
    ];
    page.line(b"(all", &numbers);
}

// The last line.
pub fn put_all(page: &mut Page<'_>, z: BusTotals)
    requires { (page.old.at + 90 ≤ length page.old.bytes.now) × (z.greatest ≤ 18446744073709551606) }
    ensures { Written page.old page.new (all_line (sums_in z) (longest_of z.longest)) }
{
    match z.longest {
        None => page.put(b"(all 0 0 none)\n"),
        Some(c) => put_sums(page, z.least, z.greatest, c),
    }
}
