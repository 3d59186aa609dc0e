// The line of a nudge.
ghost use Rattle.std.specs.Prelude.{◌+◌, ◌≤◌, length};
ghost use Rattle.figure_lines.specs.Basics.{option_of};
ghost use Rattle.nudge_spec.specs.Nudge.{nudge_line};
ghost use Rattle.text.specs.Page.{Written};

use text::page::Page;

// Stays (5): how much room a function needs is its own number.
pub fn put_nudge(page: &mut Page<'_>, found: Option<usize>)
    requires { page.old.at + 67 ≤ length page.old.bytes.now }
    ensures { Written page.old page.new (nudge_line (option_of found)) }
{
    match found {
        None => page.put(b"(nudge none)\n"),
        Some(i) => page.line(b"(nudge", &[i as u64]),
    }
}
