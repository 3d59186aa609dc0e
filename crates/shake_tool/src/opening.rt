// The line that opens a drawn session.
ghost use Rattle.std.specs.Prelude.{◌+◌, ◌≤◌, length};
ghost use Rattle.text.specs.Page.{Written};
ghost use Rattle.session_spec.specs.Written.{opening_line};
ghost use Rattle.shake_spec.specs.Actions.{zero_opening};

use crate::sizes::Sizes;
use text::page::Page;

// The first line, all values 0.
pub fn put_opening(page: &mut Page<'_>, sizes: Sizes)
    requires { page.old.at + 65536 ≤ length page.old.bytes.now }
    ensures written { Written page.old page.new (opening_line (zero_opening sizes.tasks sizes.cells sizes.blocks)) }
    ensures upper_bound { page.new.at ≤ page.old.at + 100 }
{
    page.put(b"(open");
    let three = [
        u64::from(sizes.tasks),
        u64::from(sizes.cells),
        u64::from(sizes.blocks),
    ];
    page.numbers(&three);
    page.put(b" (0");
    let more = sizes.cells as usize - 1;
    page.numbers(&[0; 16][..more]);
    page.put(b"))\n");
}
