// The block that a task's line is handed.
ghost use Rattle.std.specs.Prelude.{◌≡◌, cond, eqb};
ghost use Rattle.std.proofs.Math.Option.{none};
ghost use Rattle.figure_lines.specs.Basics.{option_of};
ghost use Rattle.cells_spec.specs.Blocks.{first_unused};

use crate::blocks::unused_block;

// Only line 4 asks for one.
pub fn free_block(counts: &[u8; 128], blocks: u32, last: u32, line: u32) -> Option<u32>
    ensures { option_of result ≡ cond (eqb line 4) (first_unused counts.now blocks last) none }
{
    if line == 4 {
        unused_block(counts, blocks, last)
    } else {
        None
    }
}
