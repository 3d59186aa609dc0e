// Which block is handed out: the first whose count is 0.
ghost use Rattle.std.specs.Prelude.{◌≡◌, ◌<◌};
ghost use Rattle.figure_lines.specs.Basics.{option_of};
ghost use Rattle.cells_spec.specs.Blocks.{block_after, first_unused};

fn block_after(blocks: u32, b: u32) -> u32
    requires { b < blocks }
    ensures { result ≡ block_after blocks b }
{
    if b + 1 == blocks { 0 } else { b + 1 }
}

// Reads the counts alone, from the block after the last taken. Any counts may be searched; where there are more blocks than counts, or
// no block to start from, none is handed out.
pub fn unused_block(counts: &[u8; 128], blocks: u32, last: u32) -> Option<u32>
    ensures { option_of result ≡ first_unused counts.now blocks last }
{
    if blocks > 128 || blocks <= last {
        return None;
    }
    let mut b = last;
    for _ in 0..blocks {
        b = block_after(blocks, b);
        if counts[b as usize] == 0 {
            return Some(b);
        }
    }
    None
}
