// The state that an opening leaves, if it is not refused.
ghost use Rattle.std.specs.Prelude.{◌≡◌, ◌++◌, ◌-◌, ◌≤◌, replicate};
ghost use Rattle.cells_spec.specs.Open.{blank as «blankOf», open_state};

use cells_spec::State;
use figure_lines::records::idle;

// Each of the first V blocks is used once.
fn open_counts(cells: u32) -> [u8; 128]
    requires { cells ≤ 16 }
    ensures { result ≡ replicate cells 1 ++ replicate (128 - cells) 0 }
{
    let mut counts = [0; 128];
    counts[..cells as usize].fill(1);
    counts
}

// For whoever opens cells for the first time.
pub fn blank() -> State
    ensures { result ≡ «blankOf» }
{
    State {
        tasks: 0,
        cells: 0,
        blocks: 0,
        last: 0,
        current: [0; 16],
        records: [idle(); 32],
        counts: [0; 128],
    }
}

pub fn open_state(tasks: u32, cells: u32, blocks: u32) -> State
    requires { (1 ≤ cells) × (cells ≤ 16) }
    ensures { result ≡ open_state tasks cells blocks }
{
    State {
        tasks,
        cells,
        blocks,
        last: cells - 1,
        current: [0, 1, 2, 3, 4, 5, 6, 7, 8, 9, 10, 11, 12, 13, 14, 15],
        records: [idle(); 32],
        counts: open_counts(cells),
    }
}
