// The counts of each complete path of figure 2.
ghost use Rattle.std.specs.Prelude.{◌≡◌};
ghost use Rattle.figure_lines.specs.Basics.{option_of};
ghost use Rattle.figure_lines.specs.Paths.{row_of};

// Document 01's rows, the last four CR 2's: steps, loads, stores, hardware CAS attempts.
static PATHS: [[u32; 4]; 13] = [
    [3, 3, 0, 0],
    [6, 5, 0, 1],
    [8, 5, 3, 0],
    [10, 6, 4, 0],
    [12, 8, 3, 1],
    [7, 4, 2, 1],
    [9, 5, 3, 1],
    [10, 7, 2, 1],
    [15, 10, 3, 2],
    [13, 4, 7, 2],
    [15, 5, 8, 2],
    [16, 7, 7, 2],
    [21, 10, 8, 3],
];

// A finished call's loads and stores, by its steps and hardware CAS attempts. The last row that has these is meant: two have 15 and 2,
// and no opening reaches the ninth.
pub fn row_of(steps: u32, hard: u32) -> Option<(u32, u32)>
    ensures { option_of result ≡ row_of steps hard }
{
    for i in (0..PATHS.len()).rev() {
        let [s, loads, stores, h] = PATHS[i];
        if s == steps && h == hard {
            return Some((loads, stores));
        }
    }
    None
}
