// Questions 1 to 3: how many tasks, cells and blocks.
ghost use Rattle.std.specs.Prelude.{◌≡◌};
ghost use Rattle.cells_spec.specs.Questions.{tasks_ok, cells_ok, blocks_ok};

pub fn tasks_ok(tasks: u32) -> bool
    ensures { result ≡ tasks_ok tasks }
{
    (1..=32).contains(&tasks)
}

pub fn cells_ok(cells: u32) -> bool
    ensures { result ≡ cells_ok cells }
{
    (1..=16).contains(&cells)
}

pub fn blocks_ok(tasks: u32, cells: u32, blocks: u32, words: usize) -> bool
    ensures { result ≡ blocks_ok tasks cells blocks words }
{
    let n = tasks as usize;
    let v = cells as usize;
    let b = blocks as usize;
    v + 2 * n <= b + 1 && blocks <= 128 && words == 5 * b
}
