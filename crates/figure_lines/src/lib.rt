// The lines of figure 2 without its memory: a task's record, what its next line accesses, and what follows. What they do is
// defined in specs/; the figure with a new block each time runs these definitions, and the code of cells_step::runs::run does what they say.
#![tactic(auto)]

pub mod records;

// What a task's pending call is about to do, and with what. Idle: line 0; an opening and a finished call leave every
// other field 0 too.
// Stays (1): numbers for line and kind, since users hand in any record and question 6 asks of it (`line_fit`, `reads`; test_cells).
#[derive(Clone, Copy, Debug, PartialEq, Eq)]
pub struct Record {
    // The figure's line that its next step runs.
    pub line: u32,
    // In the deciding part (lines 1 to 3), the line that wanted the decision: 13, 25 or 28.
    pub wanted: u32,
    // 1 for a read, 2 for a swap, as begun.
    pub kind: u32,
    pub cell: u32,
    pub expected: u32,
    pub new: u32,
    // The block that its first load found in the cell.
    pub held: u32,
    // The block that line 4 took: it is being filled, or about to be installed.
    pub taken: u32,
    pub loaded: u32,
    pub steps: u32,
    // Hardware CAS attempts so far, won and lost.
    pub won: u32,
    pub lost: u32,
}

#[derive(Clone, Copy, Debug, PartialEq, Eq)]
pub enum Answer {
    Value(u32),
    Yes,
    No,
}

// Stays (1): a number for the kind; `turn` says of any record that the kind is as begun.
#[derive(Clone, Copy, Debug, PartialEq, Eq)]
pub struct Finished {
    pub kind: u32,
    pub cell: u32,
    pub answer: Answer,
    pub steps: u32,
    pub won: u32,
    pub lost: u32,
}

// The five words of a block, in their order.
#[derive(Clone, Copy, Debug, PartialEq, Eq)]
pub enum Field {
    X,
    Y,
    C,
    V,
    D,
}

// What a step asks of memory.
#[derive(Clone, Copy, Debug, PartialEq, Eq)]
pub enum Access {
    // Which block the cell names.
    LoadCell(u32),
    Load(u32, Field),
    Store(u32, Field, u32),
    // The hardware CAS of a block's D, from none to the value.
    DecideCas(u32, u32),
    // The hardware CAS of a cell's block, from the second to the third number.
    InstallCas(u32, u32, u32),
    // Takes an unused block and stores its X.
    Allocate,
    Nothing,
}
