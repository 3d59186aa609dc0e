// What a case of standard input says.
use cells::opening_state::open_state;
use cells::{Record, State};
use figure_lines::records::idle;

// The calls' numbers.
#[derive(Clone, Copy)]
pub struct CallNumbers {
    pub task: u32,
    pub cell: u32,
    pub expected: u32,
    pub new: u32,
}

#[derive(Clone, Copy)]
pub struct EntryCase {
    // The record is that of task `whose`.
    state: State,
    pub record: Record,
    whose: u32,
    // Of the pool only so many are lent.
    pub words: u32,
    pub call: CallNumbers,
    // The block whose count Z sets.
    block: u32,
    // So many steps over the record, lent; else so many drops; else so many values are given to open.
    pub lent: u32,
    pub drops: u32,
    pub given: u32,
    pub second: u32,
}

impl EntryCase {
    // Three tasks, two cells, eight blocks, all idle; task 0 is to swap 5 for 7; the second value is 6.
    pub fn plain() -> EntryCase {
        EntryCase {
            state: open_state(3, 2, 8),
            record: idle(),
            whose: 0,
            words: 40,
            call: CallNumbers {
                task: 0,
                cell: 0,
                expected: 5,
                new: 7,
            },
            block: 0,
            lent: 0,
            drops: 0,
            given: 0,
            second: 6,
        }
    }

    // Sets the letter's word.
    pub fn set(&mut self, letter: u8, n: u32) {
        match letter {
            b'a' => self.state.tasks = n,
            b'b' => self.state.cells = n,
            b'c' => self.state.blocks = n,
            b'd' => self.state.last = n,
            b'e' => self.state.current[1] = n,
            b'f' => self.state.current[2] = n,
            b'g' => self.words = n,
            b'h' => self.whose = n,
            b'i'..=b's' => self.set_record(letter, n),
            b't' => self.call.task = n,
            b'u' => self.call.cell = n,
            b'v' => self.call.expected = n,
            b'w' => self.call.new = n,
            b'x' => self.given = n,
            b'y' => self.second = n,
            b'z' => self.block = n,
            b'Z' => {
                if let Some(count) = self.state.counts.get_mut(self.block as usize) {
                    *count = (n % 256) as u8;
                }
            }
            b'L' => self.lent = n,
            b'D' => self.drops = n,
            _ => {}
        }
    }

    fn set_record(&mut self, letter: u8, n: u32) {
        let r = &mut self.record;
        match letter {
            b'i' => r.line = n,
            b'j' => r.wanted = n,
            b'k' => r.kind = n,
            b'l' => r.cell = n,
            b'm' => r.expected = n,
            b'n' => r.new = n,
            b'o' => r.held = n,
            b'p' => r.taken = n,
            b'q' => r.steps = n,
            b'r' => r.won = n,
            b's' => r.lost = n,
            _ => {}
        }
    }

    // A task beyond the records has none.
    pub fn state(&self) -> State {
        let mut s = self.state;
        if let Some(r) = s.records.get_mut(self.whose as usize) {
            *r = self.record;
        }
        s
    }
}
