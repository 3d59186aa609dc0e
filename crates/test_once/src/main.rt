// Runs lists of moves on once-only cells: standard input, then each file that an argument names. A line is one of
// (open N V), (offer T K value), (step T); each open starts a list. Prints (no i R) for a refused move, i counted from 0
// after its open, and (done T K value steps hard) for a finished call. After a refused open, moves are skipped. A line that
// is no form and a first one that is no open give (bad 14), and end.
#![tactic(auto)]

ghost use Rattle.std.specs.Prelude.{◌≤◌};

use once::{Agreement, OnceState, Refusal};
use program_io::arguments::argument_count;
use program_io::case_files::{NAME_ROOM, open_case};
use program_io::report::{read_all, say};
use std::io::{Error, Read, Result, Write, writer};
use std::result;
use std::rt::{Env, Files};
use text::readers::starts_with;

// READING

#[derive(Clone, Copy, Debug, PartialEq, Eq)]
enum Form {
    Open(u32, u32),
    Offer(u32, u32, u32),
    Step(u32),
}

// The numbers of a form, from its word to the line's end.
fn read_numbers<const N: usize>(s: &[u8], word: &[u8]) -> Option<[u32; N]> {
    let mut numbers = [0; N];
    let from = starts_with(s, 0, word)?;
    let to = session_reader::numbers(s, from, N, &mut numbers)?;
    starts_with(s, to, b")\n")?;
    Some(numbers)
}

fn read_line(s: &[u8]) -> Option<Form> {
    if let Some(n) = read_numbers::<1>(s, b"(step") {
        return Some(Form::Step(n[0]));
    }
    if let Some(n) = read_numbers::<2>(s, b"(open") {
        return Some(Form::Open(n[0], n[1]));
    }
    let n = read_numbers::<3>(s, b"(offer")?;
    Some(Form::Offer(n[0], n[1], n[2]))
}

// PLAYING

// Why an input's lines are not played to their end.
#[derive(Drop)]
enum Stop {
    BadLine,
    Output(Error),
}

impl From<Error> for Stop {
    fn from(error: Error) -> Stop {
        Stop::Output(error)
    }
}

// There was no open; the last one was refused; it acted, and the next move has this number.
// Stays (1): three states of a list, with what each has; an Option would hide two of them.
#[derive(Clone, Copy, Debug, PartialEq, Eq)]
enum List {
    Absent,
    Refused,
    Opened(u32),
}

#[derive(Drop)]
struct Player {
    state: OnceState,
    list: List,
}

fn print_refused(rt: &impl Print, action: u32, why: Refusal) -> Result<()> {
    println!(rt; "(no {action} {})", u32::from(why))
}

fn print_agreed(rt: &impl Print, task: u32, a: Agreement) -> Result<()> {
    println!(rt;
        "(done {task} {} {} {} {})",
        a.cell, a.value, a.steps, a.hard
    )
}

impl Player {
    // Any state may be opened.
    fn new() -> Player {
        Player {
            state: OnceState::default(),
            list: List::Absent,
        }
    }

    fn open(&mut self, rt: &impl Print, tasks: u32, cells: u32) -> Result<()> {
        match once::open(&mut self.state, tasks, cells) {
            Ok(()) => {
                self.list = List::Opened(0);
                Ok(())
            }
            Err(why) => {
                self.list = List::Refused;
                print_refused(rt, 0, why)
            }
        }
    }

    fn play(&mut self, rt: &impl Print, form: Form) -> result::Result<(), Stop> {
        match (form, self.list) {
            (Form::Open(tasks, cells), _) => self.open(rt, tasks, cells)?,
            (_, List::Absent) => return Err(Stop::BadLine),
            (_, List::Refused) => {}
            (Form::Offer(task, cell, value), List::Opened(action)) => {
                self.list = List::Opened(action.wrapping_add(1));
                if let Err(why) = once::begin_offer(&mut self.state, task, cell, value) {
                    print_refused(rt, action, why)?;
                }
            }
            (Form::Step(task), List::Opened(action)) => {
                self.list = List::Opened(action.wrapping_add(1));
                match once::step(&mut self.state, task) {
                    Ok(None) => {}
                    Ok(Some(agreement)) => print_agreed(rt, task, agreement)?,
                    Err(why) => print_refused(rt, action, why)?,
                }
            }
        }
        Ok(())
    }
}

// INPUT OF ANY LENGTH, a buffer at a time

// More than the longest line of a form has, (offer 4294967295 4294967295 4294967295) and its end: of a longer one only so
// much is kept, which is no form.
const ROOM: usize = 64;

// The bytes kept of a line that has not ended.
#[derive(Drop)]
struct Line {
    bytes: [u8; ROOM],
    held: usize,
    ghost within: { held ≤ 64 },
}

impl Line {
    fn new() -> Line {
        Line {
            bytes: [0; ROOM],
            held: 0,
        }
    }

    fn keep(&mut self, byte: u8) {
        if self.held < ROOM {
            self.bytes[self.held] = byte;
            self.held += 1;
        }
    }

    fn end(&mut self) -> Option<Form> {
        let form = read_line(&self.bytes[..self.held]);
        self.held = 0;
        form
    }
}

// Plays the lines that end in a part of the input.
fn play_part(
    rt: &impl Print,
    part: &[u8],
    line: &mut Line,
    player: &mut Player,
) -> result::Result<(), Stop> {
    for byte in part {
        line.keep(*byte);
        if *byte == b'\n' {
            let form = line.end().ok_or(Stop::BadLine)?;
            player.play(rt, form)?;
        }
    }
    Ok(())
}

// A program has to end: so many parts are more than any input has.
fn play_all(
    rt: &impl Print,
    from: &mut impl Read,
    name: &[u8],
    errors: &mut impl Write,
) -> result::Result<(), Stop> {
    let mut buf = [0; 4096];
    let mut line = Line::new();
    let mut player = Player::new();
    for _ in 0..usize::MAX {
        let (n, whole) = match read_all(from, &mut buf, name, errors) {
            Ok(n) => (n, true),
            Err(cut) => (cut.count, false),
        };
        play_part(rt, &buf[..n], &mut line, &mut player)?;
        if !whole {
            break;
        }
        if n < buf.len() {
            // A last line may have no end, and is then no form.
            if line.held > 0 {
                return Err(Stop::BadLine);
            }
            break;
        }
    }
    Ok(())
}

fn run(rt: &impl Print, from: &mut impl Read, name: &[u8], errors: &mut impl Write) {
    let printed = match play_all(rt, from, name, errors) {
        Ok(()) => Ok(()),
        Err(Stop::BadLine) => println!(rt; "(bad 14)"),
        Err(Stop::Output(error)) => Err(error),
    };
    if let Err(error) = printed {
        say(errors, b"output", error);
    }
}

fn run_case<R: Env + Files + Print>(rt: &R, i: usize, errors: &mut impl Write) {
    let mut name = [0; NAME_ROOM];
    let case = open_case(rt, i, &mut name, &mut writer(rt), errors);
    let length = case.length;
    if let Some(mut from) = case.file {
        run(rt, &mut from, &name[..length], errors);
    }
}

fn main(rt: HostRuntime) {
    let mut errors = rt.stderr();
    run(&rt, &mut rt.stdin(), b"standard input", &mut errors);
    for i in 1..argument_count(&rt) {
        run_case(&rt, i, &mut errors);
    }
}
