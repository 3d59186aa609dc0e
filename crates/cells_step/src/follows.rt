// What follows a line, in the record's place. None says that the call goes on.
ghost use Rattle.std.specs.Prelude.{◌≡◌};
ghost use Rattle.figure_lines.specs.Answers.{answer_of as «responseOf»};
ghost use Rattle.figure_lines.specs.Lines.{goto as «gotoOf», decide as «decideOf», hold as «holdOf», load as «load_of», take as «take_of», answer as «answer_of», read_answer};
ghost use Rattle.figure_lines.specs.declared.Record.{Record};
ghost use Rattle.cells_spec.specs.LineRun.{followed};

use figure_lines::{Answer, Finished, Record};

pub fn goto(r: &mut Record, line: u32) -> Option<Finished>
    ensures { followed r.exit.now result ≡ «gotoOf» r.entry.now line }
{
    r.line = line;
    None
}

// To the deciding part, for a line that wants it.
pub fn decide(r: &mut Record, wanted: u32) -> Option<Finished>
    ensures { followed r.exit.now result ≡ «decideOf» r.entry.now wanted }
{
    r.line = 1;
    r.wanted = wanted;
    None
}

pub fn hold(r: &mut Record, line: u32, block: u32) -> Option<Finished>
    ensures { followed r.exit.now result ≡ «holdOf» r.entry.now line block }
{
    r.line = line;
    r.held = block;
    None
}

pub fn keep(r: &mut Record, line: u32, v: u32) -> Option<Finished>
    ensures { followed r.exit.now result ≡ «load_of» r.entry.now line v }
{
    r.line = line;
    r.loaded = v;
    None
}

pub fn take(r: &mut Record, line: u32, block: u32) -> Option<Finished>
    ensures { followed r.exit.now result ≡ «take_of» r.entry.now line block }
{
    r.line = line;
    r.taken = block;
    None
}

pub fn answer(r: &Record, answer: Answer) -> Option<Finished>
    ensures { (q : Record) → followed q result ≡ «answer_of» r.entry.now («responseOf» answer) }
{
    Some(Finished {
        kind: r.kind,
        cell: r.cell,
        answer,
        steps: r.steps,
        won: r.won,
        lost: r.lost,
    })
}

// Line 14 makes a read of a swap of equal values.
pub fn answer_read(r: &Record, v: u32) -> Option<Finished>
    ensures { (q : Record) → followed q result ≡ «answer_of» r.entry.now (read_answer r.entry.now v) }
{
    if r.kind != 2 {
        answer(r, Answer::Value(v))
    } else if v == r.expected {
        answer(r, Answer::Yes)
    } else {
        answer(r, Answer::No)
    }
}
