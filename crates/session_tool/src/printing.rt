// The lines that a session prints. Room for any of them is 67 bytes, for a finished call 78, for the end 90; with the numbers that a session has,
// the line of an action takes at most 36.
ghost use Rattle.std.specs.Prelude.{[], ◌∷◌, ◌+◌, ◌≤◌, length};
ghost use Rattle.figure_lines.specs.Answers.{answer_of, result_of};
ghost use Rattle.history_spec.specs.History.{untried};
ghost use Rattle.cells_spec.specs.Answers.{Ended};
ghost use Rattle.cells_spec.specs.Events.{kind_at, report_of, event_of};
ghost use Rattle.text.specs.Bytes.{decimal};
ghost use Rattle.text.specs.Lines.{line};
ghost use Rattle.text.specs.Page.{Written};
ghost use Rattle.session_spec.specs.Lines.{no_line, cell_line, kind_word, answer_word, done_start, done_line, end_line, FewDigits};

use figure_lines::{Answer, Finished};
use rate::lisqotay_rate;
use text::page::Page;

fn put_pair(page: &mut Page<'_>, start: &[u8], a: u32, b: u32)
    requires { (page.old.at + 67 ≤ length page.old.bytes.now) × (length start.now ≤ 12) }
    ensures written { Written page.old page.new (line start.now (a ∷ b ∷ [])) }
    ensures upper_bound { page.new.at ≤ page.old.at + 36 }
{
    page.line(start, &[u64::from(a), u64::from(b)]);
}

pub fn put_no(page: &mut Page<'_>, action: u32, n: u32)
    requires { page.old.at + 67 ≤ length page.old.bytes.now }
    ensures written { Written page.old page.new (no_line action n) }
    ensures upper_bound { page.new.at ≤ page.old.at + 36 }
{
    put_pair(page, b"(no", action, n);
}

pub fn put_cell(page: &mut Page<'_>, cell: u32, value: u32)
    requires { page.old.at + 67 ≤ length page.old.bytes.now }
    ensures written { Written page.old page.new (cell_line cell value) }
    ensures upper_bound { page.new.at ≤ page.old.at + 67 }
{
    put_pair(page, b"(cell", cell, value);
}

// A number of 32 bits has at most ten digits.
fn put_small(page: &mut Page<'_>, n: u32)
    requires { page.old.at + 10 ≤ length page.old.bytes.now }
    ensures written { Written page.old page.new (decimal n) }
    ensures upper_bound { page.new.at ≤ page.old.at + 10 }
{
    page.number(u64::from(n));
}

fn put_answer(page: &mut Page<'_>, a: Answer)
    requires { page.old.at + 10 ≤ length page.old.bytes.now }
    ensures written { Written page.old page.new (answer_word (answer_of a)) }
    ensures upper_bound { page.new.at ≤ page.old.at + 10 }
{
    match a {
        Answer::Value(v) => put_small(page, v),
        Answer::Yes => page.put(b"yes"),
        Answer::No => page.put(b"no"),
    }
}

// Stays (1): `turn` says of any record that a finished call has its kind, so it is a number, which `kind_at` names.
fn put_kind(page: &mut Page<'_>, kind: u32)
    requires { page.old.at + 6 ≤ length page.old.bytes.now }
    ensures written { Written page.old page.new (kind_word (kind_at kind)) }
    ensures upper_bound { page.new.at ≤ page.old.at + 6 }
{
    if kind == 1 {
        page.put(b" read ");
    } else {
        page.put(b" swap ");
    }
}

fn put_done_start(page: &mut Page<'_>, task: u32, f: Finished)
    requires { page.old.at + 43 ≤ length page.old.bytes.now }
    ensures written { Written page.old page.new (done_start task (report_of (result_of f))) }
    ensures few_digits { (page.new.at ≤ page.old.at + 43) × (page.new.at ≤ page.old.at + 23 + (length (decimal task) + length (decimal f.cell))) }
{
    page.put(b"(done ");
    put_small(page, task);
    put_kind(page, f.kind);
    put_small(page, f.cell);
    page.put(b" ");
    put_answer(page, f.answer);
}

pub fn put_done(page: &mut Page<'_>, task: u32, f: Finished)
    requires { page.old.at + 78 ≤ length page.old.bytes.now }
    ensures written { Written page.old page.new (done_line task (report_of (result_of f))) }
    ensures few_digits { FewDigits task (event_of untried (Ended (result_of f))) → page.new.at ≤ page.old.at + 36 }
{
    put_done_start(page, task, f);
    page.numbers(&[u64::from(f.steps), u64::from(f.won), u64::from(f.lost)]);
    page.put(b")\n");
}

pub fn put_end(page: &mut Page<'_>, finished: u32, pending: u64, hard: u32)
    requires { page.old.at + 90 ≤ length page.old.bytes.now }
    ensures { Written page.old page.new (end_line finished pending hard) }
{
    let rate = lisqotay_rate(hard, finished);
    page.line(
        b"(end",
        &[u64::from(finished), pending, u64::from(hard), rate],
    );
}
