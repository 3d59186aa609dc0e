// Marks as words, and their lines.
ghost use Rattle.std.specs.Prelude.{◌≡◌, cond, ◌+◌, ◌*◌, ◌/◌, ◌%◌, ◌≤◌, ◌<◌, length};
ghost use Rattle.figure_lines.specs.Answers.{answer_of};
ghost use Rattle.history_spec.specs.History.{a_read, a_swap};
ghost use Rattle.history_spec.specs.Moments.{changes as «changesOf»};
ghost use Rattle.figure_lines.specs.Record.{op_of};
ghost use Rattle.text.specs.Bytes.{decimal};
ghost use Rattle.text.specs.Page.{Written};
ghost use Rattle.session_spec.specs.Lines.{kind_word};
ghost use Rattle.moments_tool.specs.Notes.{spot_meant};
ghost use Rattle.moments_tool.specs.Words.{mark_word, word_line, word_lines};

use crate::spots::{Rule, Side, Spot};
use figure_lines::{Answer, Record};
use text::page::Page;

fn changes(r: Record, a: Answer) -> bool
    ensures { result ≡ «changesOf» (op_of r) (answer_of a) }
{
    matches!(a, Answer::Yes) & (r.kind != 1) & (r.expected != r.new)
}

// The word of a call there, of task t with the record r.
pub fn word_of(q: Spot, r: Record, a: Answer, t: u32) -> u32
    requires { (t < 32) × (r.cell < 16) }
    ensures { result ≡ mark_word (spot_meant q) (op_of r) t (answer_of a) }
{
    let still = u32::from(!changes(r, a));
    let kind = u32::from(r.kind != 1);
    let rank = u32::from(q.moment) * 256 + (q.side.number() * 64 + (still * 32 + t));
    rank * 256 + (kind * 128 + (r.cell * 8 + q.rule.number()))
}

fn kind_text(read: bool) -> &'static [u8]
    ensures { (result.now ≡ kind_word (cond read a_read a_swap)) × (length result.now ≤ 6) }
{
    if read { b" read " } else { b" swap " }
}

// A number of at most five digits.
fn put_small(page: &mut Page<'_>, n: u32)
    requires { (page.old.at + 5 ≤ length page.old.bytes.now) × (n < 100000) }
    ensures written { Written page.old page.new (decimal n) }
    ensures upper_bound { (page.new.at ≤ page.old.at + 5) × (n < 100 → page.new.at ≤ page.old.at + 2) }
{
    page.number(u64::from(n));
}

// The line of a mark, of at most 32 bytes.
fn put_mark(page: &mut Page<'_>, w: u32)
    requires { page.old.at + 40 ≤ length page.old.bytes.now }
    ensures written { Written page.old page.new (word_line w) }
    ensures upper_bound { page.new.at ≤ page.old.at + 32 }
{
    page.put(b"(at ");
    put_small(page, w / 65536);
    page.put(Side::numbered(w / 16384 % 4).text());
    put_small(page, w / 256 % 32);
    page.put(kind_text(w / 128 % 2 == 0));
    put_small(page, w / 8 % 16);
    page.put(Rule::numbered(w % 8).text());
}

pub fn put_marks(page: &mut Page<'_>, words: &[u32])
    requires { page.old.at + 32 * length words.now + 40 ≤ length page.old.bytes.now }
    ensures { Written page.old page.new (word_lines words.now) }
{
    for &w in words {
        put_mark(page, w);
    }
}
