// Where a call takes effect, by the source's rules.
ghost use Rattle.std.specs.Prelude.{◌≡◌, cond, [], eqb, ◌≤◌, ◌<◌, length};
ghost use Rattle.figure_lines.specs.Answers.{answer_of};
ghost use Rattle.figure_lines.specs.Basics.{within};
ghost use Rattle.figure_lines.specs.declared.Record.{Record};
ghost use Rattle.figure_moments.specs.Moments.{ruled, line_c6, spot_at, effect as «effect_of»};
ghost use Rattle.history_spec.specs.Moments.{Rule, C1, side_number};
ghost use Rattle.moments_spec.specs.Lines.{side_word, rule_word};
ghost use Rattle.moments_tool.specs.Words.{rule_number, side_at, rule_numbered};
ghost use Rattle.moments_tool.specs.Notes.{sight_of, own_notes, side_meant, rule_meant, spot_meant};

use crate::sights::{Own, Sight};
use figure_lines::{Answer, Record};

// At the action, or immediately before or after it.
#[derive(Clone, Copy)]
pub enum Side {
    Before,
    Itself,
    After,
}

// The labels in the source's list.
#[derive(Clone, Copy)]
pub enum Rule {
    R1,
    R2,
    C1,
    C2,
    C3,
    C4,
    C5,
    C6,
}

#[derive(Clone, Copy)]
pub struct Spot {
    pub moment: u16,
    pub side: Side,
    pub rule: Rule,
}

impl Side {
    // Its number in a mark's word.
    // Stays (4): with `numbered` it lays out a word of this tool's own, and promises its bound.
    pub fn number(self) -> u32
        ensures { (result ≡ side_number (side_meant self)) × (result ≤ 2) }
    {
        match self {
            Side::Before => 0,
            Side::Itself => 1,
            Side::After => 2,
        }
    }

    // Stays (4): of a pair with `Rule::numbered`.
    pub fn numbered(n: u32) -> Side
        ensures { side_meant result ≡ side_at n }
    {
        match n {
            0 => Side::Before,
            1 => Side::Itself,
            _ => Side::After,
        }
    }

    // Stays (4): bytes of a line; a write by Display promises no success.
    pub fn text(self) -> &'static [u8]
        ensures { (result.now ≡ side_word (side_meant self)) × (length result.now ≤ 8) }
    {
        match self {
            Side::Before => b" before ",
            Side::Itself => b" itself ",
            Side::After => b" after ",
        }
    }
}

impl Rule {
    // Its number in a mark's word.
    // Stays (4): with `numbered` it lays out a word of this tool's own, and promises its bound.
    pub fn number(self) -> u32
        ensures { (result ≡ rule_number (rule_meant self)) × (result ≤ 7) }
    {
        match self {
            Rule::R1 => 0,
            Rule::R2 => 1,
            Rule::C1 => 2,
            Rule::C2 => 3,
            Rule::C3 => 4,
            Rule::C4 => 5,
            Rule::C5 => 6,
            Rule::C6 => 7,
        }
    }

    // Stays (4): it requires n < 8, for which From has no place, and TryFrom would need an error that never comes.
    pub fn numbered(n: u32) -> Rule
        requires { n < 8 }
        ensures { rule_meant result ≡ rule_numbered n }
    {
        match n {
            0 => Rule::R1,
            1 => Rule::R2,
            2 => Rule::C1,
            3 => Rule::C2,
            4 => Rule::C3,
            5 => Rule::C4,
            6 => Rule::C5,
            _ => Rule::C6,
        }
    }

    // Stays (4): bytes of a line; a write by Display promises no success.
    pub fn text(self) -> &'static [u8]
        ensures { (result.now ≡ rule_word (rule_meant self)) × (length result.now ≤ 5) }
    {
        match self {
            Rule::R1 => b" R1)\n",
            Rule::R2 => b" R2)\n",
            Rule::C1 => b" C1)\n",
            Rule::C2 => b" C2)\n",
            Rule::C3 => b" C3)\n",
            Rule::C4 => b" C4)\n",
            Rule::C5 => b" C5)\n",
            Rule::C6 => b" C6)\n",
        }
    }
}

// The line in the figure's list: lines 1 to 3 are run for the one that wanted the decision.
fn figure_line(r: Record) -> u32
    ensures { result ≡ cond (within r.line 1 3) r.wanted r.line }
{
    if matches!(r.line, 1..=3) {
        r.wanted
    } else {
        r.line
    }
}

pub fn itself(moment: u16, rule: Rule) -> Spot
    ensures { spot_meant result ≡ spot_at moment (rule_meant rule) }
{
    Spot {
        moment,
        side: Side::Itself,
        rule,
    }
}

// A swap of equal values is placed where its read is, by C1.
fn read_rule(kind: u32, rule: Rule) -> Rule
    ensures { rule_meant result ≡ cond (eqb kind 2) C1 (rule_meant rule) }
{
    if kind == 2 { Rule::C1 } else { rule }
}

fn effect(o: Own) -> u16
    ensures { result ≡ «effect_of» (own_notes 0 o) 0 }
{
    if o.active { o.stored } else { o.inactive }
}

fn line_c6(x: Sight, a: Answer, i: u16, o: Own) -> Spot
    ensures { (r : Record) → spot_meant result ≡ line_c6 (own_notes i o) 0 (sight_of 0 r x []) (answer_of a) }
{
    match a {
        Answer::No => Spot {
            moment: o.replaced,
            side: if x.as_expected {
                Side::After
            } else {
                Side::Before
            },
            rule: Rule::C6,
        },
        Answer::Yes | Answer::Value(_) => itself(i, Rule::C6),
    }
}

// By the line from which the call returns; no call returns from another.
// Stays (7): a record has its line as a number (figure_lines).
pub fn ending(r: Record, x: Sight, a: Answer, i: u16, o: Own) -> Spot
    ensures { spot_meant result ≡ ruled (own_notes i o) 0 (sight_of 0 r x []) (answer_of a) }
{
    let line = figure_line(r);
    match line {
        12 => itself(o.loaded, read_rule(r.kind, Rule::R1)),
        13 => itself(o.decided, read_rule(r.kind, Rule::R2)),
        22 => itself(o.loaded, Rule::C2),
        25 => itself(effect(o), Rule::C3),
        26 => itself(o.stored, Rule::C4),
        28 => itself(o.decided, Rule::C5),
        30 => line_c6(x, a, i, o),
        _ => itself(0, Rule::R1),
    }
}

// It has stored its new value, and has not found another one decided.
pub fn has_stored(r: Record) -> bool
    ensures { result ≡ within (cond (within r.line 1 3) r.wanted r.line) 24 26 }
{
    matches!(figure_line(r), 24..=26)
}
