// The forms after the first line, and the actions that they make.
ghost use Rattle.std.specs.Prelude.{◌≡◌, List, ℕ, ◌+◌, ◌-◌, ◌*◌, ◌≤◌, ◌<◌, length, take, drop};
ghost use Rattle.session_spec.specs.Session.{form as «form_of», list as «list_of», read_line, lines as «lines_of»};
ghost use Rattle.session_reader.specs.Answers.{KeywordIs, HeadIs, HasRoom, RoomIn, SameBuffers, of_form, of_forms, GotIs, SkippedIs, RestIs};

use crate::items::{close, numbers, space};
use crate::keeping::Tables;
use crate::reading::{Keyword, ReadError};
use text::readers::starts_with;

// The word that stands at `at`, and the place after it.
fn keyword(s: &[u8], at: usize) -> Option<(Keyword, usize)>
    requires { at ≤ length s.now }
    ensures { KeywordIs s.now at result }
{
    if let Some(next) = starts_with(s, at, b"(read") {
        return Some((Keyword::Read, next));
    }
    if let Some(next) = starts_with(s, at, b"(swap") {
        return Some((Keyword::Swap, next));
    }
    if let Some(next) = starts_with(s, at, b"(step") {
        return Some((Keyword::Step, next));
    }
    if let Some(next) = starts_with(s, at, b"(drop") {
        return Some((Keyword::Drop, next));
    }
    let next = starts_with(s, at, b"(again")?;
    Some((Keyword::Again, next))
}

// A form's word, and its numbers stored.
fn head(s: &[u8], at: usize, out: &mut [u32]) -> Option<(Keyword, usize)>
    requires at_in_bounds { at ≤ length s.now }
    requires in_bounds { 4 ≤ length out.old }
    ensures { HeadIs s.now at out.old out.new result }
{
    let (word, a) = keyword(s, at)?;
    let next = numbers(s, a, word.arity(), out)?;
    Some((word, next))
}

// Form and list call each other: depth left, at most 8, and bytes left fall.

// The form that starts at `at`, at most `depth` deep. Returns whether there were more actions than fit, and the place after
// the form.
#[cycle(form_list)]
fn form(s: &[u8], at: usize, depth: usize, tables: &mut Tables) -> Option<(bool, usize)>
    requires depth_bound { depth ≤ 8 }
    requires room { RoomIn s.now at tables.old }
    ensures same { SameBuffers tables.old tables.new }
    ensures got { GotIs of_form («form_of» depth) s.now at 8 tables.old tables.new result }
{
    if depth == 0 {
        return None;
    }
    let mut numbers = [0u32; 4];
    let (word, a) = head(s, at, &mut numbers)?;
    let f = tables.f;
    let n = tables.n;
    match word {
        // Of forms that stand no times nothing is kept: they are read with no room for an action.
        Keyword::Again if numbers[0] == 0 => {
            let actions = &mut *tables.actions;
            let next = skipped(s, a, depth - 1, tables.forms, f, &mut actions[..n], n)?;
            Some((false, next))
        }
        Keyword::Again => {
            let (over, next) = list(s, a, depth - 1, tables)?;
            Some((tables.again(f, n, numbers[0], over), next))
        }
        act => {
            let next = close(s, a)?;
            Some((tables.keep(u32::from(act), &numbers), next))
        }
    }
}

// The place after a list that is read with no room for an action.
#[cycle(form_list)]
fn skipped(
    s: &[u8],
    at: usize,
    depth: usize,
    forms: &mut [u32],
    f: usize,
    actions: &mut [u32],
    n: usize,
) -> Option<usize>
    requires depth_bound { depth ≤ 8 }
    requires room { HasRoom s.now at forms.old f actions.old n }
    requires full { length actions.old ≡ n }
    ensures { SkippedIs («list_of» («form_of» depth)) s.now at forms.old forms.new actions.old actions.new result }
{
    let mut full = Tables {
        forms,
        actions,
        f,
        n,
    };
    let (_, next) = list(s, at, depth, &mut full)?;
    Some(next)
}

// The forms of a list up to its bracket, each at most `depth` deep.
#[cycle(form_list)]
fn list(s: &[u8], at: usize, depth: usize, tables: &mut Tables) -> Option<(bool, usize)>
    requires depth_bound { depth ≤ 8 }
    requires room { RoomIn s.now at tables.old }
    ensures same { SameBuffers tables.old tables.new }
    ensures got { GotIs of_forms («list_of» («form_of» depth)) s.now at 1 tables.old tables.new result }
{
    let mut i = at;
    let mut over = false;
    // Stays (3): the bracket that ends the list is read within, so no count is known before.
    loop {
        if let Some(next) = close(s, i) {
            return Some((over, next));
        }
        let a = space(s, i)?;
        let (more, next) = form(s, a, depth, tables)?;
        over |= more;
        i = next;
    }
}

// The line that starts at `at`: one form and byte 10.
fn line(s: &[u8], at: usize, tables: &mut Tables) -> Option<(bool, usize)>
    requires { RoomIn s.now at tables.old }
    ensures same { SameBuffers tables.old tables.new }
    ensures got { GotIs of_form read_line s.now at 8 tables.old tables.new result }
{
    let (over, a) = form(s, at, 8, tables)?;
    let next = starts_with(s, a, b"\n")?;
    Some((over, next))
}

// All lines from `at` on.
fn all_lines(s: &[u8], at: usize, tables: &mut Tables) -> Option<(bool, usize)>
    requires { RoomIn s.now at tables.old }
    ensures same { SameBuffers tables.old tables.new }
    ensures got { GotIs of_forms «lines_of» s.now at 0 tables.old tables.new result }
{
    let mut i = at;
    let mut over = false;
    // Stays (3): each line says where the next one starts.
    while i < s.len() {
        let (more, next) = line(s, i, tables)?;
        over |= more;
        i = next;
    }
    Some((over, i))
}

// All lines from `at` on: forms and actions are left in the buffers. Returns how many actions.
pub fn lines(
    s: &[u8],
    at: usize,
    forms: &mut [u32],
    actions: &mut [u32],
) -> Result<usize, ReadError>
    requires { HasRoom s.now at forms.old 0 actions.old 0 }
    ensures { RestIs s.now at forms.old forms.new actions.old actions.new result }
{
    let mut tables = Tables {
        forms,
        actions,
        f: 0,
        n: 0,
    };
    let (over, _) = all_lines(s, at, &mut tables).ok_or(ReadError::Form)?;
    if over {
        return Err(ReadError::TooMany);
    }
    Ok(tables.n)
}
