// Reads a session file and opens the cells for it, as every tool on a session does first.
ghost use Rattle.std.specs.Prelude.{◌≡◌, List, map, ℕ, ◌≤◌, length, take, replicate};
ghost use Rattle.cells_spec.specs.Open.{opened, blank as «blankOf»};
ghost use Rattle.session_spec.specs.Session.{verdict};
ghost use Rattle.session_reader.specs.Reading.{act_at};
ghost use Rattle.session_reader.specs.Tables.{buffers, after_reading};
ghost use Rattle.session_spec.specs.Printed.{pool_words};
ghost use Rattle.session_engine.specs.declared.start.StartError.TheVariants as error;
ghost use Rattle.session_engine.specs.Start.{start_after, start_of, start_at, state_after, in_pool, pool_of, Opens, Startable};

use cells::blank;
use cells_spec::{Refusal, State};
use session_reader::read_session;
use session_reader::reading::{ReadError, Session};

// Why there is nothing to play.
#[derive(Clone, Copy, Debug, PartialEq, Eq)]
pub enum StartError {
    NoSession(ReadError),
    NotOpened(Refusal),
}

impl From<ReadError> for StartError {
    ghost from_gives = { λ why e. e ≡ error.NoSession why };

    fn from(why: ReadError) -> StartError {
        StartError::NoSession(why)
    }
}

impl From<Refusal> for StartError {
    ghost from_gives = { λ refusal e. e ≡ error.NotOpened refusal };

    fn from(refusal: Refusal) -> StartError {
        StartError::NotOpened(refusal)
    }
}

// Opened cells, how many words of the pool are theirs, and how many actions were read.
#[derive(Clone, Copy)]
pub struct Started {
    pub state: State,
    pub words: usize,
    pub actions: usize,
}

// Five words for each block, at most 128; more are refused whatever the pool has.
fn pool_words(blocks: u32) -> usize
    ensures { (result ≡ pool_words blocks) × (result ≤ 640) }
{
    if blocks <= 128 {
        5 * blocks as usize
    } else {
        640
    }
}

fn open_pool(pool: &mut [u32], session: Session, values: &[u32]) -> Result<Started, StartError>
    requires { pool.old ≡ replicate 640 0 }
    ensures by_index { (forms kept : List ℕ) → start_at result forms kept pool.new ≡ start_after session.tasks session.cells (map (act_at forms) (take session.actions kept)) (opened «blankOf» (replicate (pool_words session.blocks) 0) session.tasks session.cells session.blocks values.now) }
    ensures opens { Opens result session.actions pool.new }
    ensures pool_after { (state_after result, pool.new) ≡ in_pool (opened «blankOf» (replicate (pool_words session.blocks) 0) session.tasks session.cells session.blocks values.now) }
{
    let Session {
        tasks,
        cells,
        blocks,
        actions,
        ..
    } = session;
    let words = pool_words(blocks);
    let mut state = blank();
    cells::open(&mut state, &mut pool[..words], tasks, cells, blocks, values)?;
    Ok(Started {
        state,
        words,
        actions,
    })
}

// The buffers have the sizes that session_reader names, the pool is a new one.
// Stays (5): how long a lent buffer is, is asked where it is lent.
// Stays (6): four buffers for four different things, no parallel arrays.
pub fn open_session(
    file: &[u8],
    values: &mut [u32],
    forms: &mut [u32],
    kept: &mut [u32],
    pool: &mut [u32],
) -> Result<Started, StartError>
    requires { (length values.old ≡ 32768) × (length forms.old ≡ 40960) × (length kept.old ≡ 65535) × (pool.old ≡ replicate 640 0) }
    ensures pool_after { start_at result forms.new kept.new pool.new ≡ start_of (verdict file.now) }
    ensures startable { Startable result forms.new kept.new pool.new }
    ensures kept_after { buffers values.new forms.new kept.new ≡ after_reading file.now (buffers values.old forms.old kept.old) }
    ensures pool_after_2 { (state_after result, pool.new) ≡ pool_of (verdict file.now) }
{
    let session = read_session(file, values, forms, kept)?;
    open_pool(pool, session, &values[..session.values])
}
