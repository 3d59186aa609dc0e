// The entry `look`.
ghost use Rattle.std.specs.Prelude.{◌≡◌, ◌+◌, ◌*◌, ◌<◌, length};
ghost use Rattle.cells_spec.specs.Pool.{word};
ghost use Rattle.cells_spec.specs.Answers.{looked_at};
ghost use Rattle.cells_spec.specs.Look.{looked, shown_value};

use cells_questions::fitness::is_fit;
use cells_spec::{Refusal, State};
use cells_step::load;
use figure_lines::Field;
use figure_lines::records::NO_VALUE;

// What a read of the block would find.
fn shown_value(pool: &[u32], block: u32) -> u32
    requires { 5 * block + 4 < length pool.now }
    ensures { result ≡ shown_value (word pool.now block Field.C) (word pool.now block Field.V) (word pool.now block Field.D) }
{
    let v = load(pool, block, Field::V);
    if load(pool, block, Field::C) == 0 {
        return v;
    }
    let d = load(pool, block, Field::D);
    if d == NO_VALUE { v } else { d }
}

pub fn look(s: &State, pool: &[u32], cell: u32) -> Result<u32, Refusal>
    ensures { looked_at result ≡ looked s.now pool.now cell }
{
    if !is_fit(s, pool) {
        return Err(Refusal::Unfit);
    }
    if s.cells <= cell {
        return Err(Refusal::NoSuchCell);
    }
    Ok(shown_value(pool, s.current[cell as usize]))
}
