// The lent pool: a block is five neighbouring words.
ghost use Rattle.std.specs.Prelude.{◌≡◌, cond, ℕ, ◌+◌, ◌*◌, ◌<◌, length};
ghost use Rattle.std.proofs.Math.Option.{none};
ghost use Rattle.figure_lines.specs.declared.Access.TheVariants.{DecideCas};
ghost use Rattle.cells_spec.specs.Pool.{word, set_word, fill};
ghost use Rattle.cells_spec.specs.Memory.{touched, performed};

use figure_lines::Field;
use figure_lines::records::NO_VALUE;

// Stays (5): `step` is lent pool and state as two arguments; a struct of both would be made for each access, and taken apart at once.

// X where no task has written it.
pub const NO_TASK: u32 = 255;

pub fn load(pool: &[u32], block: u32, field: Field) -> u32
    requires { 5 * block + 4 < length pool.now }
    ensures { result ≡ word pool.now block field }
{
    pool[5 * block as usize + field as usize]
}

pub fn store(pool: &mut [u32], block: u32, field: Field, v: u32)
    requires { 5 * block + 4 < length pool.old }
    ensures { pool.new ≡ set_word pool.old block field v }
{
    let words = &mut pool[5 * block as usize..];
    words[field as usize] = v;
}

// The words of a block that an opening fills.
pub fn fill(pool: &mut [u32], block: u32, v: u32)
    requires { 5 * block + 4 < length pool.old }
    ensures { pool.new ≡ fill pool.old block v }
{
    let start = 5 * block as usize;
    pool[start..start + 5].copy_from_slice(&[NO_TASK, 0, 0, v, NO_VALUE]);
}

// The hardware CAS of D, from none: whether it succeeds.
pub fn decide_cas(pool: &mut [u32], block: u32, v: u32) -> bool
    requires { 5 * block + 4 < length pool.old }
    ensures { (c l : ℕ) → touched pool.new c l (cond result 1 0) ≡ performed pool.old c l none (DecideCas block v) }
{
    let undecided = load(pool, block, Field::D) == NO_VALUE;
    if undecided {
        store(pool, block, Field::D, v);
    }
    undecided
}
