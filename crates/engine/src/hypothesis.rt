// A port of parts of src/verify.rs of metamath-rs 0.3.9 (prepare_hypothesis), changed (see NOTICE).
// Preparing a $f or $e: its variable is numbered, and its symbols go into the pool.
ghost use Rattle.std.specs.Prelude.{◌≤◌, ◌<◌, length};
ghost use Rattle.engine.specs.Hypothesis.{Prepares};

use machine::Refusal;
use packed::substitute::do_substitute_raw;
use variables::map_float;

// A hypothesis that is ready: how far the pool is used and how many variables have a number.
#[derive(Clone, Copy, Debug, PartialEq, Eq)]
pub struct Ready {
    pub used: usize,
    pub count: u32,
}

// Prepares the $f or $e at `at`: 44, then 43.
pub fn prepare_hypothesis(
    file: &[u8],
    symbols: &[u32],
    at: u32,
    numbers: &mut [u32],
    count: u32,
    pool: &mut [u8],
    used: usize,
    limit: usize,
) -> Result<Ready, Refusal>
    requires { (count < 1000) × ((used ≤ limit) × (limit ≤ length pool.old)) }
    ensures { Prepares file.now symbols.now at numbers.old count pool.old used limit numbers.new pool.new result }
{
    let c = map_float(file, at, numbers, count);
    if 256 < c {
        return Err(Refusal::TooManyVariables);
    }
    let end = do_substitute_raw(file, symbols, at, pool, used, limit).ok_or(Refusal::PoolFull)?;
    Ok(Ready {
        used: end,
        count: c,
    })
}
