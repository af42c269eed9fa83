// The functions over the pool for a caller who proves nothing, as one in C: each tests its ranges before it works, and answers a number.
// Where bytes are added: how far the pool is then used, FULL where there is no room, REFUSED where the ranges are wrong (the pool is then
// left alone). Where they are compared: 1 the same, 0 not, REFUSED. A slice is a pointer and a length.
//   size_t packed_copy(uint8_t *pool, size_t pool_len, size_t used, size_t limit, size_t from, size_t to);
//   size_t packed_substitute(const uint8_t *file, size_t file_len, const uint32_t *symbols, size_t symbols_len, uint32_t at,
//       const uint32_t *froms, size_t froms_len, const uint32_t *tos, size_t tos_len, uint8_t *pool, size_t pool_len, size_t used, size_t limit);
//   size_t packed_spell(file, symbols, at, pool, used, limit);
//   size_t packed_is_substituted(file, symbols, at, froms, tos, pool, from, to);
//   size_t packed_is_spelled(file, symbols, at, pool, from, to);
#![tactic(auto)]

ghost use Rattle.std.specs.Prelude.{◌≡◌, length};
ghost use Rattle.frames.specs.Logic.{both};
ghost use Rattle.packed.specs.Pool.{range};
ghost use Rattle.packed.specs.Lists.{Substitutes, Spells, Compares, ComparesRaw};
ghost use Rattle.packed_calls.specs.Answers.{number_of, truth_of, spelling, substitution, within, roomed, lies, Answered, compared, Says, Copies};

// Adds a copy of a range.
#[unsafe(no_mangle)]
pub extern "C" fn packed_copy(
    pool: &mut [u8],
    used: usize,
    limit: usize,
    from: usize,
    to: usize,
) -> usize
    ensures bytes { Answered (both (roomed used limit pool.old) (lies from to used)) (range from to pool.old) used limit pool.old pool.new result }
    ensures lists { Says (both (roomed used limit pool.old) (lies from to used)) number_of (Copies from to used limit pool.old pool.new) result }
{
    packed_calls::packed_copy(pool, used, limit, from, to)
}

// Adds the symbols of a statement as substituted.
#[unsafe(no_mangle)]
pub extern "C" fn packed_substitute(
    file: &[u8],
    symbols: &[u32],
    at: u32,
    froms: &[u32],
    tos: &[u32],
    pool: &mut [u8],
    used: usize,
    limit: usize,
) -> usize
    ensures bytes { Answered (both (roomed used limit pool.old) (within file.now symbols.now at froms.now tos.now used)) (substitution file.now symbols.now at froms.now tos.now pool.old) used limit pool.old pool.new result }
    ensures lists { Says (both (roomed used limit pool.old) (within file.now symbols.now at froms.now tos.now used)) number_of (Substitutes file.now symbols.now at froms.now tos.now used limit pool.old pool.new) result }
{
    packed_calls::packed_substitute(file, symbols, at, froms, tos, pool, used, limit)
}

// Adds the symbols of a statement as they are.
#[unsafe(no_mangle)]
pub extern "C" fn packed_spell(
    file: &[u8],
    symbols: &[u32],
    at: u32,
    pool: &mut [u8],
    used: usize,
    limit: usize,
) -> usize
    ensures bytes { Answered (roomed used limit pool.old) (spelling file.now symbols.now at) used limit pool.old pool.new result }
    ensures lists { Says (roomed used limit pool.old) number_of (Spells file.now symbols.now at used limit pool.old pool.new) result }
{
    packed_calls::packed_spell(file, symbols, at, pool, used, limit)
}

// Whether a range is the symbols of a statement as substituted.
#[unsafe(no_mangle)]
pub extern "C" fn packed_is_substituted(
    file: &[u8],
    symbols: &[u32],
    at: u32,
    froms: &[u32],
    tos: &[u32],
    pool: &[u8],
    from: usize,
    to: usize,
) -> usize
    ensures bytes { result ≡ compared (both (lies from to (length pool.now)) (within file.now symbols.now at froms.now tos.now (length pool.now))) from to pool.now (substitution file.now symbols.now at froms.now tos.now pool.now) }
    ensures lists { Says (both (lies from to (length pool.now)) (within file.now symbols.now at froms.now tos.now (length pool.now))) truth_of (Compares file.now symbols.now at froms.now tos.now pool.now from to) result }
{
    packed_calls::packed_is_substituted(file, symbols, at, froms, tos, pool, from, to)
}

// Whether a range is the symbols of a statement as they are.
#[unsafe(no_mangle)]
pub extern "C" fn packed_is_spelled(
    file: &[u8],
    symbols: &[u32],
    at: u32,
    pool: &[u8],
    from: usize,
    to: usize,
) -> usize
    ensures bytes { result ≡ compared (lies from to (length pool.now)) from to pool.now (spelling file.now symbols.now at) }
    ensures lists { Says (lies from to (length pool.now)) truth_of (ComparesRaw file.now symbols.now at pool.now from to) result }
{
    packed_calls::packed_is_spelled(file, symbols, at, pool, from, to)
}
