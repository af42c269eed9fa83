// The calls of the bench for a caller in C or Rust (bindings/bench.h, bindings/bench.rs). An answer is one number of 64 bits: 8 bits of number, 24
// bits of place, 32 bits of steps, from the lowest up. The walk answers 0, 0 and how many $p there are, or number and place of the file's refusal.
//   uint64_t bench_verify(const uint8_t *file, size_t file_length, size_t statement, uint8_t *pool, size_t pool_length,
//       uint64_t *stack, size_t stack_length, uint64_t *places, size_t places_length);
//   uint64_t bench_verify_all(const uint8_t *file, size_t file_length, uint64_t *answers, size_t answers_length, uint8_t *pool, size_t pool_length,
//       uint64_t *stack, size_t stack_length, uint64_t *places, size_t places_length);
//   uint64_t bench_long(const uint8_t *file, size_t file_length, size_t statement, uint8_t *pool, size_t pool_length, uint64_t *stack, size_t stack_length,
//       uint64_t *places, size_t places_length, uint64_t *tree, size_t tree_length, uint8_t *output, size_t output_length);
#![tactic(auto)]

ghost use Rattle.std.specs.Prelude.{◌≡◌, ◌<◌};
ghost use Rattle.bench_c.specs.Words.{VerifiedWord, AllWords, LongWord};

use answers::pack;

// One statement.
#[unsafe(no_mangle)]
pub extern "C" fn bench_verify(
    file: &[u8],
    statement: usize,
    pool: &mut [u8],
    stack: &mut [u64],
    places: &mut [u64],
) -> u64
    ensures { VerifiedWord file.now statement pool.old stack.old places.old pool.new stack.new places.new result }
{
    let told = bench::verify(file, statement, pool, stack, places);
    pack(told.number, told.place, told.steps)
}

// All $p of a file.
#[unsafe(no_mangle)]
pub extern "C" fn bench_verify_all(
    file: &[u8],
    answers: &mut [u64],
    pool: &mut [u8],
    stack: &mut [u64],
    places: &mut [u64],
) -> u64
    ensures { AllWords file.now pool.old stack.old places.old answers.old pool.new stack.new places.new answers.new result }
{
    match walk::verify_all(file, pool, stack, places, answers) {
        Err(away) => pack(frames::number(away.why), away.place, 0),
        Ok(count) => pack(0, 0, count),
    }
}

// The long form of one statement's proof.
#[unsafe(no_mangle)]
pub extern "C" fn bench_long(
    file: &[u8],
    statement: usize,
    pool: &mut [u8],
    stack: &mut [u64],
    places: &mut [u64],
    tree: &mut [u64],
    output: &mut [u8],
) -> u64
    ensures { LongWord file.now statement pool.old stack.old places.old tree.old output.old pool.new stack.new places.new tree.new output.new result }
{
    let written = long::long_form(file, statement, pool, stack, places, tree, output);
    pack(written.number, written.place, written.steps)
}
