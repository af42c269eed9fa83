// The file check for a caller in C or Rust. `answer` is document 01's number and the place; for a good file 0, the number of
// symbols and the number of statements.
//   void frames_check(const uint8_t *file, size_t length, uint32_t symbols[4096], uint32_t statements[4096], uint64_t answer[3]);
#![tactic(auto)]

ghost use Rattle.std.specs.Prelude.{◌≡◌};
ghost use Rattle.frames_c.specs.Answer.{answer_of, Answered};

use frames::Verdict;

// The three numbers of a verdict.
fn answer_of(verdict: Verdict) -> [u64; 3]
    ensures { result ≡ answer_of verdict }
{
    match verdict {
        Ok(sizes) => [0, sizes.symbols as u64, sizes.statements as u64],
        Err(away) => [frames::number(away.why) as u64, away.place as u64, 0],
    }
}

#[unsafe(no_mangle)]
pub extern "C" fn frames_check(
    file: &[u8],
    symbols: &mut [u32; 4096],
    statements: &mut [u32; 4096],
    answer: &mut [u64; 3],
)
    ensures { Answered file.now symbols.old statements.old symbols.new statements.new answer.new }
{
    *answer = answer_of(filecheck::check(file, symbols, statements));
}
