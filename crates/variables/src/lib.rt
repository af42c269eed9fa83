// A port of parts of src/verify.rs of metamath-rs 0.3.9 (map_var), changed (see NOTICE).
// The numbering of variables: a table, indexed by symbol number, of each variable's number plus 1, or 0 where it has none yet.
#![tactic(auto)]

ghost use Rattle.std.specs.Prelude.{◌≡◌, ◌<◌};
ghost use Rattle.frames.specs.Database.{statement_at};
ghost use Rattle.machine.specs.Run.{members};
ghost use Rattle.variables.specs.Numbering.{Maps, MapsAll, float_at, floats_at};

use frames::fields;
use frames::numbers::SymbolNo;

// Numbers variable v, where it is not yet; answers how many have a number.
pub fn map_var(numbers: &mut [u32], count: u32, v: SymbolNo) -> u32
    requires { count < 1000000 }
    ensures { Maps numbers.old count v.0 numbers.new result }
{
    let s = v.0;
    if s < numbers.len() && numbers[s] == 0 {
        numbers[s] = count + 1;
        count + 1
    } else {
        count
    }
}

// Numbers the members of the pairs of the statement at `at`, as they are met.
pub fn map_pairs(file: &[u8], at: u32, numbers: &mut [u32], count: u32) -> u32
    requires { count < 8192 }
    ensures { MapsAll numbers.old count (members (statement_at file.now at).pairs) numbers.new result }
{
    let mut c = count;
    for i in 0..fields::pairs(file, at) {
        let pair = fields::pair_of(file, at, i);
        let left = map_var(numbers, c, pair.left);
        c = map_var(numbers, left, pair.right);
    }
    c
}

// Numbers the variable of the statement at `at`, if it is a $f.
pub fn map_float(file: &[u8], at: u32, numbers: &mut [u32], count: u32) -> u32
    requires { count < 1000000 }
    ensures { MapsAll numbers.old count (float_at file.now at) numbers.new result }
{
    if fields::kind(file, at) == 2 {
        map_var(numbers, count, fields::variable(file, at))
    } else {
        count
    }
}

// Numbers the mandatory variables of the statement at `at`: those of its listed $f, in their order.
pub fn map_floats(file: &[u8], statements: &[u32], at: u32, numbers: &mut [u32], count: u32) -> u32
    requires { count < 8192 }
    ensures { MapsAll numbers.old count (floats_at file.now statements.now (statement_at file.now at).hyps) numbers.new result }
{
    let mut c = count;
    for j in 0..fields::hypotheses(file, at) {
        let h = fields::hypothesis(file, at, j);
        c = map_float(file, fields::statement_offset(statements, h), numbers, c);
    }
    c
}
