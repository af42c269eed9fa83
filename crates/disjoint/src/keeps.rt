// A port of parts of src/verify.rs of metamath-rs 0.3.9 (mandatory_dv in execute_step), changed (see NOTICE).
// Whether the images of every mandatory pair of an assertion are disjoint, by the table of the statement under check.
ghost use Rattle.std.specs.Prelude.{◌≡◌};
ghost use Rattle.frames.specs.Logic.{all};
ghost use Rattle.frames.specs.Database.{statement_at};
ghost use Rattle.machine.specs.Ground.{among};
ghost use Rattle.variables.specs.Numbering.{floats_at};
ghost use Rattle.disjoint.specs.Disjoint.{TellsMandatory, keeps_at, Keeps};

use crate::apart::all_disjoint;
use crate::table::row;
use frames::fields;
use frames::numbers::SymbolNo;
use frames::refer::{Pair, is_float_of};

// Variable v has a $f among the listed hypotheses of the statement at `at`.
pub fn is_mandatory(file: &[u8], statements: &[u32], at: u32, v: SymbolNo) -> bool
    ensures bytes { result ≡ among (floats_at file.now statements.now (statement_at file.now at).hyps) v.0 }
    ensures lists { TellsMandatory file.now statements.now at v.0 result }
{
    (0..fields::hypotheses(file, at)).any(|j| is_float_of(
        file,
        statements,
        v,
        fields::hypothesis(file, at, j),
    ))
}

// The images of a pair are disjoint, if both members are mandatory. That is asked last: most images are disjoint.
fn keeps_pair(
    file: &[u8],
    statements: &[u32],
    at: u32,
    sets: &[u64],
    table: &[u64],
    pair: Pair,
) -> bool
    ensures { result ≡ keeps_at (floats_at file.now statements.now (statement_at file.now at).hyps) sets.now table.now (pair.left.0, pair.right.0) }
{
    all_disjoint(table, row(sets, pair.left.0), row(sets, pair.right.0))
        || !(is_mandatory(file, statements, at, pair.left)
            && is_mandatory(file, statements, at, pair.right))
}

// The images of every mandatory pair of the assertion at `at` are disjoint.
pub fn keeps_pairs(file: &[u8], statements: &[u32], at: u32, sets: &[u64], table: &[u64]) -> bool
    ensures bytes { result ≡ all (keeps_at (floats_at file.now statements.now (statement_at file.now at).hyps) sets.now table.now) (statement_at file.now at).pairs }
    ensures lists { Keeps file.now statements.now at sets.now table.now result }
{
    (0..fields::pairs(file, at)).all(|i| keeps_pair(
        file,
        statements,
        at,
        sets,
        table,
        fields::pair_of(file, at, i),
    ))
}
