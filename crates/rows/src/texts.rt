// Rows 3 and 4: names and labels.
#![tactic(auto, unfolding(frames::specs::Table::bad_symbol, frames::specs::Table::bad_label, frames::specs::Logic::either, frames::specs::Logic::both, frames::specs::Logic::no, frames::specs::Logic::equal))]

ghost use Rattle.std.specs.Prelude.{◌≡◌};
ghost use Rattle.frames.specs.Table.{bad_symbol, bad_label};

use frames::record::{is_statement, kind_at, rest_at};
use frames::text::{all_label_bytes, all_name_bytes, is_used};

// 3 BadSymbol.
pub fn bad_symbol(file: &[u8], symbols: &[u32], at: u32) -> bool
    ensures { result ≡ bad_symbol file.now symbols.now at }
{
    if kind_at(file, at) != 1 {
        return false;
    }
    let name = rest_at(file, at);
    !all_name_bytes(name) || is_used(file, symbols, name)
}

// 4 BadLabel. (The same form as row 3 with three other names; one function over them would be no shorter.)
pub fn bad_label(file: &[u8], statements: &[u32], at: u32) -> bool
    ensures { result ≡ bad_label file.now statements.now at }
{
    if !is_statement(kind_at(file, at)) {
        return false;
    }
    let label = rest_at(file, at);
    !all_label_bytes(label) || is_used(file, statements, label)
}
