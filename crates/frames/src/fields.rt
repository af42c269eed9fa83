// The fields of a symbol or a statement, in the words of the decoded database, read where its record lies in the file. A record
// is named by its offset, which `symbol_offset` or `statement_offset` finds in the index. A reader of record.rt or refer.rt that stands here
// again has another contract: there it is on the layout, which the rows of the table ask, here on the decoded database, which all above knows.
#![tactic(auto, unfolding(crate::specs::Database::symbol_at, crate::specs::Database::statement_at, crate::specs::Logic::pick, crate::specs::Logic::equal))]

ghost use Rattle.std.specs.Prelude.{◌≡◌, ◌<◌, length, get_or};
ghost use Rattle.frames.specs.Layout.{next_at};
ghost use Rattle.frames.specs.Database.{symbol_at, statement_at};
ghost use Rattle.frames.specs.Search.{FindsSymbol, FindsStatement};

use crate::numbers::{StatementNo, SymbolNo};
use crate::read::u16_at;
use crate::refer::Pair;
use crate::text::find;
use crate::{record, refer};

// The offset of a symbol's record; 0 for a number that is not defined.
pub fn symbol_offset(symbols: &[u32], s: SymbolNo) -> u32
    ensures { result ≡ get_or symbols.now s.0 0 }
{
    refer::entry(symbols, s.0)
}

// The offset of a statement's record; 0 for a number that is not defined.
pub fn statement_offset(statements: &[u32], p: StatementNo) -> u32
    ensures { result ≡ get_or statements.now p.0 0 }
{
    refer::entry(statements, p.0)
}

// The class of a symbol: 0 constant, 1 variable.
pub fn class(file: &[u8], at: u32) -> usize
    ensures { result ≡ (symbol_at file.now at).class }
{
    record::class_at(file, at)
}

// The name of a symbol.
pub fn name(file: &[u8], at: u32) -> &[u8]
    ensures { result.now ≡ (symbol_at file.now at).name }
{
    record::rest_at(file, at)
}

// The kind of a statement: $f 2, $e 3, $a 4, $p 5.
pub fn kind(file: &[u8], at: u32) -> usize
    ensures { result ≡ (statement_at file.now at).kind }
{
    record::kind_at(file, at)
}

// The scope end of a $f or $e; 0 for a $a or $p.
pub fn scope_end(file: &[u8], at: u32) -> usize
    ensures { result ≡ (statement_at file.now at).end }
{
    if record::is_hypothesis(record::kind_at(file, at)) {
        record::scope_end_at(file, at)
    } else {
        0
    }
}

// The label of a statement.
pub fn label(file: &[u8], at: u32) -> &[u8]
    ensures { result.now ≡ (statement_at file.now at).label }
{
    record::any_rest_at(file, at)
}

// How many hypotheses a statement lists.
pub fn hypotheses(file: &[u8], at: u32) -> usize
    ensures { (result ≡ length (statement_at file.now at).hyps) × (result < 65536) }
{
    record::hyp_count(file, at)
}

// The i-th listed hypothesis.
pub fn hypothesis(file: &[u8], at: u32, i: usize) -> StatementNo
    ensures { result.0 ≡ get_or (statement_at file.now at).hyps i 0 }
{
    refer::hypothesis(file, at, i)
}

// How many pairs a statement lists.
pub fn pairs(file: &[u8], at: u32) -> usize
    ensures { (result ≡ length (statement_at file.now at).pairs) × (result < 65536) }
{
    record::pair_count(file, at)
}

// The i-th pair.
pub fn pair_of(file: &[u8], at: u32, i: usize) -> Pair
    ensures { (result.left.0, result.right.0) ≡ get_or (statement_at file.now at).pairs i (0, 0) }
{
    refer::pair_of(file, at, i)
}

// How many symbols a statement has, the typecode among them.
pub fn symbols(file: &[u8], at: u32) -> usize
    ensures { (result ≡ length (statement_at file.now at).symbols) × (result < 65536) }
{
    record::symbol_count(file, at)
}

// The i-th symbol of a statement; the typecode is symbol 0, and the variable of a $f symbol 1.
pub fn symbol(file: &[u8], at: u32, i: usize) -> SymbolNo
    ensures { result.0 ≡ get_or (statement_at file.now at).symbols i 0 }
{
    refer::symbol(file, at, i)
}

// The first symbol of a statement.
pub fn typecode(file: &[u8], at: u32) -> SymbolNo
    ensures { result.0 ≡ get_or (statement_at file.now at).symbols 0 0 }
{
    if record::kind_at(file, at) == 2 {
        SymbolNo(u16_at(file, at as usize + 10))
    } else {
        refer::symbol(file, at, 0)
    }
}

// The variable of a $f.
pub fn variable(file: &[u8], at: u32) -> SymbolNo
    ensures { result.0 ≡ get_or (statement_at file.now at).symbols 1 0 }
{
    if record::kind_at(file, at) == 2 {
        SymbolNo(u16_at(file, at as usize + 12))
    } else {
        refer::symbol(file, at, 1)
    }
}

// The proof text of a $p, as a part of the file: the rest of the record that follows it. Any other statement has none.
pub fn proof_text(file: &[u8], at: u32) -> &[u8]
    requires { next_at file.now at < 4294967296 }
    ensures { result.now ≡ (statement_at file.now at).text }
{
    if record::kind_at(file, at) == 5 {
        let next = record::next_at(file, at);
        return record::any_rest_at(file, next as u32);
    }
    &file[..0]
}

// The symbol of this name.
pub fn find_symbol(file: &[u8], symbols: &[u32], name: &[u8]) -> Option<SymbolNo>
    ensures { FindsSymbol file.now symbols.now name.now result }
{
    let i = find(file, symbols, name)?;
    Some(SymbolNo(i))
}

// The statement of this label.
pub fn find_statement(file: &[u8], statements: &[u32], label: &[u8]) -> Option<StatementNo>
    ensures { FindsStatement file.now statements.now label.now result }
{
    let i = find(file, statements, label)?;
    Some(StatementNo(i))
}
