// Row 7: a proof where one is owed, and nowhere else.
#![tactic(auto, unfolding(frames::specs::Table::no_proof, frames::specs::Logic::pick, frames::specs::Logic::no, frames::specs::Logic::equal))]

ghost use Rattle.std.specs.Prelude.{◌≡◌};
ghost use Rattle.frames.specs.Table.{no_proof};

use frames::record::kind_at;

// 7 NoProof.
pub fn no_proof(file: &[u8], owed: bool, at: u32) -> bool
    ensures { result ≡ no_proof file.now owed at }
{
    owed != (kind_at(file, at) == 6)
}
