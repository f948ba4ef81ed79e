// Words that load or store: of what kind, for whoever reads the operands and makes the access at once.
ghost use Rattle.std.specs.Prelude.{◌≡◌, IfSome};
ghost use Rattle.rv_decode.specs.Functions.{opcode};
ghost use Rattle.rv_doing.specs.Accesses.{LoadsAs, StoresAs};

use rv_decode::operations;
use rv_rows::{LoadKind, Width};

/// LOAD. `None` where the word is illegal.
#[inline(always)]
#[tactic(auto, unfolding(crate::specs::Does::does))]
pub fn load_kind(word: u32) -> Option<LoadKind>
    requires { opcode word ≡ 0x03 }
    ensures { IfSome result (λ kind. LoadsAs kind word) }
{
    operations::load_kind(word)
}

/// STORE. `None` where the word is illegal.
#[inline(always)]
#[tactic(auto, unfolding(crate::specs::Does::does), using(crate::proofs::Widths::stores_low))]
pub fn store_width(word: u32) -> Option<Width>
    requires { opcode word ≡ 0x23 }
    ensures { IfSome result (λ width. StoresAs width word) }
{
    operations::store_width(word)
}
