//! What the word of an instruction does to a hart: RV64IMA with Zicsr, traps and reservations.
//!
//! `effect_of_word` is what a word does, by one decode. `wanted` is the one access that this asks for behind the fetch,
//! if any, and `perform` what becomes of the registers by the last reply to it: all as `specs/Does.antt` says, by the
//! table of `rv_rows`, the effects of its instructions, and one line an effect. `HartOp` and `HartReply` are the ops
//! and replies of harts in few bytes.
//!
//! What is frequent has shorter ways, which say the same: `run_plain` does a word that computes, jumps or branches as it is
//! decoded, and `plain_at` does so where the pc and the count are held beside the registers; `load_kind` and `store_width` say
//! what a word loads or stores, for whoever makes the access at once.
#![tactic(auto)]

mod access;
mod csr;
mod hart_op;
mod hart_reply;
mod instruction;
mod plain;
mod replies;
mod sbi;
mod values;

pub use access::{load_kind, store_width};
pub use hart_op::HartOp;
pub use hart_reply::HartReply;
pub use instruction::{effect_of_word, perform, wanted};
pub use plain::{plain_at, run_plain};
