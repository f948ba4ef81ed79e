// An instruction whose word is kept decoded, by one choice of its operation.
ghost use Rattle.std.specs.Prelude.{◌≡◌, ◌≤◌, ◌<◌, ◌+◌, ◌^◌, ℕ, None, Some, IfSome, length};
ghost use Rattle.decoded_words.specs.Decoded.{IsDecoded};
ghost use Rattle.guest_memory.specs.Ram.{ram_start};
ghost use Rattle.guest_pages.specs.Made.{Spends};
ghost use Rattle.rv_rows.specs.Table.{instr_of};
ghost use Rattle.rv_rows.specs.declared.instr.Instr.TheVariants as instr;
ghost use Rattle.vm_types.specs.declared.ids.ActorId.{ActorId as Actor};
ghost use Rattle.vm_world.specs.Bursts.{CountsSo, HaveWord};

use super::{load_as, store_marked};
use decoded_words::{
    Decoded, Operation, branch, by_immediate, by_registers, constant, jump_by_register, jump_near,
    multiplied, put_into_rd, upper, upper_of_pc, value_of_rs1, word_multiplied,
};
use guest_pages::PageSet;
use rv_rows::{AluOp, Condition, LoadKind, Width};
use rv_supervisor::Regs;

// A load of this kind, which is counted. Answers where the next instruction is.
#[inline(always)]
fn load_decoded(
    pages: &PageSet,
    regs: &mut Regs,
    it: &Decoded,
    kind: LoadKind,
    pc: u64,
    accesses: &mut u64,
) -> Option<u64>
    requires decoded { IsDecoded it.now }
    requires is { instr_of it.now.word ≡ Some (instr.Load kind it.now.rd it.now.rs1 it.now.value) }
    requires word { it.now.word < 2 ^ 32 }
    requires ram { ram_start ≤ pc }
    requires read { HaveWord pages.now.pages pc it.now.word }
    requires few { accesses.old + 1 < 2 ^ 64 }
    ensures goes { IfSome result (λ next. (k : ℕ) →
        CountsSo pages.now.pages pc regs.old (Actor.Hart k) accesses.old accesses.new next pages.now.pages regs.new) }
    ensures kept { regs.new ≡ record regs.old { x = regs.new.x } }
    ensures none { result ≡ None → (regs.new ≡ regs.old) × (accesses.new ≡ accesses.old) }
{
    let at = value_of_rs1(it, regs).wrapping_add(it.value);
    let value = load_as(pages, kind, kind.width(), at)?;
    put_into_rd(it, value, regs);
    *accesses += 1;
    Some(pc.wrapping_add(4))
}

// A store of this width, which is counted, where its page was written before and no hart has anything reserved in it.
#[inline(always)]
fn store_decoded(
    pages: &mut PageSet,
    regs: &Regs,
    it: &Decoded,
    width: Width,
    pc: u64,
    accesses: &mut u64,
) -> Option<u64>
    requires decoded { IsDecoded it.now }
    requires is { instr_of it.now.word ≡ Some (instr.Store width it.now.rs1 it.now.other it.now.value) }
    requires word { it.now.word < 2 ^ 32 }
    requires ram { ram_start ≤ pc }
    requires read { HaveWord pages.old.pages pc it.now.word }
    requires few { accesses.old + 1 < 2 ^ 64 }
    ensures goes { IfSome result (λ next. (k : ℕ) →
        CountsSo pages.old.pages pc regs.now (Actor.Hart k) accesses.old accesses.new next pages.new.pages regs.now) }
    ensures none { result ≡ None → (pages.new ≡ pages.old) × (accesses.new ≡ accesses.old) }
    ensures spends { Spends 0 pages.old pages.new }
    ensures count { length pages.new.pages ≡ length pages.old.pages }
{
    let at = value_of_rs1(it, regs).wrapping_add(it.value);
    if store_marked(pages, width, at, regs.get(it.other)) {
        *accesses += 1;
        Some(pc.wrapping_add(4))
    } else {
        None
    }
}

/// Makes the instruction of this decoded word, which was read at this pc, with its load, where RAM has that, or its store, where its page
/// was written before and no hart has anything reserved in it, and counts an access. Answers where the next instruction is. `None` where it is
/// any other, and then nothing is changed.
#[tactic(auto, using(guest_pages::proofs::Making::no_spends))]
#[inline(always)]
pub(super) fn go_on_decoded(
    pages: &mut PageSet,
    regs: &mut Regs,
    it: &Decoded,
    pc: u64,
    accesses: &mut u64,
) -> Option<u64>
    requires decoded { IsDecoded it.now }
    requires word { it.now.word < 2 ^ 32 }
    requires ram { ram_start ≤ pc }
    requires read { HaveWord pages.old.pages pc it.now.word }
    requires few { accesses.old + 1 < 2 ^ 64 }
    ensures goes { IfSome result (λ next. (k : ℕ) →
        CountsSo pages.old.pages pc regs.old (Actor.Hart k) accesses.old accesses.new next pages.new.pages regs.new) }
    ensures kept { regs.new ≡ record regs.old { x = regs.new.x } }
    ensures none { result ≡ None → (pages.new ≡ pages.old) × (regs.new ≡ regs.old) × (accesses.new ≡ accesses.old) }
    ensures spends { Spends 0 pages.old pages.new }
    ensures count { length pages.new.pages ≡ length pages.old.pages }
{
    match it.operation {
        Operation::Rare => None,
        Operation::LoadByte => load_decoded(pages, regs, it, LoadKind::Byte, pc, accesses),
        Operation::LoadHalf => load_decoded(pages, regs, it, LoadKind::Half, pc, accesses),
        Operation::LoadWord => load_decoded(pages, regs, it, LoadKind::Word, pc, accesses),
        Operation::LoadDouble => load_decoded(pages, regs, it, LoadKind::Double, pc, accesses),
        Operation::LoadByteUnsigned => load_decoded(
            pages,
            regs,
            it,
            LoadKind::ByteUnsigned,
            pc,
            accesses,
        ),
        Operation::LoadHalfUnsigned => load_decoded(
            pages,
            regs,
            it,
            LoadKind::HalfUnsigned,
            pc,
            accesses,
        ),
        Operation::LoadWordUnsigned => load_decoded(
            pages,
            regs,
            it,
            LoadKind::WordUnsigned,
            pc,
            accesses,
        ),
        Operation::StoreByte => store_decoded(pages, regs, it, Width::Byte, pc, accesses),
        Operation::StoreHalf => store_decoded(pages, regs, it, Width::Half, pc, accesses),
        Operation::StoreWord => store_decoded(pages, regs, it, Width::Word, pc, accesses),
        Operation::StoreDouble => store_decoded(pages, regs, it, Width::Double, pc, accesses),
        Operation::Constant => Some(constant(it, pc, regs)),
        Operation::Lui => Some(upper(it, pc, regs)),
        Operation::Auipc => Some(upper_of_pc(it, pc, regs)),
        Operation::AddImmediate => Some(by_immediate(AluOp::Add, it, pc, regs)),
        Operation::SllImmediate => Some(by_immediate(AluOp::Sll, it, pc, regs)),
        Operation::SltImmediate => Some(by_immediate(AluOp::Slt, it, pc, regs)),
        Operation::SltuImmediate => Some(by_immediate(AluOp::Sltu, it, pc, regs)),
        Operation::XorImmediate => Some(by_immediate(AluOp::Xor, it, pc, regs)),
        Operation::SrlImmediate => Some(by_immediate(AluOp::Srl, it, pc, regs)),
        Operation::SraImmediate => Some(by_immediate(AluOp::Sra, it, pc, regs)),
        Operation::OrImmediate => Some(by_immediate(AluOp::Or, it, pc, regs)),
        Operation::AndImmediate => Some(by_immediate(AluOp::And, it, pc, regs)),
        Operation::AddwImmediate => Some(by_immediate(AluOp::Addw, it, pc, regs)),
        Operation::SllwImmediate => Some(by_immediate(AluOp::Sllw, it, pc, regs)),
        Operation::SrlwImmediate => Some(by_immediate(AluOp::Srlw, it, pc, regs)),
        Operation::SrawImmediate => Some(by_immediate(AluOp::Sraw, it, pc, regs)),
        Operation::Add => Some(by_registers(AluOp::Add, it, pc, regs)),
        Operation::Sub => Some(by_registers(AluOp::Sub, it, pc, regs)),
        Operation::Sll => Some(by_registers(AluOp::Sll, it, pc, regs)),
        Operation::Slt => Some(by_registers(AluOp::Slt, it, pc, regs)),
        Operation::Sltu => Some(by_registers(AluOp::Sltu, it, pc, regs)),
        Operation::Xor => Some(by_registers(AluOp::Xor, it, pc, regs)),
        Operation::Srl => Some(by_registers(AluOp::Srl, it, pc, regs)),
        Operation::Sra => Some(by_registers(AluOp::Sra, it, pc, regs)),
        Operation::Or => Some(by_registers(AluOp::Or, it, pc, regs)),
        Operation::And => Some(by_registers(AluOp::And, it, pc, regs)),
        Operation::Addw => Some(by_registers(AluOp::Addw, it, pc, regs)),
        Operation::Subw => Some(by_registers(AluOp::Subw, it, pc, regs)),
        Operation::Sllw => Some(by_registers(AluOp::Sllw, it, pc, regs)),
        Operation::Srlw => Some(by_registers(AluOp::Srlw, it, pc, regs)),
        Operation::Sraw => Some(by_registers(AluOp::Sraw, it, pc, regs)),
        Operation::Mul => Some(multiplied(it, pc, regs)),
        Operation::Mulw => Some(word_multiplied(it, pc, regs)),
        Operation::BranchEq => Some(branch(Condition::Eq, it, pc, regs)?),
        Operation::BranchNe => Some(branch(Condition::Ne, it, pc, regs)?),
        Operation::BranchLt => Some(branch(Condition::Lt, it, pc, regs)?),
        Operation::BranchGe => Some(branch(Condition::Ge, it, pc, regs)?),
        Operation::BranchLtu => Some(branch(Condition::Ltu, it, pc, regs)?),
        Operation::BranchGeu => Some(branch(Condition::Geu, it, pc, regs)?),
        Operation::Jal => Some(jump_near(it, pc, regs)?),
        Operation::Jalr => Some(jump_by_register(it, pc, regs)?),
    }
}
