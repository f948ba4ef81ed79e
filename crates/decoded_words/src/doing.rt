// What a decoded word does that computes, jumps or branches, at a pc that is held beside the registers: each answers where the next
// instruction is, and leaves the pc and the count in the registers as they are. All are inlined where an operation is chosen.
ghost use Rattle.std.specs.Prelude.{◌≡◌, ◌%◌, IfSome, None, Some};
ghost use Rattle.rv_doing.specs.Plain.{LeadsTo};
ghost use Rattle.rv_rows.specs.Effects.{address_sum};
ghost use Rattle.rv_rows.specs.Table.{instr_of};
ghost use Rattle.rv_rows.specs.declared.alu.AluOp.TheVariants as operation;
ghost use Rattle.rv_rows.specs.declared.alu.MulDivOp.TheVariants as product;
ghost use Rattle.rv_rows.specs.declared.instr.Instr.TheVariants as instr;
ghost use Rattle.rv_rows.specs.declared.register.Register.TheVariants.{X0 as zero};
ghost use Rattle.rv_supervisor.specs.Registers.{reg, with_reg};
ghost use Rattle.decoded_words.specs.Decoded.{IsDecoded, Puts};

use crate::decoding::Decoded;
use rv_alu::{alu, even, is_taken};
use rv_rows::numbers::{low_word, sign_extended_word};
use rv_rows::{AluOp, Condition};
use rv_supervisor::Regs;

/// The value of rs1, which isn't x0.
#[inline(always)]
pub fn value_of_rs1(it: &Decoded, regs: &Regs) -> u64
    requires { IsDecoded it.now }
    ensures { result ≡ reg regs.now it.now.rs1 }
{
    regs.get(it.rs1)
}

/// Puts a value into rd, which isn't x0.
#[inline(always)]
pub fn put_into_rd(it: &Decoded, value: u64, regs: &mut Regs)
    requires { IsDecoded it.now }
    ensures put { regs.new ≡ with_reg regs.old it.now.rd value }
    ensures kept { regs.new ≡ record regs.old { x = regs.new.x } }
{
    regs.x.set(it.rd.number(), value);
}

// What the word puts into rd, with the next word behind it.
#[inline(always)]
fn put(value: u64, it: &Decoded, pc: u64, regs: &mut Regs) -> u64
    requires decoded { IsDecoded it.now }
    requires puts { Puts it.now pc value regs.old }
    ensures done { LeadsTo it.now.word pc result regs.old regs.new }
    ensures kept { regs.new ≡ record regs.old { x = regs.new.x } }
{
    put_into_rd(it, value, regs);
    pc.wrapping_add(4)
}

/// Puts the immediate into rd.
#[inline(always)]
pub fn constant(it: &Decoded, pc: u64, regs: &mut Regs) -> u64
    requires decoded { IsDecoded it.now }
    requires is { instr_of it.now.word ≡ Some (instr.AluImm operation.Add it.now.rd zero it.now.value) }
    ensures done { LeadsTo it.now.word pc result regs.old regs.new }
    ensures kept { regs.new ≡ record regs.old { x = regs.new.x } }
{
    put(alu(AluOp::Add, 0, it.value), it, pc, regs)
}

/// LUI.
#[inline(always)]
pub fn upper(it: &Decoded, pc: u64, regs: &mut Regs) -> u64
    requires decoded { IsDecoded it.now }
    requires is { instr_of it.now.word ≡ Some (instr.Lui it.now.rd it.now.value) }
    ensures done { LeadsTo it.now.word pc result regs.old regs.new }
    ensures kept { regs.new ≡ record regs.old { x = regs.new.x } }
{
    put(it.value, it, pc, regs)
}

/// AUIPC.
#[inline(always)]
pub fn upper_of_pc(it: &Decoded, pc: u64, regs: &mut Regs) -> u64
    requires decoded { IsDecoded it.now }
    requires is { instr_of it.now.word ≡ Some (instr.Auipc it.now.rd it.now.value) }
    ensures done { LeadsTo it.now.word pc result regs.old regs.new }
    ensures kept { regs.new ≡ record regs.old { x = regs.new.x } }
{
    put(pc.wrapping_add(it.value), it, pc, regs)
}

/// An operation on rs1 and an immediate or an amount.
#[inline(always)]
pub fn by_immediate(op: AluOp, it: &Decoded, pc: u64, regs: &mut Regs) -> u64
    requires decoded { IsDecoded it.now }
    requires is { instr_of it.now.word ≡ Some (instr.AluImm op it.now.rd it.now.rs1 it.now.value) }
    ensures done { LeadsTo it.now.word pc result regs.old regs.new }
    ensures kept { regs.new ≡ record regs.old { x = regs.new.x } }
{
    let value = alu(op, value_of_rs1(it, regs), it.value);
    put(value, it, pc, regs)
}

/// An operation on rs1 and rs2.
#[inline(always)]
pub fn by_registers(op: AluOp, it: &Decoded, pc: u64, regs: &mut Regs) -> u64
    requires decoded { IsDecoded it.now }
    requires is { instr_of it.now.word ≡ Some (instr.Alu op it.now.rd it.now.rs1 it.now.other) }
    ensures done { LeadsTo it.now.word pc result regs.old regs.new }
    ensures kept { regs.new ≡ record regs.old { x = regs.new.x } }
{
    let value = alu(op, value_of_rs1(it, regs), regs.get(it.other));
    put(value, it, pc, regs)
}

/// MUL.
#[inline(always)]
pub fn multiplied(it: &Decoded, pc: u64, regs: &mut Regs) -> u64
    requires decoded { IsDecoded it.now }
    requires is { instr_of it.now.word ≡ Some (instr.MulDiv product.Mul it.now.rd it.now.rs1 it.now.other) }
    ensures done { LeadsTo it.now.word pc result regs.old regs.new }
    ensures kept { regs.new ≡ record regs.old { x = regs.new.x } }
{
    let value = value_of_rs1(it, regs).wrapping_mul(regs.get(it.other));
    put(value, it, pc, regs)
}

/// MULW.
#[inline(always)]
pub fn word_multiplied(it: &Decoded, pc: u64, regs: &mut Regs) -> u64
    requires decoded { IsDecoded it.now }
    requires is { instr_of it.now.word ≡ Some (instr.MulDiv product.Mulw it.now.rd it.now.rs1 it.now.other) }
    ensures done { LeadsTo it.now.word pc result regs.old regs.new }
    ensures kept { regs.new ≡ record regs.old { x = regs.new.x } }
{
    let whole = value_of_rs1(it, regs).wrapping_mul(regs.get(it.other));
    put(sign_extended_word(low_word(whole)), it, pc, regs)
}

/// A branch, which puts nothing. A target that isn't a multiple of 4 traps, which is rare: then it is `None`.
#[inline(always)]
pub fn branch(condition: Condition, it: &Decoded, pc: u64, regs: &Regs) -> Option<u64>
    requires decoded { IsDecoded it.now }
    requires is { instr_of it.now.word ≡ Some (instr.Branch condition it.now.rs1 it.now.other it.now.value) }
    ensures { IfSome result (λ next. LeadsTo it.now.word pc next regs.now regs.now) }
{
    if !is_taken(condition, value_of_rs1(it, regs), regs.get(it.other)) {
        return Some(pc.wrapping_add(4));
    }
    let target = pc.wrapping_add(it.value);
    if target % 4 == 0 { Some(target) } else { None }
}

// To this target, with the address behind the pc in the register of the link.
#[inline(always)]
fn jump_to(target: u64, it: &Decoded, pc: u64, regs: &mut Regs) -> Option<u64>
    ensures done { IfSome result (λ next. (next ≡ target) × (target % 4 ≡ 0)
        × (regs.new ≡ with_reg regs.old it.now.other (address_sum pc 4))) }
    ensures kept { regs.new ≡ record regs.old { x = regs.new.x } }
    ensures left { result ≡ None → regs.new ≡ regs.old }
{
    if target % 4 != 0 {
        return None;
    }
    regs.put(it.other, pc.wrapping_add(4));
    Some(target)
}

/// JAL. A target that isn't a multiple of 4 traps, which is rare: then it is `None`, and nothing is changed.
#[inline(always)]
pub fn jump_near(it: &Decoded, pc: u64, regs: &mut Regs) -> Option<u64>
    requires { instr_of it.now.word ≡ Some (instr.Jal it.now.other it.now.value) }
    ensures done { IfSome result (λ next. LeadsTo it.now.word pc next regs.old regs.new) }
    ensures kept { regs.new ≡ record regs.old { x = regs.new.x } }
    ensures left { result ≡ None → regs.new ≡ regs.old }
{
    jump_to(pc.wrapping_add(it.value), it, pc, regs)
}

/// JALR. A target that isn't a multiple of 4 traps, which is rare: then it is `None`, and nothing is changed.
#[inline(always)]
pub fn jump_by_register(it: &Decoded, pc: u64, regs: &mut Regs) -> Option<u64>
    requires decoded { IsDecoded it.now }
    requires is { instr_of it.now.word ≡ Some (instr.Jalr it.now.other it.now.rs1 it.now.value) }
    ensures done { IfSome result (λ next. LeadsTo it.now.word pc next regs.old regs.new) }
    ensures kept { regs.new ≡ record regs.old { x = regs.new.x } }
    ensures left { result ≡ None → regs.new ≡ regs.old }
{
    jump_to(
        even(value_of_rs1(it, regs).wrapping_add(it.value)),
        it,
        pc,
        regs,
    )
}
