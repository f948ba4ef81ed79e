// Instructions that compute, jump or branch, done as they are decoded: each group by its opcode, with no effect between.
ghost use Rattle.std.specs.Prelude.{◌≡◌, ◌%◌, ℕ, true, false, IfSome, None};
ghost use Rattle.rv_decode.specs.Functions.{opcode};
ghost use Rattle.rv_rows.specs.Effects.{address_sum};
ghost use Rattle.rv_rows.specs.Fields.{rs1_field};
ghost use Rattle.rv_supervisor.specs.declared.regs.Regs.{Regs as RegsValue};
ghost use Rattle.rv_supervisor.specs.Registers.{reg, with_reg};
ghost use Rattle.rv_doing.specs.Doing.{Ends};
ghost use Rattle.rv_doing.specs.Does.{does};
ghost use Rattle.rv_doing.specs.Plain.{LeadsTo, PutsAt};

use crate::values;
use rv_alu::{even, is_taken};
use rv_decode::function_fields::opcode;
use rv_decode::{groups, operations};
use rv_rows::fields::{b_immediate, rd, rs1, rs2};
use rv_rows::{Instr, Register};
use rv_supervisor::{Regs, jump};

// The word at pc puts this value into rd, if there is one, and the next instruction is behind it.
#[inline(always)]
#[tactic(auto, using(crate::proofs::Placing::placed_result, crate::proofs::Placing::put_keeps))]
fn put(word: u32, pc: u64, value: Option<u64>, regs: &mut Regs) -> Option<u64>
    requires { IfSome value (λ value. PutsAt word pc value regs.old) }
    ensures done { IfSome result (λ next. LeadsTo word pc next regs.old regs.new) }
    ensures kept { regs.new ≡ record regs.old { x = regs.new.x } }
    ensures left { result ≡ None → regs.new ≡ regs.old }
{
    let Some(value) = value else {
        return None;
    };
    regs.put(rd(word), value);
    Some(pc.wrapping_add(4))
}

#[inline(always)]
#[tactic(auto, unfolding(crate::specs::Does::does), using(crate::proofs::Placing::placed_result, crate::proofs::Placing::put_keeps))]
fn upper(word: u32, pc: u64, regs: &mut Regs) -> Option<u64>
    requires { opcode word ≡ 0x37 }
    ensures done { IfSome result (λ next. LeadsTo word pc next regs.old regs.new) }
    ensures kept { regs.new ≡ record regs.old { x = regs.new.x } }
    ensures left { result ≡ None → regs.new ≡ regs.old }
{
    match groups::lui(word) {
        Some(Instr::Lui { rd, value }) => {
            regs.put(rd, value);
            Some(pc.wrapping_add(4))
        }
        _ => None,
    }
}

#[inline(always)]
#[tactic(auto, unfolding(crate::specs::Does::does), using(crate::proofs::Placing::placed_result, crate::proofs::Placing::put_keeps))]
fn upper_of_pc(word: u32, pc: u64, regs: &mut Regs) -> Option<u64>
    requires { opcode word ≡ 0x17 }
    ensures done { IfSome result (λ next. LeadsTo word pc next regs.old regs.new) }
    ensures kept { regs.new ≡ record regs.old { x = regs.new.x } }
    ensures left { result ≡ None → regs.new ≡ regs.old }
{
    match groups::auipc(word) {
        Some(Instr::Auipc { rd, offset }) => {
            regs.put(rd, pc.wrapping_add(offset));
            Some(pc.wrapping_add(4))
        }
        _ => None,
    }
}

// A jump to this target, with the address behind it in rd. A target that isn't a multiple of 4 traps, which is rare.
#[inline(always)]
fn jump_to(rd: Register, pc: u64, target: u64, regs: &mut Regs) -> Option<u64>
    ensures done { IfSome result (λ next. (next ≡ target) × (target % 4 ≡ 0) × (regs.new ≡ with_reg regs.old rd (address_sum pc 4))) }
    ensures left { result ≡ None → regs.new ≡ regs.old }
{
    if target % 4 != 0 {
        return None;
    }
    regs.put(rd, pc.wrapping_add(4));
    Some(target)
}

#[inline(always)]
#[tactic(auto, unfolding(crate::specs::Does::does), using(crate::proofs::Placing::placed_put, crate::proofs::Placing::put_keeps))]
fn jump_near(word: u32, pc: u64, regs: &mut Regs) -> Option<u64>
    requires { opcode word ≡ 0x6f }
    ensures done { IfSome result (λ next. LeadsTo word pc next regs.old regs.new) }
    ensures kept { regs.new ≡ record regs.old { x = regs.new.x } }
    ensures left { result ≡ None → regs.new ≡ regs.old }
{
    match groups::jal(word) {
        Some(Instr::Jal { rd, offset }) => jump_to(rd, pc, pc.wrapping_add(offset), regs),
        _ => None,
    }
}

#[inline(always)]
#[tactic(auto, unfolding(crate::specs::Does::does), using(crate::proofs::Placing::placed_put, crate::proofs::Placing::put_keeps))]
fn jump_by_register(word: u32, pc: u64, regs: &mut Regs) -> Option<u64>
    requires { opcode word ≡ 0x67 }
    ensures done { IfSome result (λ next. LeadsTo word pc next regs.old regs.new) }
    ensures kept { regs.new ≡ record regs.old { x = regs.new.x } }
    ensures left { result ≡ None → regs.new ≡ regs.old }
{
    match groups::jalr(word) {
        Some(Instr::Jalr { rd, rs1, offset }) => {
            let target = even(regs.get(rs1).wrapping_add(offset));
            jump_to(rd, pc, target, regs)
        }
        _ => None,
    }
}

#[inline(always)]
#[tactic(auto, unfolding(crate::specs::Does::does))]
fn branch(word: u32, pc: u64, a: u64, regs: &Regs) -> Option<u64>
    requires opcode { opcode word ≡ 0x63 }
    requires first { a ≡ reg regs.now (rs1_field word) }
    ensures { IfSome result (λ next. LeadsTo word pc next regs.now regs.now) }
{
    let b = regs.get(rs2(word));
    let condition = operations::branch_condition(word)?;
    if !is_taken(condition, a, b) {
        return Some(pc.wrapping_add(4));
    }
    let target = pc.wrapping_add(b_immediate(word));
    if target % 4 == 0 { Some(target) } else { None }
}

/// Does what this word says at this pc, wherever the hart with these registers is, where it computes, jumps or branches and
/// doesn't trap, and answers where the next instruction is; the pc and the count in `regs` are left as they are, and `a` is the value of rs1. `None` where it
/// is anything else, and then nothing is changed. It is inlined where harts run, so that an opcode is looked at once.
#[inline(always)]
pub fn plain_at(word: u32, pc: u64, a: u64, regs: &mut Regs) -> Option<u64>
    requires { a ≡ reg regs.old (rs1_field word) }
    ensures done { IfSome result (λ next. LeadsTo word pc next regs.old regs.new) }
    ensures kept { regs.new ≡ record regs.old { x = regs.new.x } }
    ensures left { result ≡ None → regs.new ≡ regs.old }
{
    match opcode(word) {
        0x13 => put(word, pc, values::of_immediate(word, a), regs),
        0x17 => upper_of_pc(word, pc, regs),
        0x1b => put(word, pc, values::of_word_immediate(word, a), regs),
        0x33 => put(
            word,
            pc,
            values::of_operation(word, a, regs.get(rs2(word))),
            regs,
        ),
        0x37 => upper(word, pc, regs),
        0x3b => put(
            word,
            pc,
            values::of_word_operation(word, a, regs.get(rs2(word))),
            regs,
        ),
        0x63 => branch(word, pc, a, regs),
        0x67 => jump_by_register(word, pc, regs),
        0x6f => jump_near(word, pc, regs),
        _ => None,
    }
}

/// Does what this word says, where it computes, jumps or branches and doesn't trap. False where it is anything else, and
/// then nothing is changed. It is out of line, with operands that fit registers.
#[inline(never)]
pub fn run_plain(word: u32, regs: &mut Regs) -> bool
    ensures done { result ≡ true → does word regs.old ≡ Ends regs.new }
    ensures left { result ≡ false → regs.new ≡ regs.old }
{
    match plain_at(word, regs.pc, regs.get(rs1(word)), regs) {
        Some(next) => {
            jump(regs, next);
            true
        }
        None => false,
    }
}
