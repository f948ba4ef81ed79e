// What this repository's functions answer to a word of an instruction.
ghost use Rattle.std.specs.Prelude.{◌≡◌, codes};
ghost use Rattle.std.specs.Option.{option_map, option_map_or};
ghost use Rattle.rv_rows.specs.Names.{name_of};
ghost use Rattle.rv_rows.specs.Table.{instr_of};
ghost use Rattle.rv_rows.specs.Effects.{effect_of};

pub mod calling;
mod given;

use crate::instructions::given::{Given, given_from};
use crate::words::{push_number, push_shown};
use guest_memory::amo_value;
use rv_alu::{atomic_load_value, effect, load_value};
use rv_decode::decode;
use rv_rows::{CsrAccess, Effect, Instr, instr_of};
use rv_supervisor::{
    Csr, HartCsr, Turn, access_csr, csr_of, csr_value, software_cleared, software_set, start_regs,
    write_csr,
};
use std::alloc::AllocError;
use std::fmt::Debug;

/// What a table asks of its words. A word that is no instruction is answered `-`.
#[derive(Clone, Copy, Drop)]
pub enum Asked {
    /// The name of what the table of instructions finds.
    Name,
    /// The name of what the decoder finds.
    DecodedName,
    /// The instruction with its operands.
    Operands,
    /// What it does.
    Effect,
    /// The number that it puts into its register: what it computes, or what it makes of `a` in memory.
    Value,
    /// The number that it stores where `a` is in memory.
    Stored,
    /// What the CSR holds after it, where `b` was written to it before, and `look` if a look is due; of sip, which bits
    /// are cleared and which are set.
    Kept,
}

/// Puts the answer to a case at the end.
pub fn add(asked: Asked, case: &str, text: &mut String) -> Result<(), AllocError> {
    match given_from(case) {
        Some(given) => add_answer(asked, given, text),
        None => text.push_str("none"),
    }
}

fn add_answer(asked: Asked, given: Given, text: &mut String) -> Result<(), AllocError> {
    match asked {
        Asked::Name => text.push_str(name(instr_of(given.word))),
        Asked::DecodedName => text.push_str(name(decode(given.word))),
        Asked::Operands => add_shown(text, &instr_of(given.word)),
        Asked::Effect => add_shown(text, &effect_on(given)),
        Asked::Value => add_number(text, value_of(given)),
        Asked::Stored => add_number(text, stored(given)),
        Asked::Kept => add_kept(text, given),
    }
}

fn name(found: Option<Instr>) -> &'static str
    ensures { result.now ≡ option_map_or name_of found (codes "-") }
{
    match found {
        Some(instr) => instr.name(),
        None => "-",
    }
}

fn effect_on(given: Given) -> Option<Effect>
    ensures { result ≡ option_map (λ instr. effect_of instr given.pc given.a given.b) (instr_of given.word) }
{
    let instr = decode(given.word)?;
    Some(effect(instr, given.pc, given.a, given.b))
}

fn value_of(given: Given) -> Option<u64> {
    let instr = decode(given.word)?;
    match instr {
        Instr::Load { kind, .. } => Some(load_value(kind, given.a)),
        Instr::LoadReserved { wide, .. } => Some(atomic_load_value(wide, given.a)),
        _ => match effect(instr, given.pc, given.a, given.b) {
            Effect::Put { value, .. } => Some(value),
            _ => None,
        },
    }
}

fn stored(given: Given) -> Option<u64> {
    match decode(given.word)? {
        Instr::Amo { kind, wide, .. } => Some(amo_value(kind, wide, given.a, given.b)),
        _ => None,
    }
}

fn add_shown<T: Debug>(text: &mut String, found: &Option<T>) -> Result<(), AllocError> {
    match found {
        Some(value) => push_shown(text, value),
        None => text.push('-'),
    }
}

fn add_number(text: &mut String, found: Option<u64>) -> Result<(), AllocError> {
    match found {
        Some(number) => push_number(text, number),
        None => text.push('-'),
    }
}

fn add_kept(text: &mut String, given: Given) -> Result<(), AllocError> {
    match csr_and_access(given) {
        Some((Csr::Hart(csr), access)) => add_kept_of_hart(text, csr, access, given.b),
        Some((Csr::Sip, access)) => {
            push_number(text, software_cleared(access))?;
            text.push(' ')?;
            push_number(text, software_set(access))
        }
        Some((Csr::Time, _)) => text.push_str("time"),
        None => text.push('-'),
    }
}

fn csr_and_access(given: Given) -> Option<(Csr, CsrAccess)> {
    match effect_on(given)? {
        Effect::Csr { csr, access, .. } => Some((csr_of(csr)?, access)),
        _ => None,
    }
}

fn add_kept_of_hart(
    text: &mut String,
    csr: HartCsr,
    access: CsrAccess,
    before: u64,
) -> Result<(), AllocError> {
    let mut regs = start_regs(0, 0, 0);
    write_csr(csr, before, &mut regs);
    regs.turn = Turn::Fetch;
    access_csr(csr, access, &mut regs);
    push_number(text, csr_value(csr, &regs))?;
    text.push_str(if regs.turn == Turn::Look { " look" } else { "" })
}
