// What calls of the supervisor binary interface ask for and leave.
use crate::instructions::given::{Called, called_from};
use crate::words::{push_number, push_shown};
use rv_rows::Register;
use rv_supervisor::{A0, A1, Regs, start_regs};
use sbi_calls::{SbiStep, end_act, end_call, sbi};
use std::alloc::AllocError;

fn registers(called: Called) -> Regs {
    let mut regs = start_regs(0x8020_0000, called.a0, called.a1);
    regs.put(Register::X12, called.a2);
    regs.put(Register::X16, called.a6);
    regs.put(Register::X17, called.a7);
    regs
}

fn after(called: Called) -> Regs {
    let mut regs = registers(called);
    match sbi(&regs) {
        SbiStep::Now(given) => end_call(given, &mut regs),
        SbiStep::Act(act) => end_act(act, called.returned, &mut regs),
    }
    regs
}

/// `ERROR VALUE`, in hexadecimal digits, or the act on the board.
pub fn add_step(case: &str, text: &mut String) -> Result<(), AllocError> {
    match called_from(case) {
        Some(called) => push_step(text, &sbi(&registers(called))),
        None => text.push_str("none"),
    }
}

fn push_step(text: &mut String, step: &SbiStep) -> Result<(), AllocError> {
    match step {
        SbiStep::Now(given) => push_two(text, given.error, given.value),
        SbiStep::Act(act) => push_shown(text, act),
    }
}

fn push_two(text: &mut String, first: u64, second: u64) -> Result<(), AllocError> {
    push_number(text, first)?;
    text.push(' ')?;
    push_number(text, second)
}

/// `A0 A1 PC COUNT TURN` behind a call at 0x80200000 with a count of 32: all in hexadecimal digits but the count.
pub fn add_left(case: &str, text: &mut String) -> Result<(), AllocError> {
    match called_from(case) {
        Some(called) => push_left(text, &after(called)),
        None => text.push_str("none"),
    }
}

fn push_left(text: &mut String, regs: &Regs) -> Result<(), AllocError> {
    push_two(text, regs.get(A0), regs.get(A1))?;
    write!(text, " {:x} {} {:?}", regs.pc, regs.count, regs.turn)
}
