// What a hart wants behind each reply, and its registers then.
use crate::machines::reading::reply_from;
use crate::machines::telling::add_op;
use crate::words::{Numbers, parted, push_number};
use hart_rv64::{Hart, op_after};
use rv_rows::Register;
use rv_supervisor::{Regs, Turn, start_regs};
use std::alloc::{AllocError, Global};
use vm_types::{Actor, Reply, Step};

/// How a hart begins, and its steps so far.
#[derive(Drop)]
pub struct Trial {
    start: Regs,
    steps: Vec<Step>,
}

/// A hart at the image, with an address of RAM in x1 and a number in x2.
fn start() -> Regs {
    let mut regs = Regs {
        stvec: 0x8000_0100,
        sscratch: 0x77,
        sepc: 0x8020_1000,
        status_spie: true,
        ..start_regs(0x8020_0000, 0, 0)
    };
    regs.put(Register::X1, 0x8021_0008);
    regs.put(Register::X2, 0x8877_6655_4433_2211);
    regs
}

impl Trial {
    pub fn new(alloc: Global) -> Trial {
        Trial {
            start: start(),
            steps: Vec::new(alloc),
        }
    }

    // The hart behind its steps.
    fn hart(&self) -> Hart {
        let mut hart = Hart::with_regs(self.start);
        for step in &self.steps {
            hart.give(step.reply);
        }
        hart
    }
}

/// A reply; `new`; what is set before the first of them; or what is shown.
pub fn add(
    alloc: Global,
    trial: &mut Trial,
    command: &str,
    text: &mut String,
) -> Result<(), AllocError> {
    match reply_from(command) {
        Some(reply) => answer(alloc, trial, reply, text),
        None => other(alloc, trial, command, text),
    }
}

// The op that is wanted once the one before was answered so, or `-` where the reply doesn't fit, which leaves it.
fn answer(
    alloc: Global,
    trial: &mut Trial,
    reply: Reply,
    text: &mut String,
) -> Result<(), AllocError> {
    let hart = trial.hart();
    let op = hart.want();
    trial.steps.push(Step { op, reply })?;
    match op_after(&trial.start, &trial.steps) {
        Some(op) => add_op(alloc, text, &op),
        None => {
            trial.steps.pop();
            text.push('-')
        }
    }
}

fn other(
    alloc: Global,
    trial: &mut Trial,
    command: &str,
    text: &mut String,
) -> Result<(), AllocError> {
    let Some((name, numbers)) = parted(command) else {
        return text.push_str("none");
    };
    match name {
        "reg" => return add_register(trial, numbers.a, text),
        "shown" => return add_shown(trial.hart().regs(), text),
        "new" => *trial = Trial::new(alloc),
        _ => set(&mut trial.start, name, numbers),
    }
    text.push('-')
}

fn add_register(trial: &Trial, number: u64, text: &mut String) -> Result<(), AllocError> {
    push_number(text, trial.hart().reg((number % 33) as usize))
}

fn set(start: &mut Regs, name: &str, Numbers { a, b, .. }: Numbers) {
    match name {
        "x" => start.put(Register::from_number((a % 32) as u32), b),
        "count" => start.count = a,
        "held" => start.held = Some(a),
        "sie" => start.sie = a,
        "enabled" => start.status_sie = true,
        "look" => start.turn = Turn::Look,
        "wake" => start.turn = Turn::WakeLook,
        _ => {}
    }
}

fn add_shown(regs: &Regs, text: &mut String) -> Result<(), AllocError> {
    write!(
        text,
        "pc {:x}, sepc {:x}, scause {:x}, stval {:x}, {} {}, held {:?}, {} {:?}",
        regs.pc,
        regs.sepc,
        regs.scause,
        regs.stval,
        regs.status_sie,
        regs.status_spie,
        regs.held,
        regs.count,
        regs.turn
    )
}
