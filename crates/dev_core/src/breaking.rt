// Telling that a queue is broken.
ghost use Rattle.std.specs.Prelude.{◌≡◌, Some};
ghost use Rattle.device_trace.specs.Doing.{asked, led, Tells};
ghost use Rattle.dev_core.specs.Returning.{break_left};

use vm_types::{BoardOp, Op, PortOp, Reply};

/// The act that is wanted.
#[derive(Clone, Copy, Drop)]
pub enum BreakStage {
    /// The port is told.
    Port,
    /// The board's line.
    Line,
}

impl BreakStage {
    pub fn want(&self, port: u8) -> Op
        ensures { asked (break_left self.now port) ≡ Some result }
    {
        match self {
            BreakStage::Port => Op::Port {
                port,
                act: PortOp::Break,
            },
            BreakStage::Line => Op::Board(BoardOp::RaiseLine),
        }
    }

    /// Leads on by a reply: the line follows where the port raised its interrupt. `Some` at the end.
    pub fn give(&mut self, port: u8, reply: &Reply) -> Option<()>
        ensures { Tells (led (break_left self.old port) reply.now) result (break_left self.new port) }
    {
        match (*self, reply) {
            (BreakStage::Port, Reply::Word(1)) => {
                *self = BreakStage::Line;
                None
            }
            _ => Some(()),
        }
    }
}
