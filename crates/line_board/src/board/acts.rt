// The board as a place.
ghost use Rattle.std.specs.Prelude.{◌≡◌};
ghost use Rattle.vm_types.specs.declared.op.BoardOp.{BoardOp};
ghost use Rattle.vm_types.specs.declared.op.Op.{Op};
ghost use Rattle.vm_types.specs.declared.reply.Reply.{Reply};
ghost use Rattle.board_table.specs.Acts.{advance, board_act, raise_line, touch};

use crate::Board;
use vm_types::{ActorId, BoardOp, Op, Place, Reply, Shown};

impl Board {
    /// What a look of this actor shows: the act, without an op and a reply made for it.
    pub fn show(&mut self, actor: ActorId) -> Shown
        ensures reply { Reply.Shown result ≡ (touch self.old actor (Op.Board BoardOp.Look)).0 }
        ensures value { self.new ≡ (touch self.old actor (Op.Board BoardOp.Look)).1 }
    {
        let hart = self.hart_of(actor);
        self.look(hart)
    }

    fn raise_line(&mut self, actor: ActorId)
        ensures { self.new ≡ raise_line self.old actor }
    {
        match actor {
            ActorId::Device(k) if k < 16 => self.pending |= 1 << k,
            _ => {}
        }
    }

    fn advance(&mut self, nanoseconds: u64)
        ensures { self.new ≡ advance self.old nanoseconds }
    {
        self.moment = self.moment.saturating_add(nanoseconds);
    }

    fn board_act(&mut self, actor: ActorId, act: &BoardOp) -> Reply
        ensures reply { result ≡ (board_act self.old actor act.now).0 }
        ensures value { self.new ≡ (board_act self.old actor act.now).1 }
    {
        let hart = self.hart_of(actor);
        match act {
            BoardOp::Look => Reply::Shown(self.look(hart)),
            BoardOp::Putchar { byte } => self.put_byte(*byte),
            BoardOp::Reset { kind, reason } => self.reset_by(*kind, *reason),
            BoardOp::Time => Reply::Word(self.moment),
            BoardOp::SoftwarePending { clear, set } => self.access_sip(hart, *clear, *set),
            BoardOp::SetTimer { deadline } => self.set_timer(hart, *deadline),
            BoardOp::SendIpi { mask, base } => self.send_ipi(*mask, *base),
            BoardOp::StartHart { hart, pc, word } => self.start_hart(*hart, *pc, *word),
            BoardOp::StopHart => self.stop_hart(hart),
            BoardOp::HartStatus { hart } => self.hart_status(*hart),
            BoardOp::RaiseLine => {
                self.raise_line(actor);
                Reply::Done
            }
            BoardOp::Advance { nanoseconds } => {
                self.advance(*nanoseconds);
                Reply::Done
            }
        }
    }
}

impl Place for Board {
    ghost use Rattle.board_table.specs.Acts.{is_board_op, touch};
    ghost use Rattle.board_table.specs.Board.{Board as BoardValue};
    ghost use Rattle.board_table.specs.Fitting.{board_reply_fits};

    ghost Value = { BoardValue };

    ghost value = { λ b. b };

    ghost touch = { touch };

    ghost serves = { is_board_op };

    ghost replies_fit = { board_reply_fits };

    fn act(&mut self, actor: ActorId, op: &Op) -> Reply {
        match op {
            Op::Board(act) => self.board_act(actor, act),
            Op::Read { at, len } => self.read(*at, *len),
            Op::Write { at, piece } => self.write(*at, piece),
            _ => Reply::AccessFault,
        }
    }
}
