// The calls of a network device.
ghost use Rattle.std.specs.Prelude.{◌≡◌, ◌&&◌, length, nat_le};
ghost use Rattle.vq_split.specs.Kept.{are_inside};
ghost use Rattle.net_device.specs.Work.{at_work, is_clear};

use crate::kind::{
    HEADER_SIZE, NetChange, NetKind, Stage, has_room, is_frame, limit, piece_length, pieces,
    read_piece, sent_length, stage_again,
};
use dev_core::{Collect, Gather, Scatter, readable, writable};
use queue_device::{Begin, Kind, TakenChain, TakenParts, Which, Work};
use std::mem::replace;
use vm_types::{Op, OutOp, Reply};
use vq_split::{Part, PartList, are_inside};

impl NetKind {
    // Whether no frame is on its way between the link and the driver.
    fn is_clear(&self) -> bool
        ensures { result ≡ is_clear (at_work self.now).bytes }
    {
        self.frame.len() == 0
    }
}

// Whether these parts lie inside RAM, and aren't more than a chain has.
fn are_parts(pages: u32, parts: &[Part]) -> bool
    ensures { result ≡ (are_inside pages parts.now && nat_le (length parts.now) 256) }
{
    are_inside(pages, parts) && parts.len() <= 256
}

impl Kind for NetKind {
    ghost use Rattle.device_trace.specs.Traces.{setting};
    ghost use Rattle.net_device.specs.Net.{Net, is_link_call, limited, net};
    ghost use Rattle.net_device.specs.Work.{AnyNet, AtWork, at_work, hand_of, is_work, own_of};
    ghost use Rattle.std.specs.Prelude.{true};

    type Change = NetChange;

    ghost Own = { Net };

    ghost service = { net };

    ghost changing = { setting limited };

    ghost times = { true };

    ghost calls = { is_link_call };

    ghost Stage = { AtWork };

    ghost own = { own_of };

    ghost stage = { at_work };

    ghost hand = { hand_of };

    ghost is_work = { is_work };

    ghost IsFine = { AnyNet };

    fn last(&self) -> Which {
        Which::Second
    }

    fn may_ask(&self) -> bool {
        true
    }

    fn may_wait(&self) -> bool {
        true
    }

    fn is_taken(&self, which: Which, chain: &TakenChain) -> bool {
        let _ = which;
        let _ = chain;
        true
    }

    fn is_work(&self, work: Work, pages: u32) -> bool {
        match (work, &self.stage) {
            (Work::Rest, Stage::Rest) => self.is_clear(),
            (Work::Answer, Stage::Take(size, index)) => {
                is_frame(*size)
                    && *index < pieces(*size)
                    && self.frame.len() as u64 == HEADER_SIZE as u64 + 64 * *index
            }
            (Work::Serve(Which::First), Stage::Receive(at, to)) => {
                0 < self.share(*at, to) && are_parts(pages, to.parts())
            }
            (Work::Serve(Which::Second), Stage::Read(_, from)) => {
                0 < from.room() && are_parts(pages, from.parts()) && self.is_clear()
            }
            (Work::Serve(Which::Second), Stage::Send(piece, _, from)) => {
                0 < piece.as_slice().len() && are_parts(pages, from.parts()) && self.is_clear()
            }
            (Work::Serve(Which::Second), Stage::End) => self.is_clear(),
            _ => false,
        }
    }

    fn want(&self) -> Op {
        match &self.stage {
            Stage::Rest => Op::Idle,
            Stage::Take(length, index) => Op::Out(OutOp::LinkPart {
                index: *index,
                length: piece_length(*length, *index),
            }),
            Stage::Receive(at, to) => {
                let n = self.share(*at, to);
                to.op(self.frame.piece(*at, n))
            }
            Stage::Read(_, from) => Op::Read {
                at: from.place(),
                len: from.room(),
            },
            Stage::Send(piece, _, _) => Op::Out(OutOp::LinkSend { piece: *piece }),
            Stage::End => Op::Out(OutOp::LinkEnd),
        }
    }

    fn asks(&self) -> bool {
        self.text_len() == 0
    }

    fn question(&self) -> Op {
        Op::Out(OutOp::LinkTake)
    }

    #[tactic(auto, using(crate::proofs::Staying::at_rest))]
    fn answer(&mut self, reply: &Reply) -> Option<bool> {
        match reply {
            Reply::Frame { length } => {
                self.stage = Stage::Rest;
                self.text.clear();
                self.frame.begin();
                self.take_piece(*length, 0)
            }
            _ => Some(false),
        }
    }

    #[tactic(auto, using(crate::proofs::Working::piece_led, crate::proofs::Staying::take_frame, crate::proofs::Staying::at_rest))]
    fn answer_on(&mut self, reply: &Reply) -> Option<bool> {
        match replace(&mut self.stage, Stage::Rest) {
            Stage::Take(length, index) => match reply {
                Reply::Bytes(piece) => {
                    self.frame.append(piece);
                    self.take_piece(length, index + 1)
                }
                _ => {
                    self.rest();
                    Some(false)
                }
            },
            _ => {
                self.rest();
                Some(false)
            }
        }
    }

    fn wants_chain(&self, which: Which, is_kicked: bool) -> bool {
        match which {
            Which::First => self.text_len() != 0,
            Which::Second => is_kicked,
            Which::Third => false,
        }
    }

    fn begun(&mut self, which: Which) {
        let _ = which;
    }

    #[tactic(auto, using(crate::proofs::Staying::taken))]
    fn take(&mut self, which: Which, parts: PartList) -> Option<Option<TakenParts>> {
        let _ = which;
        Some(Some(TakenParts::new(parts, Collect::new())))
    }

    #[tactic(auto, using(crate::proofs::Staying::at_rest))]
    fn take_on(&mut self, reply: &Reply) -> Option<Option<TakenParts>> {
        let _ = reply;
        self.rest();
        Some(None)
    }

    fn is_timed(&self, which: Which, chain: &TakenChain) -> bool {
        match which {
            Which::First => has_room(self.text_len(), chain.parts()) && self.rx.is_limited(),
            Which::Second => is_frame(sent_length(chain.parts())) && self.tx.is_limited(),
            Which::Third => false,
        }
    }

    #[tactic(auto, using(crate::proofs::Passing::passes_first, crate::proofs::Passing::passes_second))]
    fn passes(&mut self, which: Which, chain: &TakenChain, now: u64) -> bool {
        match which {
            Which::First => {
                let bytes = self.text_len().saturating_sub(HEADER_SIZE) as u64;
                self.rx.passes(bytes, now)
            }
            Which::Second => self.tx.passes(sent_length(chain.parts()), now),
            Which::Third => true,
        }
    }

    fn serves(&self, which: Which, chain: &TakenChain) -> Begin {
        match which {
            Which::First => {
                let len = self.text_len();
                if has_room(len, chain.parts()) {
                    self.fill_begins(len, Scatter::new(writable(chain.parts())))
                } else {
                    Begin::Comes(Some(0))
                }
            }
            Which::Second => {
                if !is_frame(sent_length(chain.parts())) {
                    return Begin::Comes(Some(0));
                }
                match Gather::new(readable(chain.parts())).want() {
                    Some(op) => Begin::Wants(op),
                    None => Begin::Wants(Op::Out(OutOp::LinkEnd)),
                }
            }
            Which::Third => Begin::Comes(Some(0)),
        }
    }

    #[tactic(auto, using(crate::proofs::Staying::at_rest))]
    fn serve(&mut self, which: Which, chain: &TakenChain) -> Option<Option<u32>> {
        self.rest();
        match which {
            Which::First => {
                if has_room(self.text_len(), chain.parts()) {
                    self.text_begins();
                    self.fill(0, Scatter::new(writable(chain.parts())))
                } else {
                    self.text.clear();
                    Some(Some(0))
                }
            }
            Which::Second => {
                if is_frame(sent_length(chain.parts())) {
                    self.send_next(HEADER_SIZE, Gather::new(readable(chain.parts())))
                } else {
                    Some(Some(0))
                }
            }
            Which::Third => Some(Some(0)),
        }
    }

    #[tactic(auto, using(crate::proofs::Staying::receive_next, crate::proofs::Staying::read_next, crate::proofs::Staying::send_inside, crate::proofs::Staying::at_rest,))]
    fn serve_on(&mut self, reply: &Reply) -> Option<Option<u32>> {
        match replace(&mut self.stage, Stage::Rest) {
            Stage::Receive(at, to) => {
                let mut to = to;
                let at = self.pass_piece(at, &mut to);
                self.fill(at, to)
            }
            Stage::Read(skip, from) => {
                let mut from = from;
                let (piece, skip) = read_piece(skip, &mut from, reply);
                self.send_piece(piece, skip, from)
            }
            Stage::Send(_, skip, from) => match reply {
                Reply::Done => self.send_next(skip, from),
                _ => {
                    self.rest();
                    Some(Some(0))
                }
            },
            Stage::End => {
                self.rest();
                Some(Some(0))
            }
            Stage::Take(_, _) | Stage::Rest => {
                self.rest();
                Some(None)
            }
        }
    }

    fn over(&mut self, which: Which) {
        let _ = which;
    }

    #[tactic(auto, using(crate::proofs::Staying::at_rest))]
    fn reset(&mut self) {
        self.rest();
        self.text.clear();
    }

    fn change(&mut self, change: NetChange) {
        limit(self, change);
    }

    fn change_inside(&mut self, change: NetChange, op: &Op) -> Option<Reply> {
        let _ = op;
        limit(self, change);
        None
    }

    fn again(&self) -> NetKind {
        NetKind {
            text: self.text.again(),
            frame: self.frame.again(),
            rx: self.rx.again(),
            tx: self.tx.again(),
            stage: stage_again(&self.stage),
        }
    }
}
