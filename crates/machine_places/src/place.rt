// A place of a machine.
use guest_pages::{Blank, Slot};
use line_board::Board;
use mmio_port::Port;
use turn_table::Fed;
use vm_types::{ActorId, Op, Place, Reply};

/// A page, a port or the board. A port and the board are made when the machine is, and a page when something is first left in it.
#[derive(Drop)]
pub enum MachinePlace {
    Page(Slot),
    Port(Port),
    Board(Board),
}

#[tactic(auto, using(crate::proofs::Feeding::can_make, crate::proofs::Feeding::takes_one, crate::proofs::Feeding::took_makes, crate::proofs::Feeding::made_takes))]
impl Fed for MachinePlace {
    ghost use Rattle.std.specs.Prelude.{length};
    ghost use Rattle.machine_places.specs.declared.place.MachinePlace.{MachinePlace as PlaceValue};
    ghost use Rattle.machine_places.specs.Acts.{IsMade, touch};

    type Pool = Vec<Blank>;

    ghost Value = { PlaceValue };

    ghost value = { λ p. p };

    ghost touch = { touch };

    ghost made = { IsMade };

    ghost blanks = { λ pool. length pool.items };

    fn act_fed(&mut self, pool: &mut Vec<Blank>, actor: ActorId, op: &Op) -> Reply {
        match self {
            MachinePlace::Page(page) => page.act(pool, actor, op),
            MachinePlace::Port(port) => port.act(actor, op),
            MachinePlace::Board(board) => board.act(actor, op),
        }
    }
}
