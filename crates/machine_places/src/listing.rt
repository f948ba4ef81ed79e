// A machine's places in a list, and out of it.
ghost use Rattle.std.specs.Prelude.{◌≡◌, ◌+◌, ◌≤◌, ◌^◌, ◌++◌, [], None, List, length, map, vec_len, vec_capacity, All};
ghost use Rattle.vm_types.specs.declared.ids.PlaceId.TheVariants as at;
ghost use Rattle.board_table.specs.Board.{Board as BoardValue};
ghost use Rattle.guest_pages.specs.Pages.{PageValue};
ghost use Rattle.port_table.specs.declared.state.PortState.{PortState};
ghost use Rattle.turn_table.specs.Rule.{IsNew};
ghost use Rattle.machine_places.specs.declared.place.MachinePlace.TheVariants as kind;
ghost use Rattle.machine_places.specs.Laid.{AreLaid, ArePlaces, board_in, id_of, ids_from, pages_in, place_of, ports_in};

use crate::place::MachinePlace;
use guest_pages::Slot;
use line_board::Board;
use mmio_port::Port;
use turn_table::Held;
use vm_types::PlaceId;

// Pages by their numbers behind those that are there.
fn place_pages(pages: Vec<Slot>, places: &mut Vec<Held<MachinePlace>>)
    requires few { length pages.items ≤ 2 ^ 28 }
    requires room { vec_len places.old + length pages.items ≤ vec_capacity places.old }
    requires new { All IsNew places.old.items }
    ensures places { map place_of places.new.items ≡ map place_of places.old.items ++ map kind.Page pages.items }
    ensures ids { map id_of places.new.items ≡ map id_of places.old.items ++ ids_from at.Page 0 (length pages.items) }
    ensures new { All IsNew places.new.items }
    ensures len { vec_len places.new ≡ vec_len places.old + length pages.items }
    ensures room { vec_capacity places.new ≡ vec_capacity places.old }
{
    let mut number = 0;
    let mut rest = pages.into_iter();
    while let Some(page) = rest.next() {
        places.push_reserved(Held::new(PlaceId::Page(number), MachinePlace::Page(page)));
        number += 1;
    }
}

// Ports by their numbers behind those that are there.
fn place_ports(ports: Vec<Port>, places: &mut Vec<Held<MachinePlace>>)
    requires few { length ports.items ≤ 255 }
    requires room { vec_len places.old + length ports.items ≤ vec_capacity places.old }
    requires new { All IsNew places.old.items }
    ensures places { map place_of places.new.items ≡ map place_of places.old.items ++ map kind.Port ports.items }
    ensures ids { map id_of places.new.items ≡ map id_of places.old.items ++ ids_from at.Port 0 (length ports.items) }
    ensures new { All IsNew places.new.items }
    ensures len { vec_len places.new ≡ vec_len places.old + length ports.items }
    ensures room { vec_capacity places.new ≡ vec_capacity places.old }
{
    let mut number = 0;
    let mut rest = ports.into_iter();
    while let Some(port) = rest.next() {
        places.push_reserved(Held::new(PlaceId::Port(number), MachinePlace::Port(port)));
        number += 1;
    }
}

/// The pages, the ports and the board in an empty list with room for them, each at its index; nobody acted on them yet.
pub fn place_all(
    pages: Vec<Slot>,
    ports: Vec<Port>,
    board: Board,
    places: &mut Vec<Held<MachinePlace>>,
)
    requires few { (length pages.items ≤ 2 ^ 28) × (length ports.items ≤ 255) }
    requires empty { places.old.items ≡ [] }
    requires room { length pages.items + (length ports.items + 1) ≤ vec_capacity places.old }
    ensures laid { AreLaid pages.items ports.items board places.new.items }
    ensures new { All IsNew places.new.items }
{
    place_pages(pages, places);
    place_ports(ports, places);
    places.push_reserved(Held::new(PlaceId::Board, MachinePlace::Board(board)));
}

// The pages and the ports of a list in their order, behind those that are there, and its last board, if it has one.
fn take_each(
    places: Vec<Held<MachinePlace>>,
    pages: &mut Vec<Slot>,
    ports: &mut Vec<Port>,
) -> Option<Board>
    requires empty { (pages.old.items ≡ []) × (ports.old.items ≡ []) }
    requires pages { length (pages_in (map place_of places.items)) ≤ vec_capacity pages.old }
    requires ports { length (ports_in (map place_of places.items)) ≤ vec_capacity ports.old }
    ensures pages { pages.new.items ≡ pages_in (map place_of places.items) }
    ensures ports { ports.new.items ≡ ports_in (map place_of places.items) }
    ensures board { result ≡ board_in None (map place_of places.items) }
{
    let mut board = None;
    let mut rest = places.into_iter();
    while let Some(held) = rest.next() {
        let Held {
            id: _,
            round: _,
            last: _,
            place,
            noted: _,
        } = held;
        match place {
            MachinePlace::Page(page) => pages.push_reserved(page),
            MachinePlace::Port(port) => ports.push_reserved(port),
            MachinePlace::Board(last) => board = Some(last),
        }
    }
    board
}

/// The pages, the ports and the board of a list that has a machine's places, the pages and the ports in empty lists with room for
/// them. It takes no memory.
pub fn take_all(
    places: Vec<Held<MachinePlace>>,
    pages: &mut Vec<Slot>,
    ports: &mut Vec<Port>,
) -> Board
    requires empty { (pages.old.items ≡ []) × (ports.old.items ≡ []) }
    requires all { (ps : List PageValue) × (ms : List PortState) × (b : BoardValue) × ArePlaces ps ms b places.items
        × (length ps ≤ vec_capacity pages.old) × (length ms ≤ vec_capacity ports.old) }
    ensures all { (ps : List PageValue) (ms : List PortState) (b : BoardValue) → ArePlaces ps ms b places.items →
        (pages.new.items ≡ ps) × (ports.new.items ≡ ms) × (result ≡ b) }
{
    let Some(board) = take_each(places, pages, ports) else {
        unreachable!()
    };
    board
}
