// The world: pages, the board, the ports, the timer, the harts and the devices.
ghost use Rattle.std.specs.Prelude.{◌≡◌, ◌≤◌, ◌<◌, ◌++◌, ◌*◌, ◌^◌, true, false, [], length, min, take, drop};
ghost use Rattle.std.specs.Prelude.{replicate, slice_get};
ghost use Rattle.std.specs.Prelude.{IfErr, IfOk, MatchOption, None, Some, OnErr, OnOk, is_ok, Option};
ghost use Rattle.std.specs.Option.{option_map};
ghost use Rattle.vm_types.specs.declared.entry.Entry.{Entry};
ghost use Rattle.vm_types.specs.declared.op.Op.{Op};
ghost use Rattle.guest_memory.specs.Memory.{read_from};
ghost use Rattle.guest_memory.specs.Ram.{is_ram};
ghost use Rattle.guest_pages.specs.Made.{HasRoom, Spends, is_ready};
ghost use Rattle.guest_pages.specs.Marks.{marks_after};
ghost use Rattle.guest_pages.specs.Pages.{cleared, flat_of, marks_of};
ghost use Rattle.boot_loader.specs.declared.booting.BootError as boot_error;
ghost use Rattle.boot_loader.specs.Loading.{have_room, loads_of};
ghost use Rattle.hart_trace.specs.Asks.{is_host_op};
ghost use Rattle.hart_trace.specs.Shown.{register_of};
ghost use Rattle.timer_trace.specs.States.{new_timer};
ghost use Rattle.flat_guest.specs.Guest.{Guest, Wants, is_actor, unwritten};
ghost use Rattle.guest_devices.specs.Kept.{devices_left};
ghost use Rattle.flat_guest.specs.Body.{harts_after, lefts_after, out_reply, reply_at, timer_after, want_of, with_reply};
ghost use Rattle.flat_guest.specs.Given.{as_given};
ghost use Rattle.flat_guest.specs.Given.Given.{Nothing};
ghost use Rattle.flat_guest.specs.Start.{started, timer_restarted};
ghost use Rattle.flat_guest.specs.Steps.{board_after, is_given, memory_after, ports_after};
ghost use Rattle.vm_world.specs.Refusing.{IsRefused, refusal_of};
ghost use Rattle.vm_world.specs.declared.step_error.StepError.TheVariants as step_error;
ghost use Rattle.vm_world.specs.Worlds.{IsWorld, MakesEvent, Runs, pages_of, place_in, want_in, world_with};

mod changing;
mod parting;
mod telling;

use crate::actors::{give_hart, start_harts, want_of_hart};
use crate::hart_run::{act_on_port, run_hart};
use crate::memory::read_pages;
use crate::starting::{devices_at_start, ports_at_start};
use crate::step_error::{NoActor, NotRam, StepError, refusal_of};
pub use crate::world::parting::WorldParts;
use boot_loader::{BootError, Booted, Loads, boot};
use decoded_words::DecodedWords;
use flat_guest::{Layout, place};
use guest_devices::{Device, NewDevice, give_device, want_of_device};
use guest_memory::PAGE_SIZE;
use guest_pages::PageSet;
use hart_rv64::Hart;
use line_board::Board;
use mmio_port::Port;
use std::alloc::{AllocError, Global};
use std::marker::Model;
use timer_trace::Timer;
use vm_types::{Actor, ActorId, Entry, GuestAddr, Op, Place, PlaceId, Reply};

/// Guest memory, the board, the ports, and the actors: the timer, at most 32 harts, and the devices of the ports.
///
/// Contracts see its parts, the pages as the list of their values, and of a device what it has still to do. The guests of
/// the flat machine that it is are those of `IsWorld`: one memory, which the pages are together, the board, the ports, and
/// for each actor the steps that lead to it. The words that are kept decoded for its harts are no part of what it is.
#[derive(Drop)]
pub struct World {
    pages: PageSet,
    board: Board,
    ports: Vec<Port>,
    timer: Timer,
    harts: Vec<Hart>,
    devices: Vec<Device>,
    words: DecodedWords,
}

impl Model for World {
    ghost use Rattle.std.specs.Prelude.{◌≤◌, ◌^◌, length};
    ghost use Rattle.vm_world.specs.Worlds.{WorldValue};

    ghost Value = { WorldValue };

    ghost view = { λ w. record {
      pages = w.pages.pages;
      spare = w.pages.spare;
      board = w.board;
      ports = w.ports.items;
      timer = w.timer;
      harts = w.harts.items;
      devices = w.devices.items;
    } };

    ghost invariant = { λ w. (length w.pages.pages ≤ 2 ^ 28) × (length w.ports.items ≤ 16) };
}

impl World {
    /// The world as a start makes it, with so many harts, so many MiB of memory, at most `flat_guest::MOST_MIB`, and
    /// this in it, and these devices with their ports, of which there are at most 16. No page is marked.
    ///
    /// Errors: `NoRoom` exactly where what is loaded does not fit, unless memory is wanting first, and `OutOfMemory`.
    pub fn start(
        alloc: Global,
        harts: usize,
        mem_size_mib: u64,
        loads: &Loads<'_>,
        devices: &[NewDevice],
    ) -> Result<World, BootError>
        requires few { harts ≤ 32 }
        requires small { mem_size_mib ≤ 2 ^ 20 }
        requires few_devices { length devices.now ≤ 16 }
        ensures world { IfOk result (λ world.
            IsWorld world (started harts mem_size_mib (loads_of loads.now) devices.now)) }
        ensures marks { IfOk result (λ world. marks_of world.pages ≡ replicate (256 * mem_size_mib) false) }
        ensures room { OnOk result (have_room mem_size_mib (loads_of loads.now) ≡ true) }
        ensures no_room { IfErr result (λ why.
            why ≡ boot_error.BootError.NoRoom → have_room mem_size_mib (loads_of loads.now) ≡ false) }
    {
        let Booted { pages, start } = boot(alloc, mem_size_mib, loads)?;
        let Ok(board) = Board::new(alloc, harts) else {
            return Err(BootError::OutOfMemory);
        };
        let Ok(harts) = start_harts(alloc, harts, start) else {
            return Err(BootError::OutOfMemory);
        };
        let Ok(ports) = ports_at_start(alloc, devices) else {
            return Err(BootError::OutOfMemory);
        };
        let Ok(made) = devices_at_start(alloc, pages.len() as u32, devices) else {
            return Err(BootError::OutOfMemory);
        };
        Ok(World::from_parts(pages, board, harts, ports, made))
    }

    /// The world that has these parts, with the timer at its start. There are at most 2^28 pages and 16 ports. It takes
    /// no memory.
    pub fn from_parts(
        pages: PageSet,
        board: Board,
        harts: Vec<Hart>,
        ports: Vec<Port>,
        devices: Vec<Device>,
    ) -> World
        requires few { length pages.pages ≤ 2 ^ 28 }
        requires few_ports { length ports.items ≤ 16 }
        ensures { result ≡ record (world_with pages.pages board ports.items new_timer harts.items devices.items) {
          spare = pages.spare;
        } }
    {
        World {
            pages,
            board,
            ports,
            timer: Timer::new(),
            harts,
            devices,
            words: DecodedWords::new(),
        }
    }

    /// Guest memory.
    pub fn pages(&self) -> &PageSet
        ensures pages { result.now.pages ≡ self.now.pages }
        ensures spare { result.now.spare ≡ self.now.spare }
        ensures few { length result.now.pages ≤ 2 ^ 28 }
    {
        &self.pages
    }

    /// The board.
    pub fn board(&self) -> &Board
        ensures { result.now ≡ self.now.board }
    {
        &self.board
    }

    /// The ports, by their numbers.
    pub fn ports(&self) -> &[Port]
        ensures ports { result.now ≡ self.now.ports }
        ensures few { length result.now ≤ 16 }
    {
        &self.ports
    }

    /// The devices, each by the number of its port.
    pub fn devices(&self) -> &[Device]
        ensures { result.now ≡ self.now.devices }
    {
        &self.devices
    }

    /// The harts, by their numbers.
    pub fn harts(&self) -> &[Hart]
        ensures { result.now ≡ self.now.harts }
    {
        &self.harts
    }

    /// The place of an op: the page of RAM that has all of its bytes, a port, the board, or `Out` where none has it.
    pub fn route(&self, op: &Op) -> PlaceId
        ensures { result ≡ place_in self.now op.now }
    {
        let there = Layout {
            memory_size: PAGE_SIZE * self.pages.len(),
            ports: self.ports.len() as u8,
        };
        place(there, op)
    }

    /// What an actor wants next, or `None` where there is no such actor.
    pub fn want(&self, actor: ActorId) -> Option<Op>
        ensures wants { (g : Guest) → IsWorld self.now g →
            MatchOption result (is_actor g actor ≡ false) (λ op. Wants g actor op) }
        ensures state { result ≡ want_in self.now actor }
    {
        self.want_by(actor)
    }

    fn want_by(&self, actor: ActorId) -> Option<Op>
        ensures { result ≡ want_in self.now actor }
    {
        match actor {
            ActorId::Timer => Some(self.timer.want()),
            ActorId::Hart(number) => want_of_hart(&self.harts, number),
            ActorId::Device(number) => want_of_device(&self.devices, number),
        }
    }

    // What an act is answered by its place, or where it has none.
    fn answer(&mut self, actor: ActorId, place: PlaceId, op: &Op, given: Option<Reply>) -> Reply
        requires place { place ≡ place_in self.old op.now }
        requires ready { is_ready (pages_of self.old) place ≡ true }
        ensures reply { result ≡ reply_at place (flat_of self.old.pages) self.old.board self.old.ports actor op.now (as_given given) }
        ensures memory { flat_of self.new.pages ≡ memory_after place (flat_of self.old.pages) actor op.now }
        ensures marks { marks_of self.new.pages ≡ marks_after place (marks_of self.old.pages) op.now result }
        ensures board { self.new.board ≡ board_after place self.old.board actor op.now }
        ensures ports { self.new.ports ≡ ports_after place self.old.ports actor op.now }
        ensures timer { self.new.timer ≡ self.old.timer }
        ensures harts { self.new.harts ≡ self.old.harts }
        ensures devices { self.new.devices ≡ self.old.devices }
        ensures spends { Spends 1 (pages_of self.old) (pages_of self.new) }
    {
        match place {
            PlaceId::Page(number) => self.pages.act(number as usize, actor, op),
            PlaceId::Board => self.board.act(actor, op),
            PlaceId::Port(number) => act_on_port(&mut self.ports, number, actor, op),
            PlaceId::Out => answer_out(op, given),
        }
    }

    // The reply is given to its actor.
    fn give(&mut self, actor: ActorId, reply: Reply)
        ensures timer { self.new.timer ≡ timer_after actor self.old.timer reply }
        ensures harts { self.new.harts ≡ harts_after actor self.old.harts reply }
        ensures devices { devices_left self.new.devices ≡ lefts_after actor (devices_left self.old.devices) reply }
        ensures pages { self.new.pages ≡ self.old.pages }
        ensures spare { self.new.spare ≡ self.old.spare }
        ensures board { self.new.board ≡ self.old.board }
        ensures ports { self.new.ports ≡ self.old.ports }
    {
        match actor {
            ActorId::Timer => self.timer.give(reply),
            ActorId::Hart(number) => give_hart(&mut self.harts, number, reply),
            ActorId::Device(number) => give_device(&mut self.devices, number, reply),
        }
    }

    // The next event of an actor, which wants this and is given what is due to it.
    fn event(&mut self, actor: ActorId, op: Op, given: Option<Reply>) -> Entry
        requires want { want_in self.old actor ≡ Some op }
        requires given { is_given op (as_given given) ≡ true }
        requires ready { is_ready (pages_of self.old) (place_in self.old op) ≡ true }
        ensures made { MakesEvent self.old (record { actor = actor; given = as_given given }) result self.new }
        ensures there { (next : Op) × (want_in self.new actor ≡ Some next) }
        ensures spends { Spends 1 (pages_of self.old) (pages_of self.new) }
    {
        let place = self.route(&op);
        let reply = self.answer(actor, place, &op, given);
        self.give(actor, reply.again());
        Entry {
            stamp: 0,
            before: 0,
            actor,
            place,
            op,
            reply,
        }
    }

    /// The next event of an actor. `reply` is what a host object answers: it is to be there, and to fit, exactly
    /// where the actor wants an act on one. An error leaves everything as it was.
    ///
    /// Errors: `NoActor` where there is no such actor; `NotWaiting` where a reply is given and no host object is
    /// wanted; `Waits` where one is wanted and no reply is given; `Unfit` where the reply doesn't fit; `NoSpare` where the page
    /// of the want isn't made and none is spare. There is an event wherever none of these holds.
    pub fn step(&mut self, actor: ActorId, reply: Option<Reply>) -> Result<Entry, StepError>
        ensures made { IfOk result (λ e.
            MakesEvent self.old (record { actor = actor; given = as_given reply }) e self.new) }
        ensures refused { IfErr result (λ why. (g : Guest) → IsWorld self.old g → IsRefused g actor reply why) }
        ensures spare { IfErr result (λ why. why ≡ step_error.NoSpare → (op : Op) ×
            (want_in self.old actor ≡ Some op) × (is_ready (pages_of self.old) (place_in self.old op) ≡ false)) }
        ensures promised { (g : Guest) (op : Op) → IsWorld self.old g → Wants g actor op →
            refusal_of op reply ≡ None → is_ready (pages_of self.old) (place_in self.old op) ≡ true → is_ok result ≡ true }
        ensures spends { OnOk result (Spends 1 (pages_of self.old) (pages_of self.new)) }
        ensures err { OnErr result (self.new ≡ self.old) }
    {
        let Some(op) = self.want(actor) else {
            return Err(StepError::NoActor);
        };
        self.step_with(actor, op, reply)
    }

    /// The same of an actor that wants this act, as its caller knows: the want of a device is large, and is asked once.
    pub fn step_with(
        &mut self,
        actor: ActorId,
        op: Op,
        reply: Option<Reply>,
    ) -> Result<Entry, StepError>
        requires { want_in self.old actor ≡ Some op }
        ensures made { IfOk result (λ e.
            MakesEvent self.old (record { actor = actor; given = as_given reply }) e self.new) }
        ensures refused { IfErr result (λ why. (g : Guest) → IsWorld self.old g → IsRefused g actor reply why) }
        ensures spare { IfErr result (λ why. why ≡ step_error.NoSpare → (op : Op) ×
            (want_in self.old actor ≡ Some op) × (is_ready (pages_of self.old) (place_in self.old op) ≡ false)) }
        ensures promised { (g : Guest) (op : Op) → IsWorld self.old g → Wants g actor op →
            refusal_of op reply ≡ None → is_ready (pages_of self.old) (place_in self.old op) ≡ true → is_ok result ≡ true }
        ensures spends { OnOk result (Spends 1 (pages_of self.old) (pages_of self.new)) }
        ensures err { OnErr result (self.new ≡ self.old) }
    {
        if let Some(why) = refusal_of(&op, &reply) {
            return Err(why);
        }
        if !self.is_ready(&op) {
            return Err(StepError::NoSpare);
        }
        Ok(self.event(actor, op, reply))
    }

    // Whether the page where an op acts is made, or one is spare.
    fn is_ready(&self, op: &Op) -> bool
        ensures { result ≡ is_ready (pages_of self.now) (place_in self.now op.now) }
    {
        match self.route(op) {
            PlaceId::Page(number) => self.pages.is_ready(number as usize),
            PlaceId::Board => true,
            PlaceId::Port(_) => true,
            PlaceId::Out => true,
        }
    }

    // The actor's next event, of which nothing is told. False where it waits for a host object's reply.
    #[tactic(auto, using(guest_pages::proofs::Making::no_spends, guest_pages::proofs::Making::room_ready))]
    fn advance(&mut self, actor: ActorId) -> bool
        requires want { (op : Op) × (want_in self.old actor ≡ Some op) }
        requires room { HasRoom 1 (pages_of self.old) }
        ensures made { result ≡ true → (e : Entry)
            × MakesEvent self.old (record { actor = actor; given = Nothing }) e self.new }
        ensures waits { result ≡ false → (op : Op) × (want_in self.old actor ≡ Some op) × (is_host_op op ≡ true) }
        ensures stays { result ≡ false → self.new ≡ self.old }
        ensures there { (op : Op) × (want_in self.new actor ≡ Some op) }
        ensures spends { Spends 1 (pages_of self.old) (pages_of self.new) }
    {
        let Some(op) = self.want(actor) else {
            return false;
        };
        if is_host_op(&op) {
            return false;
        }
        self.event(actor, op, None);
        true
    }

    // Events of an actor that is there, and how many there were.
    fn run_actor(&mut self, actor: ActorId, count: u64) -> u64
        requires want { (op : Op) × (want_in self.old actor ≡ Some op) }
        requires room { HasRoom count (pages_of self.old) }
        ensures { Runs self.old actor count result self.new }
    {
        let mut made = 0;
        while made < count {
            if self.is_off() {
                return made;
            }
            if !self.advance(actor) {
                return made;
            }
            made += 1;
        }
        made
    }

    /// So many events of an actor, or as many as there are before the guest is off or the actor waits for a host
    /// object's reply. The answer is how many. There is room for as many (`reserve`); they take no memory but spare pages.
    ///
    /// Errors: `NoActor` where there is no such actor, and then everything is as it was.
    pub fn run(&mut self, actor: ActorId, count: u64) -> Result<u64, NoActor>
        requires { HasRoom count (pages_of self.old) }
        ensures made { IfOk result (λ made. Runs self.old actor count made self.new) }
        ensures there { (g : Guest) → IsWorld self.old g → is_ok result ≡ is_actor g actor }
        ensures none { OnErr result (want_in self.old actor ≡ None) }
        ensures err { OnErr result (self.new ≡ self.old) }
    {
        if self.want(actor).is_none() {
            return Err(NoActor);
        }
        match actor {
            ActorId::Hart(number) => Ok(self.run_one(number, count)),
            _ => Ok(self.run_actor(actor, count)),
        }
    }

    // Events of the hart of this number, and how many there were.
    fn run_one(&mut self, number: u8, count: u64) -> u64
        requires want { (op : Op) × (want_in self.old (ActorId.Hart number) ≡ Some op) }
        requires room { HasRoom count (pages_of self.old) }
        ensures { Runs self.old (ActorId.Hart number) count result self.new }
    {
        let at = number as usize;
        if at >= self.harts.len() {
            return 0;
        }
        run_hart(
            &mut self.pages,
            &mut self.board,
            &mut self.ports,
            &mut self.harts[at],
            &mut self.words,
            number,
            count,
        )
    }

    /// Makes room for so many events, whatever their pages: as many pages spare as there are events, or pages that aren't made.
    ///
    /// Errors: want of memory, and then everything is as it was.
    pub fn reserve(&mut self, alloc: Global, events: u64) -> Result<(), AllocError>
        ensures room { OnOk result (HasRoom events (pages_of self.new)) }
        ensures ok { self.new ≡ record self.old { spare = self.new.spare } }
        ensures err { OnErr result (self.new ≡ self.old) }
    {
        self.pages.reserve_for(alloc, events)?;
        Ok(())
    }

    /// Puts the timer back to its start, an advance that isn't made yet included.
    pub fn restart_timer(&mut self)
        ensures timer { self.new ≡ record self.old { timer = new_timer } }
        ensures guest { (g : Guest) → IsWorld self.old g → IsWorld self.new (timer_restarted g) }
    {
        self.timer = Timer::new();
    }

    /// Takes the mark of every page away, as after a snapshot.
    pub fn clear_marks(&mut self)
        ensures pages { self.new ≡ record self.old { pages = cleared self.old.pages } }
        ensures guest { (g : Guest) → IsWorld self.old g → IsWorld self.new (unwritten g) }
    {
        self.pages.clear_marks();
    }

    /// How many harts there are.
    pub fn hart_count(&self) -> usize
        ensures { result ≡ length self.now.harts }
    {
        self.harts.len()
    }

    /// Whether the guest is off.
    pub fn is_off(&self) -> bool
        ensures { result ≡ self.now.board.off }
    {
        self.board.is_off()
    }

    /// The console's bytes that were not drained, oldest first.
    pub fn console(&self) -> &[u8]
        ensures { result.now ≡ self.now.board.console }
    {
        self.board.console()
    }

    /// Moves the console's oldest bytes to the front of `out`, as many as both hold, and answers how many.
    pub fn drain(&mut self, out: &mut [u8]) -> usize
        ensures count { result ≡ min (length out.old) (length self.old.board.console) }
        ensures bytes { out.new ≡ take result self.old.board.console ++ drop result out.old }
        ensures left { self.new ≡
            record self.old { board = record self.old.board { console = drop result self.old.board.console } } }
    {
        self.board.drain(out)
    }

    /// Register x0 to x31 of a hart by its number, or its pc by the number 32. `None` where there is no such hart.
    pub fn reg(&self, hart: u8, n: usize) -> Option<u64>
        requires { n ≤ 32 }
        ensures { result ≡ option_map (λ h. register_of h n) (slice_get self.now.harts hart) }
    {
        match self.harts.get(hart as usize) {
            Some(hart) => Some(hart.reg(n)),
            None => None,
        }
    }

    /// Reads as many bytes of memory as `out` has, from this address on. It is no act of the guest's.
    ///
    /// Errors: `NotRam` where not all of them are RAM, and then `out` is as it was.
    pub fn read_memory(&self, at: GuestAddr, out: &mut [u8]) -> Result<(), NotRam>
        ensures ram { is_ok result ≡ is_ram (length (flat_of self.now.pages).bytes) at (length out.old) }
        ensures ok { OnOk result (out.new ≡ read_from (flat_of self.now.pages) at (length out.old)) }
        ensures err { OnErr result (out.new ≡ out.old) }
    {
        read_pages(&self.pages, at, out)
    }
}

fn is_host_op(op: &Op) -> bool
    ensures { result ≡ is_host_op op.now }
{
    matches!(op, Op::Out(_))
}

// With no place: the reply that is given, a wait that is done, or an access that is a fault.
fn answer_out(op: &Op, given: Option<Reply>) -> Reply
    ensures { result ≡ out_reply op.now (as_given given) }
{
    match given {
        Some(reply) => reply,
        None => match op {
            Op::Idle => Reply::Done,
            _ => Reply::AccessFault,
        },
    }
}
