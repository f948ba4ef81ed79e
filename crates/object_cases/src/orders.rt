// An order, a comparison, and the laws at a place and an actor.
use crate::showing::Shown;
use stamp_merge::{History, Layout, agreed_order, compare, one_clock, one_order, sort_all};
use std::alloc::{AllocError, Global};
use vm_types::{Actor, ActorId, Entry, Op, Place, PlaceId, Reply};

pub fn show(alloc: Global, shown: &mut Shown) -> Result<(), AllocError> {
    show_sorted(shown);
    show_compared(alloc, shown)?;
    show_laws(shown);
    Ok(())
}

fn entry(stamp: u64, actor: ActorId, place: PlaceId) -> Entry {
    Entry {
        stamp,
        before: 0,
        actor,
        place,
        op: Op::Idle,
        reply: Reply::Done,
    }
}

fn of(stamp: u64, actor: ActorId) -> Entry {
    entry(stamp, actor, PlaceId::Board)
}

// By stamp, and at one stamp the timer, the harts and the devices.
fn show_sorted(shown: &mut Shown) {
    let mut entries = [
        of(2, ActorId::Device(0)),
        of(1, ActorId::Hart(1)),
        of(2, ActorId::Hart(1)),
        of(1, ActorId::Hart(0)),
        of(2, ActorId::Timer),
    ];
    sort_all(&mut entries);
    for entry in &entries {
        shown.show("sorted", entry);
    }
}

// A history that agrees, and one that is torn where an entry is lost.
fn show_compared(alloc: Global, shown: &mut Shown) -> Result<(), AllocError> {
    let layout = Layout { pages: 1, ports: 0 };
    let page = PlaceId::Page(0);
    let a = entry(1, ActorId::Hart(0), page);
    let out = entry(2, ActorId::Hart(0), PlaceId::Out);
    let c = entry(3, ActorId::Hart(1), page);
    let kept = [History {
        lock: page,
        kept: page,
        entries: [a, c].to_vec(alloc)?,
    }];
    let whole = compare(&[a, out, c], &kept, layout, &mut [7]);
    shown.show("compare: all entries", &whole);
    let lost = compare(&[a, out], &kept, layout, &mut [7]);
    shown.show("compare: one is lost", &lost);
    Ok(())
}

// Nothing that is acted on, and nobody that acts.
#[derive(Drop)]
struct Nothing;

impl Place for Nothing {
    ghost use Rattle.std.specs.Prelude.{false};
    ghost use Rattle.vm_types.specs.declared.reply.Reply.TheVariants.{AccessFault};

    ghost Value = { Unit {0} };

    ghost value = { λ _. tt };

    ghost touch = { λ v _ _. (AccessFault, v) };

    ghost serves = { λ _. false };

    fn act(&mut self, _actor: ActorId, _op: &Op) -> Reply {
        Reply::AccessFault
    }

    ghost replies_fit = { λ v actor op never. absurd (Prim.cc never) };
}

#[derive(Drop)]
struct Nobody;

impl Actor for Nobody {
    ghost use Rattle.std.specs.Prelude.{refl};
    ghost use Rattle.vm_types.specs.declared.op.Op.TheVariants.{Idle};

    ghost State = { Unit {0} };

    ghost state = { λ _. tt };

    ghost wants = { λ _. Idle };

    ghost next = { λ s _. s };

    fn want(&self) -> Op {
        Op::Idle
    }

    fn give(&mut self, _reply: Reply) {}

    ghost leaves = { λ s reply unfit. refl };
}

// The laws hold at a place and an actor.
fn show_laws(shown: &mut Shown) {
    one_order::<Nothing, Nobody>();
    agreed_order::<Nothing, Nobody>();
    one_clock();
    let mut nobody = Nobody;
    nobody.give(Nothing.act(ActorId::Timer, &nobody.want()));
    shown.show("laws: nobody wants", &nobody.want());
}
