// Two thousand acts under one lock, and two harts that meet under locks of their own or miss each other under one.
ghost use Rattle.std.specs.Prelude.{◌≡◌, All};

use crate::acts::{Counter, Lock, act_in_two, lock_of};
use crate::gates::pass_of;
use crate::meeting::party;
use pause_gate::{FlagGate, Gate, HoldGate, Pass};
use std::io;
use std::sync::Wait;
use std::thread::Threads;
use vm_types::{ActorId, Entry, Place, is_same_actor, is_same_entry, is_same_reply};

pub fn print<R: Threads + Wait + Print + AllocGlobal + Sync>(rt: &R) -> io::Result<()> {
    print_history(rt)?;
    let (flag, mut passes) = FlagGate::new(rt.alloc(), 1)?;
    print_met(rt, flag, &mut passes)?;
    print_missed(rt)
}

fn print_history<R: Threads + Wait + Print + AllocGlobal + Sync>(rt: &R) -> io::Result<()> {
    let (gate, _passes) = FlagGate::new(rt.alloc(), 1)?;
    let lock = lock_of(rt.alloc(), 7);
    println!(rt; "lock: the id => {:?}", lock.id())?;
    let (one, other) = act_in_two(rt, &gate, (&lock, &lock), 1000)?;
    println!(rt; "lock: acts of each => {} {}", one.len(), other.len())?;
    print_kept(rt, lock, &one, &other)
}

fn print_kept<R: Print>(rt: &R, lock: Lock, one: &[Entry], other: &[Entry]) -> io::Result<()> {
    let (id, place, history) = lock.into_place();
    println!(rt; "lock: the place's id and count => {id:?} {}", place.count)?;
    let is_history = is_history_of(&history, one, other);
    println!(rt; "lock: the history => {} {is_history}", history.len())
}

// Whether the history replays from 0 with rising stamps, and has the entries of both journals in their orders.
fn is_history_of(history: &[Entry], one: &[Entry], other: &[Entry]) -> bool {
    let mut fresh = Counter { count: 0 };
    let mut last = 0;
    let mut ones = one.iter();
    let mut others = other.iter();
    for entry in history {
        let reply = fresh.act(entry.actor, &entry.op);
        if entry.before != last || entry.stamp <= last || !is_same_reply(&reply, &entry.reply) {
            return false;
        }
        last = entry.stamp;
        let own = if is_same_actor(entry.actor, ActorId::Hart(0)) {
            ones.next()
        } else {
            others.next()
        };
        let Some(own) = own else {
            return false;
        };
        if !is_same_entry(own, entry) {
            return false;
        }
    }
    ones.next().is_none() && others.next().is_none()
}

// Whoever asks after a meeting closes the gate.
fn print_met<R: Threads + Wait + Print + AllocGlobal + Sync>(
    rt: &R,
    flag: FlagGate,
    passes: &mut Vec<Pass>,
) -> io::Result<()>
    requires { All (λ pass. pass.0 ≡ flag) passes.old.items }
{
    let Some(mut pass) = pass_of(&flag, passes) else {
        return println!(rt; "no pass");
    };
    let gate = HoldGate::new(flag, party(0, 7), party(1, 512), 1_000_000_000);
    let before = (gate.meeting(), gate.ask(&mut pass));
    let locks = (lock_of(rt.alloc(), 7), lock_of(rt.alloc(), 512));
    act_in_two(rt, &gate, (&locks.0, &locks.1), 10)?;
    let after = (gate.meeting(), gate.ask(&mut pass));
    println!(rt; "two locks: the meeting and the gate, before and after => {before:?} {after:?}")
}

fn print_missed<R: Threads + Wait + Print + AllocGlobal + Sync>(rt: &R) -> io::Result<()> {
    let (flag, _passes) = FlagGate::new(rt.alloc(), 1)?;
    let gate = HoldGate::new(flag, party(0, 7), party(1, 7), 1000);
    let lock = lock_of(rt.alloc(), 7);
    act_in_two(rt, &gate, (&lock, &lock), 10)?;
    println!(rt; "one lock: the meeting => {:?}", gate.meeting())
}
