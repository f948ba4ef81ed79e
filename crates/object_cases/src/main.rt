//! Prints what objects in memory and over the real thing do, and what merges, orders and gates answer, for the gate to
//! compare with `stdout`. What they do is proved where a contract can say it; which bytes the system gives and takes,
//! and that a call with enough memory succeeds, is shown here.
//!
//! Each line is what was done, and what came out. `data/` has the files that are read, and the merges, converts and commands that
//! are tried. What is made there is removed.
#![tactic(auto)]

mod accepts;
mod addresses;
mod commands;
mod conns;
mod converts;
mod cut_off;
mod devices;
mod filing;
mod folders;
mod gates;
mod lines;
mod links;
mod lists;
mod locking;
mod merges;
mod orders;
mod parts;
mod showing;
mod silences;
mod sockets;
mod spoilt;
mod steps;
mod stored;
mod streams;
mod vsocks;

use crate::showing::Shown;
use std::alloc::{AllocError, Global};
use std::io;

fn main(rt: HostRuntime) -> io::Result<()> {
    let mut shown = Shown::new(rt.alloc());
    let done = show_all(&rt, &mut shown);
    print!(rt; "{}", shown.whole()?)?;
    done
}

fn show_all(rt: &HostRuntime, shown: &mut Shown) -> io::Result<()> {
    show_in_memory(rt.alloc(), shown)?;
    streams::show(rt, shown)?;
    folders::show(rt, shown)?;
    steps::show(shown);
    sockets::show(rt, shown)?;
    addresses::show(rt, shown)?;
    silences::show(rt, shown)?;
    accepts::show(rt, shown)?;
    links::show(rt, shown)?;
    vsocks::show(rt, shown)?;
    lines::show(rt.alloc(), shown)?;
    stored::show(rt, shown)?;
    locking::show(rt, shown)?;
    parts::show(rt, shown)?;
    show_merges(rt, shown)?;
    orders::show(rt.alloc(), shown)?;
    gates::show(shown);
    Ok(())
}

fn show_in_memory(alloc: Global, shown: &mut Shown) -> Result<(), AllocError> {
    conns::show(alloc, shown)?;
    lists::show(alloc, shown)?;
    filing::show(alloc, shown)?;
    devices::show(alloc, shown)
}

fn show_merges(rt: &HostRuntime, shown: &mut Shown) -> io::Result<()> {
    merges::show(rt, shown)?;
    cut_off::show(rt.alloc(), shown)?;
    converts::show(rt, shown)?;
    spoilt::show(rt.alloc(), shown)?;
    commands::show(rt, shown)
}
