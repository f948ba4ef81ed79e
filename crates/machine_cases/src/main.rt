//! Tells what instructions, ports, chains, fillers, network devices, balloons, entropy devices, pages, boards, timers and harts do, by tables,
//! for the gate to compare with `stdout`. What they do is proved; the values here say that the definitions mean what the manuals say.
//!
//! A table is a file of `data/`, and each of its lines is a case, as the README of its folder says. Those of
//! instructions and ports have behind ` = ` what is wanted: a case is printed where its answer differs, and below them
//! stands how many there are. Any other case is printed with its answer. The status is 1 where a case differs, or where
//! a table has none. A new case is one more line of its table, and in `stdout` another line or number: it costs no
//! proof.
#![tactic(auto)]

mod bench;
mod chains;
mod fillers;
mod instructions;
mod kinds;
mod machines;
mod ports;
mod tables;
mod told;
mod words;

use crate::tables::{Subject, TABLES};
use crate::told::{Told, tell_lines};
use std::process::ExitCode;
use std::{fs, io};

fn main(rt: HostRuntime) -> io::Result<ExitCode> {
    let mut is_well = true;
    for (table, subject) in TABLES {
        let is_as_wanted = print_table(&rt, table, subject)?;
        is_well = is_well && is_as_wanted;
    }
    Ok(if is_well {
        ExitCode::SUCCESS
    } else {
        ExitCode::FAILURE
    })
}

// Whether each case has the answer that is wanted.
fn print_table(rt: &HostRuntime, table: &str, subject: Subject) -> io::Result<bool> {
    let mut told = Told::new(rt.alloc());
    tell_table(rt, table, subject, &mut told)?;
    print!(rt; "{}", told.text())?;
    Ok(told.is_as_wanted())
}

fn tell_table(rt: &HostRuntime, table: &str, subject: Subject, told: &mut Told) -> io::Result<()> {
    let lines = fs::read_to_string(rt, table)?;
    tell_lines(rt.alloc(), table, subject, lines.as_str(), told)?;
    Ok(())
}
