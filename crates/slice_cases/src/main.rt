//! Prints which pages of a world are made, and what threads come to: slices of a world, locks that keep histories, places that are
//! acted on by turns, and the gates that all of them ask.
//!
//! What a slice leaves and what an act does is proved. That the threads run, that steps and acts are made, why they end, and
//! that two of them are held at once, is shown here. No line depends on the schedule.
#![tactic(auto)]

mod acts;
mod adding;
mod failing;
mod gates;
mod locks;
mod made;
mod meeting;
mod stops;
mod turns;
mod worlds;

use std::io;

fn main(rt: HostRuntime) -> io::Result<()> {
    made::print(&rt)?;
    adding::print(&rt)?;
    meeting::print(&rt)?;
    stops::print(&rt)?;
    locks::print(&rt)?;
    turns::print(&rt)?;
    gates::print(&rt)
}
