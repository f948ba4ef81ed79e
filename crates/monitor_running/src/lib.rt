//! A machine that runs in turns, with all that happens in a trace.
//!
//! `run_once` makes one turn of a machine, and `run_while` one after another until a gate is closed. Where two harts or more have
//! something to do a turn is a slice (`slice_runner`), or their events one hart after another, in one thread, where that costs less
//! (`rotating`, by `pacing`); and where one hart alone has, it is events of that one, in one thread (`alone`). Each event goes to the trace as an item, in the order of the turn, and what the console holds after it goes to
//! the sink, its item to the trace first, unless the sink isn't ready: then the console keeps it. Before each turn the devices act, and their disks, links and sockets answer them (`devices`, `asking`); where
//! every hart waits a few events are made in place of a slice (`waiting`). So what the trace took is a run of the flat
//! machine that leaves the machine and shows what the sink took, and where turns end early the sink took a front of what
//! the trace says. What turns are given is one object (`objects`), of which one ghost fact is known, and what steers them another (`steering`). `flat_trace` has what an item of a trace does, `specs/Reached.antt` what is kept, `specs/Asked.antt` what
//! the clock and the objects of devices were asked, and `specs/Ran.antt` how turns go and end.
#![tactic(auto)]

mod alone;
mod asking;
mod devices;
mod gating;
mod hosting;
mod objects;
mod pacing;
mod ran;
mod rotating;
mod running;
mod steering;
mod telling;
mod waiting;
mod working;

pub use devices::run_devices;
pub use hosting::{DeviceHost, TurnHost};
pub use objects::{TracedHost, TurnObjects};
pub use pacing::Pace;
pub use ran::Ran;
pub use running::{end_of_closed, run_once, run_while};
pub use steering::Steering;
pub use waiting::is_quiet;
