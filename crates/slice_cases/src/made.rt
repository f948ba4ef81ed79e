// Which pages of a world are made: those that something is in.
use crate::adding::ADDS_TO_ONE_WORD;
use boot_loader::Loads;
use std::io;
use vm_types::ActorId;
use vm_world::{StepError, World};

/// Two pages are made at a start, the image's and the tree's. The first hart's atomic operation is on a third, for which one is to be
/// spare.
pub fn print<R: Print + AllocGlobal>(rt: &R) -> io::Result<()> {
    let loads = Loads {
        image: &ADDS_TO_ONE_WORD,
        initrd: None,
        tree: &[1],
    };
    let Ok(mut world) = World::start(rt.alloc(), 2, 4, &loads, &[]) else {
        return println!(rt; "no world");
    };
    println!(rt; "pages: made at a start => {}", made_in(&world))?;
    println!(rt;
        "pages: events before one is lacking => {:?}",
        events_of(&mut world)
    )?;
    println!(rt; "pages: made then => {}", made_in(&world))?;
    world.reserve(rt.alloc(), 1)?;
    println!(rt; "pages: spare then => {}", world.pages().spare())?;
    println!(rt;
        "pages: the event is made => {}",
        world.step(ActorId::Hart(0), None).is_ok()
    )?;
    println!(rt;
        "pages: made and spare in the end => {} {}",
        made_in(&world),
        world.pages().spare()
    )
}

fn made_in(world: &World) -> usize {
    let pages = world.pages();
    pages.len().wrapping_sub(pages.unmade())
}

// How many events hart 0 makes until it lacks a spare page, if that stops it.
fn events_of(world: &mut World) -> Option<u32> {
    for made in 0..100 {
        match world.step(ActorId::Hart(0), None) {
            Ok(_) => {}
            Err(StepError::NoSpare) => return Some(made),
            Err(_) => return None,
        }
    }
    None
}
