// What the commands of a table act on.
use crate::chains::memory::SIZE;
use crate::machines::harts::Trial;
use crate::machines::{boards, harts, pages, places, timers};
use crate::tables::Subject;
use crate::{chains, fillers, instructions, kinds, ports};
use guest_pages::Page;
use line_board::Board;
use mmio_port::Port;
use std::alloc::{AllocError, Global};
use timer_trace::Timer;

/// What a table begins with, and what its commands have made of it.
#[derive(Drop)]
pub struct Bench {
    port: Port,
    memory: Vec<u8>,
    page: Page,
    board: Board,
    timer: Timer,
    trial: Trial,
}

impl Bench {
    pub fn new(alloc: Global) -> Result<Bench, AllocError> {
        Ok(Bench {
            port: ports::first(),
            memory: vec![in alloc; 0u8; SIZE]?,
            page: pages::first(alloc)?,
            board: Board::new(alloc, 1)?,
            timer: Timer::new(),
            trial: Trial::new(alloc),
        })
    }

    /// What the commands of a case are answered, in place of an earlier answer.
    pub fn answer(
        &mut self,
        alloc: Global,
        subject: Subject,
        case: &str,
        answer: &mut String,
    ) -> Result<(), AllocError> {
        answer.clear();
        for command in case.split("; ") {
            if !answer.is_empty() {
                answer.push_str("; ")?;
            }
            self.add(alloc, subject, command, answer)?;
        }
        Ok(())
    }

    // Puts what a command is answered at the end.
    fn add(
        &mut self,
        alloc: Global,
        subject: Subject,
        command: &str,
        text: &mut String,
    ) -> Result<(), AllocError> {
        match subject {
            Subject::Words(asked) => instructions::add(asked, command, text),
            Subject::Calls => instructions::calling::add_step(command, text),
            Subject::CallsLeft => instructions::calling::add_left(command, text),
            Subject::Ports => ports::add(alloc, &mut self.port, command, text),
            Subject::Chains => chains::add(alloc, &mut self.memory, command, text),
            Subject::Fillers => fillers::add(&mut self.memory, command, text),
            Subject::Nets => kinds::add_net(&mut self.memory, command, text),
            Subject::Balloons => kinds::add_balloon(&mut self.memory, command, text),
            Subject::Entropies => kinds::add_entropy(&mut self.memory, command, text),
            Subject::Places => places::add(command, text),
            Subject::Pages => pages::add(alloc, &mut self.page, command, text),
            Subject::Boards => boards::add(alloc, &mut self.board, command, text),
            Subject::Timers => timers::add(alloc, &mut self.timer, command, text),
            Subject::Harts => harts::add(alloc, &mut self.trial, command, text),
        }
    }
}
