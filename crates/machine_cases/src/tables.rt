// The tables of `data/`, in the order in which they are told.
use crate::instructions::Asked;

/// What the cases of a table are about.
#[derive(Clone, Copy, Drop)]
pub enum Subject {
    /// Words of instructions.
    Words(Asked),
    /// What calls give at once, or ask of the board.
    Calls,
    /// What calls leave of the registers.
    CallsLeft,
    Ports,
    Chains,
    Fillers,
    Nets,
    Balloons,
    Entropies,
    Places,
    Pages,
    Boards,
    Timers,
    Harts,
}

impl Subject {
    /// Whether a case has behind ` = ` what is wanted.
    pub fn is_compared(self) -> bool {
        matches!(
            self,
            Subject::Words(_) | Subject::Calls | Subject::CallsLeft | Subject::Ports
        )
    }
}

pub const TABLES: [(&str, Subject); 28] = [
    ("instructions/names", Subject::Words(Asked::Name)),
    ("instructions/corners", Subject::Words(Asked::Name)),
    ("instructions/opcodes", Subject::Words(Asked::DecodedName)),
    ("instructions/operands", Subject::Words(Asked::Operands)),
    ("instructions/effects", Subject::Words(Asked::Effect)),
    ("instructions/branches", Subject::Words(Asked::Effect)),
    ("instructions/values", Subject::Words(Asked::Value)),
    ("instructions/loads", Subject::Words(Asked::Value)),
    ("instructions/calls", Subject::Calls),
    ("instructions/calls_left", Subject::CallsLeft),
    ("instructions/stored", Subject::Words(Asked::Stored)),
    ("instructions/csrs", Subject::Words(Asked::Kept)),
    ("ports/registers", Subject::Ports),
    ("ports/status", Subject::Ports),
    ("ports/queues", Subject::Ports),
    ("ports/configuration", Subject::Ports),
    ("chains/sequences", Subject::Chains),
    ("chains/broken", Subject::Chains),
    ("chains/requests", Subject::Chains),
    ("fillers/sequences", Subject::Fillers),
    ("nets/sequences", Subject::Nets),
    ("balloons/sequences", Subject::Balloons),
    ("entropies/sequences", Subject::Entropies),
    ("machines/places", Subject::Places),
    ("machines/pages", Subject::Pages),
    ("machines/boards", Subject::Boards),
    ("machines/timers", Subject::Timers),
    ("machines/harts", Subject::Harts),
];
