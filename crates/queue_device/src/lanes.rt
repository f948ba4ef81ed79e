// The queues of a device, and the round in hand.
ghost use Rattle.std.specs.Prelude.{◌≡◌, is_some};
ghost use Rattle.queue_device.specs.Lanes.{lane_closed, lane_counted, lane_emptied, lane_freed, lane_given, lane_looked};
ghost use Rattle.queue_device.specs.Lanes.{lane_of, lane_reset, lane_waiting, new_lane, new_rounds, round_begun, round_over};
ghost use Rattle.queue_device.specs.Lanes.{busy, in_lane, is_running, is_up_to, next_rounds, with_due};
ghost use Rattle.queue_device.specs.declared.lanes.Due.TheVariants as due;

use crate::chain::TakenChain;
use dev_core::{is_workable, queue_shown};
use std::mem::replace;
use vm_types::{PortLook, QueueShown};
use vq_split::Queue;

/// Which of a device's queues, by its number: 0, 1 or 2. No device has more.
#[derive(Clone, Copy, Drop)]
pub enum Which {
    First,
    Second,
    Third,
}

/// What is due next.
#[derive(Clone, Copy, Drop)]
pub enum Due {
    /// A look at the port, which begins a round.
    Look,
    /// The question to the host object.
    Question,
    /// A queue.
    Lane(Which),
    /// A wait.
    Wait,
}

/// Where a device stands in a queue.
#[derive(Drop)]
pub struct Lane {
    /// Its registers, where the round in hand works on it.
    pub queue: Option<Queue>,
    /// The chain that waits for guest time.
    pub waiting: Option<TakenChain>,
    /// The number of the next chain, modulo 65,536.
    pub next: u16,
    /// How many chains were given back, modulo 65,536.
    pub used: u16,
    /// Kicked since it was last found empty.
    pub is_kicked: bool,
}

/// The rounds of a device.
#[derive(Drop)]
pub struct Rounds {
    pub first: Lane,
    pub second: Lane,
    pub third: Lane,
    /// How many pages of RAM its guest has.
    pub pages: u32,
    /// The number of its port.
    pub port: u8,
    pub due: Due,
    /// The round in hand gave a chain back or received something.
    pub is_busy: bool,
}

/// Whether Status has DRIVER_OK (VIRTIO 1.2, 2.1).
pub fn is_running(status: u32) -> bool
    ensures { result ≡ is_running status }
{
    status / 4 % 2 == 1
}

/// Whether a device has a queue, by the last one that it has.
pub fn is_up_to(last: Which, which: Which) -> bool
    ensures { result ≡ is_up_to last which }
{
    match last {
        Which::Third => true,
        Which::Second => match which {
            Which::First | Which::Second => true,
            Which::Third => false,
        },
        Which::First => match which {
            Which::First => true,
            Which::Second | Which::Third => false,
        },
    }
}

impl Lane {
    /// A queue that nothing was done in.
    pub fn new() -> Lane
        ensures { result ≡ new_lane }
    {
        Lane {
            queue: None,
            waiting: None,
            next: 0,
            used: 0,
            is_kicked: false,
        }
    }

    fn count(&mut self)
        ensures { self.new ≡ lane_counted self.old }
    {
        self.next = self.next.wrapping_add(1);
    }

    fn give(&mut self)
        ensures { self.new ≡ lane_given self.old }
    {
        self.used = self.used.wrapping_add(1);
    }

    fn hold(&mut self, chain: TakenChain)
        ensures { self.new ≡ lane_waiting chain self.old }
    {
        self.waiting = Some(chain);
    }

    fn look(&mut self, pages: u32, look: &PortLook, shown: &QueueShown)
        ensures { self.new ≡ lane_looked pages look.now.accepted look.now.status shown.now (lane_reset look.now.was_reset self.old) }
    {
        if look.was_reset {
            self.waiting = None;
            self.next = 0;
            self.used = 0;
            self.is_kicked = false;
        }
        self.queue = if is_workable(look.status, shown) {
            Some(queue_shown(pages, look.accepted, shown))
        } else {
            None
        };
        self.is_kicked = self.is_kicked || shown.is_kicked;
    }
}

impl Rounds {
    /// Those of a device at this port that has done nothing, in a guest of so many pages.
    pub fn new(port: u8, pages: u32) -> Rounds
        ensures { result ≡ new_rounds port pages }
    {
        Rounds {
            first: Lane::new(),
            second: Lane::new(),
            third: Lane::new(),
            pages,
            port,
            due: Due::Look,
            is_busy: false,
        }
    }

    /// Where it stands in a queue.
    pub fn lane(&self, which: Which) -> &Lane
        ensures { result.now ≡ lane_of which self.now }
    {
        match which {
            Which::First => &self.first,
            Which::Second => &self.second,
            Which::Third => &self.third,
        }
    }

    /// A look begins a round over the queues up to the last one.
    pub fn begin(&mut self, last: Which, look: &PortLook)
        ensures { self.new ≡ round_begun last look.now self.old }
    {
        if is_up_to(last, Which::First) {
            self.first.look(self.pages, look, &look.first);
        }
        if is_up_to(last, Which::Second) {
            self.second.look(self.pages, look, &look.second);
        }
        if is_up_to(last, Which::Third) {
            self.third.look(self.pages, look, &look.third);
        }
        self.is_busy = false;
    }

    /// The round is over.
    pub fn end(&mut self)
        ensures { self.new ≡ round_over self.old }
    {
        self.first.queue = None;
        self.second.queue = None;
        self.third.queue = None;
        self.due = if self.is_busy { Due::Look } else { Due::Wait };
        self.is_busy = false;
    }

    /// A chain of the queue is begun.
    pub fn count(&mut self, which: Which)
        ensures { self.new ≡ in_lane which lane_counted self.old }
    {
        match which {
            Which::First => self.first.count(),
            Which::Second => self.second.count(),
            Which::Third => self.third.count(),
        }
    }

    /// A chain of the queue is given back.
    pub fn give(&mut self, which: Which)
        ensures { self.new ≡ busy (in_lane which lane_given self.old) }
    {
        match which {
            Which::First => self.first.give(),
            Which::Second => self.second.give(),
            Which::Third => self.third.give(),
        }
        self.is_busy = true;
    }

    /// The queue is found empty.
    pub fn empty(&mut self, which: Which)
        ensures { self.new ≡ in_lane which lane_emptied self.old }
    {
        match which {
            Which::First => self.first.is_kicked = false,
            Which::Second => self.second.is_kicked = false,
            Which::Third => self.third.is_kicked = false,
        }
    }

    /// A chain of the queue waits for guest time, for which it is asked next.
    pub fn wait(&mut self, which: Which, chain: TakenChain)
        ensures { self.new ≡ with_due (due.Lane which) (in_lane which (lane_waiting chain) self.old) }
    {
        match which {
            Which::First => self.first.hold(chain),
            Which::Second => self.second.hold(chain),
            Which::Third => self.third.hold(chain),
        }
        self.due = Due::Lane(which);
    }

    /// The chain of the queue that waited, which waits no longer.
    pub fn free(&mut self, which: Which) -> Option<TakenChain>
        ensures chain { result ≡ (lane_of which self.old).waiting }
        ensures rounds { self.new ≡ in_lane which lane_freed self.old }
    {
        match which {
            Which::First => replace(&mut self.first.waiting, None),
            Which::Second => replace(&mut self.second.waiting, None),
            Which::Third => replace(&mut self.third.waiting, None),
        }
    }

    /// The round goes on with a queue, or is over.
    pub fn next(&mut self, due: Option<Which>)
        ensures { self.new ≡ next_rounds due self.old }
    {
        match due {
            Some(which) => self.due = Due::Lane(which),
            None => self.end(),
        }
    }
}
