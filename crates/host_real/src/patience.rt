// How long a client is waited for.
use std::time::Duration;

/// For a silent one while another client waits, in milliseconds since the last answer, or since the client came.
const WHERE_AWAITED: u64 = 100;

/// For the next answer while another client waits, in milliseconds since that came: who asks again and again has turns.
const TURN: u64 = 100;

/// For a silent one while no other client waits, in milliseconds.
const WHERE_ALONE: u64 = 5_000;

/// For the next bytes of a request that was begun, in milliseconds, whoever waits.
const WHERE_BEGUN: u64 = 10_000;

/// What a client did last, and whether another one waits.
#[derive(Drop)]
pub(crate) struct Patience {
    /// Whether bytes have come since the last answer.
    is_begun: bool,
    /// When the last bytes came or went, by a clock that never goes back.
    since: Duration,
    /// Since when another client waits.
    awaited: Option<Duration>,
}

impl Patience {
    /// The client comes now.
    pub(crate) fn new(now: Duration) -> Patience {
        Patience {
            is_begun: false,
            since: now,
            awaited: None,
        }
    }

    /// Bytes of it have come.
    pub(crate) fn has_heard(&mut self, now: Duration) {
        self.is_begun = true;
        self.since = now;
    }

    /// It has had an answer.
    pub(crate) fn has_told(&mut self, now: Duration) {
        self.is_begun = false;
        self.since = now;
    }

    /// Another client waits, or none does.
    pub(crate) fn has_looked(&mut self, is_awaited: bool, now: Duration) {
        if !is_awaited {
            self.awaited = None;
        } else if self.awaited.is_none() {
            self.awaited = Some(now);
        }
    }

    /// Whether another client waited at the last look.
    pub(crate) fn is_awaited(&self) -> bool {
        self.awaited.is_some()
    }

    /// How much longer it is waited for while it is silent.
    pub(crate) fn left(&self, now: Duration) -> Duration {
        let most = match (self.is_begun, self.awaited) {
            (true, _) => WHERE_BEGUN,
            (false, Some(_)) => WHERE_AWAITED,
            (false, None) => WHERE_ALONE,
        };
        left_of(most, self.since, now)
    }

    /// The moment at which it is over, if the client is silent until then.
    pub(crate) fn end(&self, now: Duration) -> Duration {
        now.saturating_add(self.left(now))
    }

    /// Whether another client has waited for so long that its turn has come behind the next answer.
    pub(crate) fn is_turn_over(&self, now: Duration) -> bool {
        match self.awaited {
            Some(then) => left_of(TURN, then, now).is_zero(),
            None => false,
        }
    }
}

// What is left of so many milliseconds that began then.
fn left_of(most: u64, then: Duration, now: Duration) -> Duration {
    Duration::from_millis(most).saturating_sub(now.saturating_sub(then))
}
