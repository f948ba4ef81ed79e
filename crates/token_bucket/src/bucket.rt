// The bucket: the burst that is left, what is owed, and when.
ghost use Rattle.std.specs.Prelude.{◌≡◌, ◌+◌, ◌-◌, ◌*◌, ◌^◌, ◌<◌, ◌⊎◌, ◌↔◌};
ghost use Rattle.std.specs.Prelude.{ℕ, List, [], ◌∷◌, max, true, false, IsTrue, IsNone, IfSome};
ghost use Rattle.token_bucket.specs.Rate.{full, rate_of};
ghost use Rattle.token_bucket.specs.Allowance.{Start, Need, may_pass, moment_at, saved, NeverFall};
ghost use Rattle.token_bucket.specs.Kept.{Keeps, IsWait, bucket_from, is_kept, kept_of, new_bucket, owed_of, kept_at, saved_of};
ghost use Rattle.token_bucket.specs.Kept.{owes_at, takes, took, most_owed, waits_until};
ghost use Rattle.token_bucket.specs.Window.{IsLife, IsBounded, Lives, with_need};

use crate::{BucketParts, State};
use std::marker::Model;

const NANOSECONDS: u64 = 1_000_000;

/// A limit on tokens: `size` of them flow in during the refill time, and at most so many are held. A burst is
/// there once, and is spent first. A need beyond the size passes when nothing is owed and leaves a debt, which
/// flows in before anything else passes.
#[derive(Drop)]
pub struct Bucket {
    size: u64,
    /// Nanoseconds in which `size` tokens flow in.
    refill: u64,
    burst: u64,
    /// What a full balance has more than this one, in tokens times nanoseconds.
    owed: u128,
    moment: u64,
}

impl Model for Bucket {
    ghost use Rattle.std.specs.Prelude.{◌≤◌, ◌<◌, ◌+◌, ◌*◌, ◌^◌};
    ghost use Rattle.token_bucket.specs.Kept.{Kept};

    ghost Value = { Kept };

    ghost view = { λ b. record {
      rate = record { size = b.size; refill = b.refill };
      burst = b.burst;
      owes = b.owed;
      moment = b.moment;
    } };

    ghost invariant = { λ b.
        (0 < b.size) × (b.size < 2 ^ 48) × (b.refill < 2 ^ 52) × (b.owed ≤ b.size * b.refill + 2 ^ 127) };
}

/// What is owed to a full balance of this much where the balance is that.
fn owed_for(full: u128, balance: i128) -> u128
    requires { full < 2 ^ 127 }
    ensures { result ≡ owed_of full balance }
{
    if balance < 0 {
        full + balance.unsigned_abs()
    } else {
        full.saturating_sub(balance as u128)
    }
}

impl Bucket {
    /// A full bucket at moment 0 with a burst. None where the size or the milliseconds of refill time are 0, which
    /// is no limit.
    pub fn new(size: u64, burst: u64, ms: u64) -> Option<Bucket>
        requires size { size < 2 ^ 48 }
        requires ms { ms < 2 ^ 32 }
        ensures bucket { result ≡ new_bucket size burst ms }
        ensures none { IsNone result ↔ ((size ≡ 0) ⊎ (ms ≡ 0)) }
        ensures rate { IfSome result (λ bucket. bucket.rate ≡ rate_of size ms) }
        ensures start { IfSome result (λ bucket. Keeps bucket (record { burst = burst; owed = 0; moment = 0 }) []) }
    {
        if size == 0 || ms == 0 {
            return None;
        }
        Some(Bucket {
            size,
            refill: ms * NANOSECONDS,
            burst,
            owed: 0,
            moment: 0,
        })
    }

    /// The bucket that keeps this saved form. None as in `new`.
    pub fn at_state(size: u64, ms: u64, state: State) -> Option<Bucket>
        requires size { size < 2 ^ 48 }
        requires ms { ms < 2 ^ 32 }
        ensures none { IsNone result ↔ ((size ≡ 0) ⊎ (ms ≡ 0)) }
        ensures value { IfSome result (λ bucket. bucket ≡ kept_at (rate_of size ms) state) }
        ensures keeps { IfSome result (λ bucket. (start : Start) (needs : List Need) → NeverFall start needs →
            state ≡ saved (rate_of size ms) start needs → Keeps bucket start needs) }
    {
        if size == 0 || ms == 0 {
            return None;
        }
        let refill = ms * NANOSECONDS;
        Some(Bucket {
            size,
            refill,
            burst: state.burst,
            owed: owed_for(size as u128 * refill as u128, state.balance),
            moment: state.moment,
        })
    }

    /// Goes on at this saved form, as fast as before.
    pub fn restore(&mut self, state: State)
        ensures { self.new ≡ kept_at self.old.rate state }
    {
        self.owed = owed_for(self.size as u128 * self.refill as u128, state.balance);
        self.burst = state.burst;
        self.moment = state.moment;
    }

    /// The saved form.
    pub fn state(&self) -> State
        ensures value { result ≡ saved_of self.now }
        ensures saved { (start : Start) (needs : List Need) → Keeps self.now start needs →
            result ≡ saved self.now.rate start needs }
    {
        let full = self.size as u128 * self.refill as u128;
        let balance = if self.owed <= full {
            (full - self.owed) as i128
        } else {
            -1 - (self.owed - full - 1) as i128
        };
        State {
            burst: self.burst,
            balance,
            moment: self.moment,
        }
    }

    /// The bucket that keeps this, if there may be such a one.
    pub fn from_parts(parts: BucketParts) -> Option<Bucket>
        ensures { result ≡ bucket_from (kept_of parts) }
    {
        let BucketParts {
            size,
            refill,
            burst,
            owed,
            moment,
        } = parts;
        let few = 0 < size && size < 1 << 48 && refill < 1 << 52;
        if few && owed <= size as u128 * refill as u128 + (1 << 127) {
            Some(Bucket {
                size,
                refill,
                burst,
                owed,
                moment,
            })
        } else {
            None
        }
    }

    /// All that it keeps, which a bucket may keep.
    pub fn parts(&self) -> BucketParts
        ensures parts { kept_of result ≡ self.now }
        ensures may { is_kept self.now ≡ true }
    {
        BucketParts {
            size: self.size,
            refill: self.refill,
            burst: self.burst,
            owed: self.owed,
            moment: self.moment,
        }
    }

    /// A bucket that keeps the same.
    pub fn again(&self) -> Bucket
        ensures { result ≡ self.now }
    {
        Bucket {
            size: self.size,
            refill: self.refill,
            burst: self.burst,
            owed: self.owed,
            moment: self.moment,
        }
    }

    /// What is owed at a moment; an earlier one than the newest need's counts as that one.
    fn owed_at(&self, now: u64) -> u128
        ensures { result ≡ owes_at self.now now }
    {
        let passed = now.saturating_sub(self.moment);
        self.owed.saturating_sub(self.size as u128 * passed as u128)
    }

    /// The most that may be owed where a need that adds `adds` passes.
    fn allowed(&self, adds: u64) -> u128
        ensures { result ≡ most_owed self.now.rate adds }
    {
        self.refill as u128 * self.size.saturating_sub(adds) as u128
    }

    fn passes(&self, need: u64, now: u64) -> bool
        ensures answer { (start : Start) (needs : List Need) → Keeps self.now start needs →
            result ≡ may_pass self.now.rate start needs need (moment_at start needs now) }
        ensures takes { result ≡ takes self.now need now }
    {
        let adds = need.saturating_sub(self.burst);
        adds == 0 || self.owed_at(now) <= self.allowed(adds)
    }

    /// Whether so many tokens may pass at a moment. A moment before the newest need's counts as that one.
    pub fn may_take(&self, need: u64, now: u64) -> bool
        ensures answer { (start : Start) (needs : List Need) → Keeps self.now start needs →
            result ≡ may_pass self.now.rate start needs need (moment_at start needs now) }
        ensures takes { result ≡ takes self.now need now }
    {
        self.passes(need, now)
    }

    /// Takes so many tokens at a moment, if they may pass; else nothing changes. A moment before the newest need's
    /// counts as that one. What passes in any window of the bucket's life is at most the burst that is left as it begins, a full
    /// bucket, what flows in, and the excess: what the newest of its needs that the burst doesn't pay whole takes beyond the size.
    pub fn take(&mut self, need: u64, now: u64) -> bool
        ensures answer { (start : Start) (needs : List Need) → Keeps self.old start needs →
            result ≡ may_pass self.old.rate start needs need (moment_at start needs now) }
        ensures passed { IsTrue result → (start : Start) (needs : List Need) → Keeps self.old start needs →
            Keeps self.new start (record { tokens = need; moment = moment_at start needs now } ∷ needs) }
        ensures life { IsTrue result → (start : Start) (needs : List Need) → Keeps self.old start needs →
            IsLife self.old.rate start needs →
            IsLife self.old.rate start (record { tokens = need; moment = moment_at start needs now } ∷ needs) }
        ensures bound { IsTrue result → (start : Start) (needs : List Need) → Lives self.old start needs →
            IsBounded self.old.rate start (with_need start needs need now) }
        ensures takes { result ≡ takes self.old need now }
        ensures took { IsTrue result → self.new ≡ took self.old need now }
        ensures refused { result ≡ false → self.new ≡ self.old }
        ensures rate { self.new.rate ≡ self.old.rate }
    {
        if !self.passes(need, now) {
            return false;
        }
        let adds = need.saturating_sub(self.burst);
        self.owed = self.owed_at(now) + self.refill as u128 * adds as u128;
        self.burst = self.burst.saturating_sub(need);
        if self.moment < now {
            self.moment = now;
        }
        true
    }

    /// The least moment, not before the newest need's, at which so many tokens may pass; `u64::MAX` where that is
    /// later.
    pub fn wait_until(&self, need: u64) -> u64
        ensures wait { (start : Start) (needs : List Need) → Keeps self.now start needs →
            IsWait self.now.rate start needs need result }
        ensures until { result ≡ waits_until self.now need }
    {
        let adds = need.saturating_sub(self.burst);
        if adds == 0 {
            return self.moment;
        }
        let over = self.owed.saturating_sub(self.allowed(adds));
        let size = self.size as u128;
        let wait = self.moment as u128 + (over + (size - 1)) / size;
        if wait < u64::MAX as u128 {
            wait as u64
        } else {
            u64::MAX
        }
    }
}
