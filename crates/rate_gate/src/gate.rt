// The gate, and what a request is told.
ghost use Rattle.std.specs.Prelude.{◌≡◌, ◌↔◌, ◌≢◌, ℕ, IsTrue, true, false, Some, None, if◌then◌else◌, option_map, unwrap_or};
ghost use Rattle.token_bucket.specs.Kept.{saved_of};
ghost use Rattle.rate_gate.specs.Gate.{Buckets, Allows, Adds, WaitsFor, WaitsForBoth, ops_need};
ghost use Rattle.rate_gate.specs.Gate.{bucket_takes, bucket_took, bucket_wait, gate_passes, gate_takes, gate_took, is_limited, with_buckets};
ghost use Rattle.rate_gate.specs.Passing.{told};
ghost use Rattle.rate_gate.specs.Saved.{HaveSameRates, bucket_at, gate_at, gate_saved};
ghost use Rattle.rate_gate.specs.Lives.{LivesOn, StaysBounded};

use crate::GateState;
use std::marker::Model;
use token_bucket::{Bucket, State};

const OPS_NEED: u64 = 1;

/// Whether a request passes.
#[derive(Clone, Copy, Debug)]
pub enum Pass {
    /// It passes, and both buckets gave what it needs.
    Go,
    /// It doesn't, and nothing was taken. The moment is the later of those that the buckets wait for, in
    /// nanoseconds; `u64::MAX` where that is later.
    WaitUntil(u64),
}

/// A limit on bytes and one on operations; either may be absent, which is no limit.
#[derive(Drop)]
pub struct RateGate {
    bandwidth: Option<Bucket>,
    ops: Option<Bucket>,
}

impl Model for RateGate {
    ghost use Rattle.rate_gate.specs.Gate.{Buckets};

    ghost Value = { Buckets };

    ghost view = { λ g. record { bandwidth = g.bandwidth; ops = g.ops } };

    ghost invariant = { λ g. Unit {0} };
}

/// Whether a bucket lets so many tokens pass.
fn allows(bucket: &Option<Bucket>, need: u64, now: u64) -> bool
    ensures answer { IsTrue result ↔ Allows bucket.now need now }
    ensures takes { result ≡ bucket_takes bucket.now need now }
{
    match bucket {
        Some(bucket) => bucket.may_take(need, now),
        None => true,
    }
}

/// The moment that a bucket waits for.
fn wait_of(bucket: &Option<Bucket>, need: u64) -> u64
    ensures wait { WaitsFor bucket.now need result }
    ensures until { result ≡ bucket_wait bucket.now need }
{
    match bucket {
        Some(bucket) => bucket.wait_until(need),
        None => 0,
    }
}

/// Takes so many tokens, which may pass.
fn take_from(bucket: &mut Option<Bucket>, need: u64, now: u64)
    requires { bucket_takes bucket.old need now ≡ true }
    ensures adds { Adds bucket.old bucket.new need now }
    ensures took { bucket.new ≡ bucket_took bucket.old need now }
    ensures life { LivesOn bucket.old bucket.new need now }
    ensures bound { StaysBounded bucket.old need now }
{
    if let Some(bucket) = bucket {
        bucket.take(need, now);
    }
}

/// Puts a bucket in the place of another, where one is named.
fn put(bucket: &mut Option<Bucket>, named: Option<Option<Bucket>>)
    ensures { bucket.new ≡ unwrap_or named bucket.old }
{
    if let Some(named) = named {
        *bucket = named;
    }
}

/// The saved form of a bucket.
fn state_of(bucket: &Option<Bucket>) -> Option<State>
    ensures { result ≡ option_map saved_of bucket.now }
{
    match bucket {
        Some(bucket) => Some(bucket.state()),
        None => None,
    }
}

/// Lets a bucket go on from its saved form.
fn restore(bucket: &mut Option<Bucket>, state: Option<State>)
    ensures { bucket.new ≡ bucket_at bucket.old state }
{
    if let Some(bucket) = bucket {
        if let Some(state) = state {
            bucket.restore(state);
        }
    }
}

fn bucket_again(bucket: &Option<Bucket>) -> Option<Bucket>
    ensures { result ≡ bucket.now }
{
    match bucket {
        Some(bucket) => Some(bucket.again()),
        None => None,
    }
}

impl RateGate {
    /// A gate of these buckets.
    pub fn new(bandwidth: Option<Bucket>, ops: Option<Bucket>) -> RateGate
        ensures bandwidth { result.bandwidth ≡ bandwidth }
        ensures ops { result.ops ≡ ops }
    {
        RateGate { bandwidth, ops }
    }

    /// The bucket of bytes and that of operations.
    pub fn buckets(&self) -> (&Option<Bucket>, &Option<Bucket>)
        ensures bandwidth { result.0.now ≡ self.now.bandwidth }
        ensures ops { result.1.now ≡ self.now.ops }
    {
        (&self.bandwidth, &self.ops)
    }

    /// Whether it has a limit of some kind, and so whether a request needs a moment.
    pub fn is_limited(&self) -> bool
        ensures { result ≡ is_limited self.now }
    {
        self.bandwidth.is_some() || self.ops.is_some()
    }

    /// Replaces the buckets that are named, and keeps the others with all that they have of their past. `Some(None)`
    /// removes a bucket.
    pub fn set_buckets(&mut self, bandwidth: Option<Option<Bucket>>, ops: Option<Option<Bucket>>)
        ensures { self.new ≡ with_buckets self.old bandwidth ops }
    {
        put(&mut self.bandwidth, bandwidth);
        put(&mut self.ops, ops);
    }

    /// The saved form of its buckets.
    pub fn state(&self) -> GateState
        ensures { result ≡ gate_saved self.now }
    {
        GateState {
            bandwidth: state_of(&self.bandwidth),
            ops: state_of(&self.ops),
        }
    }

    /// This gate where each bucket goes on from its saved form, as fast as it is here. A bucket without a saved form
    /// stays, and a saved form without a bucket is nothing. Where a gate of the same rates made it, this is that gate.
    pub fn at_state(mut self, state: GateState) -> RateGate
        ensures value { result ≡ gate_at self state }
        ensures goes_on { (saved : Buckets) → HaveSameRates self saved → state ≡ gate_saved saved → result ≡ saved }
    {
        restore(&mut self.bandwidth, state.bandwidth);
        restore(&mut self.ops, state.ops);
        self
    }

    /// Takes so many bytes and one operation at a moment, if both may pass; else nothing changes. What passes in any window of a
    /// bucket's life is at most the burst that is left as it begins, a full bucket, what flows in, and the excess: what the newest
    /// of its needs that the burst doesn't pay whole takes beyond the bucket's size.
    pub fn take(&mut self, bytes: u64, now: u64) -> Pass
        ensures told { result ≡ told self.old bytes now }
        ensures took { result ≡ Pass.Go → self.new ≡ gate_took self.old bytes now }
        ensures stays { result ≢ Pass.Go → self.new ≡ self.old }
        ensures go { (result ≡ Pass.Go) ↔ (Allows self.old.bandwidth bytes now × Allows self.old.ops ops_need now) }
        ensures bandwidth { result ≡ Pass.Go → Adds self.old.bandwidth self.new.bandwidth bytes now }
        ensures ops { result ≡ Pass.Go → Adds self.old.ops self.new.ops ops_need now }
        ensures wait { (wait : ℕ) → result ≡ Pass.WaitUntil wait → WaitsForBoth self.old bytes wait }
        ensures bandwidth_life { result ≡ Pass.Go → LivesOn self.old.bandwidth self.new.bandwidth bytes now }
        ensures ops_life { result ≡ Pass.Go → LivesOn self.old.ops self.new.ops ops_need now }
        ensures bandwidth_bound { result ≡ Pass.Go → StaysBounded self.old.bandwidth bytes now }
        ensures ops_bound { result ≡ Pass.Go → StaysBounded self.old.ops ops_need now }
    {
        if allows(&self.bandwidth, bytes, now) && allows(&self.ops, OPS_NEED, now) {
            take_from(&mut self.bandwidth, bytes, now);
            take_from(&mut self.ops, OPS_NEED, now);
            return Pass::Go;
        }
        let bandwidth = wait_of(&self.bandwidth, bytes);
        let ops = wait_of(&self.ops, OPS_NEED);
        Pass::WaitUntil(if bandwidth < ops { ops } else { bandwidth })
    }

    /// Whether so many bytes and one operation pass at a moment; where they don't, nothing changes.
    #[tactic(auto, using(crate::proofs::Passing::go_takes, crate::proofs::Passing::wait_waits, crate::proofs::Passing::passes_told,))]
    pub fn passes(&mut self, bytes: u64, now: u64) -> bool
        ensures takes { result ≡ gate_takes self.old bytes now }
        ensures took { result ≡ true → self.new ≡ gate_took self.old bytes now }
        ensures stays { result ≡ false → self.new ≡ self.old }
        ensures passes { gate_passes self.old bytes now ≡ (if result then Some self.new else None) }
    {
        match self.take(bytes, now) {
            Pass::Go => true,
            Pass::WaitUntil(_) => false,
        }
    }

    /// A gate whose buckets keep the same.
    pub fn again(&self) -> RateGate
        ensures { result ≡ self.now }
    {
        RateGate {
            bandwidth: bucket_again(&self.bandwidth),
            ops: bucket_again(&self.ops),
        }
    }
}
