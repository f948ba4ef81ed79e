// Requests at a gate of two buckets, of one, and of none, worked by hand.
use crate::showing::Shown;
use rate_gate::{Bucket, RateGate};

pub fn show(shown: &mut Shown) {
    let mut gate = RateGate::new(Bucket::new(1000, 0, 100), Bucket::new(2, 0, 100));
    show_passes(&mut gate, &[(600, 0), (600, 0), (400, 0), (0, 0)], shown);
    let mut gate = RateGate::new(Bucket::new(10, 0, 1), Bucket::new(1, 0, 1000));
    show_passes(
        &mut gate,
        &[
            (10, 0),
            (1, 500_000),
            (30, 1_000_000_000),
            (1, 1_500_000_000),
        ],
        shown,
    );
    let mut gate = RateGate::new(Bucket::new(1000, 0, 100), None);
    show_passes(&mut gate, &[(1000, 7), (0, 8), (1, 8), (0, 9)], shown);
    show_passes(&mut RateGate::new(None, None), &[(u64::MAX, 5); 4], shown);
    show_burst(shown);
    show_saved(shown);
    show_replaced(shown);
}

fn show_passes(gate: &mut RateGate, requests: &[(u64, u64)], shown: &mut Shown) {
    for &(bytes, now) in requests {
        shown.text("gate: ");
        shown.value(&bytes);
        shown.text(" at ");
        shown.value(&now);
        shown.show("", &gate.take(bytes, now));
    }
}

// The burst is spent first, and comes once.
fn show_burst(shown: &mut Shown) {
    let mut gate = RateGate::new(Bucket::new(1000, 500, 100), None);
    show_passes(
        &mut gate,
        &[(500, 0), (1000, 0), (1, 0), (1, 99_999), (1, 100_000)],
        shown,
    );
}

// A debt, and a gate that goes on from what was saved of it.
fn show_saved(shown: &mut Shown) {
    let mut gate = RateGate::new(Bucket::new(1000, 0, 100), None);
    show_passes(
        &mut gate,
        &[(1, 0), (4096, 0), (4096, 100_000), (1, 100_000)],
        shown,
    );
    let state = gate.state();
    shown.show(
        "gate: its balance",
        &state.bandwidth.map(|bucket| bucket.balance),
    );
    let mut gate = RateGate::new(Bucket::new(1000, 0, 100), None).at_state(state);
    show_passes(
        &mut gate,
        &[(1, 100_000), (1, 309_799_999), (1, 309_800_000)],
        shown,
    );
}

// A new bucket is full, and the other one keeps what it gave.
fn show_replaced(shown: &mut Shown) {
    let mut gate = RateGate::new(Bucket::new(1000, 0, 100), Bucket::new(2, 0, 100));
    show_passes(&mut gate, &[(1000, 0)], shown);
    gate.set_buckets(Some(Bucket::new(10, 0, 1)), None);
    show_passes(&mut gate, &[(10, 0), (0, 0)], shown);
    gate.set_buckets(Some(None), Some(None));
    show_passes(&mut gate, &[(u64::MAX, 0)], shown);
}
