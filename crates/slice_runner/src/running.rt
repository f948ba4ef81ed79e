// All actors at once: each hart in a thread of its own, and the timer and the devices beside them.
ghost use Rattle.std.specs.Prelude.{◌<◌, ℕ, length, All, slice_index_or};
ghost use Rattle.slice_runner.specs.Ends.{BesideEnds, DeviceEnds, DevicesWorked, HartEnds, HartsWorked, IsReady, TimerEnds};
ghost use Rattle.slice_runner.specs.Stops.{timer_most};

use crate::objects::DeviceObjects;
use crate::places::Places;
use crate::worker::{DeviceWorker, HartWorker, TimerWorker};
use pause_gate::Gate;
use std::sync::Wait;
use std::thread::{Threads, for_each_mut, join_mut};
use vm_host::Clock;

/// The steps of a round of the timer: it asks the clock, and advances guest time.
const ROUND: u32 = 2;

// All harts, each in a thread of its own.
fn run_harts<Q: Send + Drop, G: Gate<Pass = Q> + Sync, R: Threads + Wait + Sync>(
    rt: &R,
    gate: &G,
    places: &Places,
    n: u32,
    harts: &mut [HartWorker<Q>],
)
    requires ready { All (λ worker. IsReady (G.serves gate.now) places.now n worker.track) harts.old }
    ensures { (i : ℕ) (d : _) → i < length harts.old →
        HartEnds (G.serves gate.now) G.tally places.now n (slice_index_or harts.old i d) (slice_index_or harts.new i d) }
{
    let threads = harts.len().max(1);
    for_each_mut(
        rt,
        harts,
        threads,
        &|_, worker: &mut HartWorker<Q>|
            requires { IsReady (G.serves gate.now) places.now n worker.now.track }
            ensures { HartEnds (G.serves gate.entry.now) G.tally places.entry.now n worker.entry.now worker.exit.now }
        { run_hart(rt, gate, places, n, worker) },
    );
}

fn run_hart<Q, G: Gate<Pass = Q>, R: Wait>(
    rt: &R,
    gate: &G,
    places: &Places,
    n: u32,
    worker: &mut HartWorker<Q>,
)
    requires ready { IsReady (G.serves gate.now) places.now n worker.old.track }
    ensures { HartEnds (G.serves gate.now) G.tally places.now n worker.old worker.new }
{
    worker.run(rt, gate, places, n);
}

fn run_vec<Q: Send + Drop, G: Gate<Pass = Q> + Sync, R: Threads + Wait + Sync>(
    rt: &R,
    gate: &G,
    places: &Places,
    n: u32,
    harts: &mut Vec<HartWorker<Q>>,
)
    requires ready { All (λ worker. IsReady (G.serves gate.now) places.now n worker.track) harts.old.items }
    ensures { HartsWorked (G.serves gate.now) G.tally places.now n harts.old.items harts.new.items }
{
    run_harts(rt, gate, places, n, harts.as_mut_slice());
}

fn run_timer<Q, C: Clock, G: Gate<Pass = Q>, R: Wait>(
    rt: &R,
    gate: &G,
    places: &Places,
    n: u32,
    clock: &mut C,
    timer: &mut TimerWorker<Q>,
)
    requires ready { IsReady (G.serves gate.now) places.now n timer.old.track }
    ensures { TimerEnds (G.serves gate.now) G.tally places.now (timer_most n)
        (C.known clock.old) (C.known clock.new) timer.old timer.new }
{
    timer.run(rt, gate, places, n.min(ROUND), clock);
}

// A device, until it stops.
fn run_device<Q, O: DeviceObjects, G: Gate<Pass = Q>, R: Wait>(
    rt: &R,
    gate: &G,
    places: &Places,
    n: u32,
    objects: &mut O,
    device: &mut DeviceWorker<Q>,
)
    requires ready { IsReady (G.serves gate.now) places.now n device.old.track }
    ensures { DeviceEnds (G.serves gate.now) G.tally O.Answers places.now n
        (O.known objects.old) (O.known objects.new) device.old device.new }
{
    device.run(rt, gate, places, n, objects);
}

// All devices, one after another.
fn run_devices<Q, O: DeviceObjects, G: Gate<Pass = Q>, R: Wait>(
    rt: &R,
    gate: &G,
    places: &Places,
    n: u32,
    objects: &mut O,
    devices: &mut Vec<DeviceWorker<Q>>,
)
    requires ready { All (λ worker. IsReady (G.serves gate.now) places.now n worker.track) devices.old.items }
    ensures { DevicesWorked (G.serves gate.now) G.tally O.Answers places.now n
        (O.known objects.old) (O.known objects.new) devices.old.items devices.new.items }
{
    for number in 0..devices.len() {
        run_device(rt, gate, places, n, objects, &mut devices[number]);
    }
}

// The worker that is beside the harts: the timer, and then all devices.
fn run_beside<Q, C: Clock, O: DeviceObjects, G: Gate<Pass = Q>, R: Wait>(
    rt: &R,
    gate: &G,
    places: &Places,
    n: u32,
    clock: &mut C,
    objects: &mut O,
    timer: &mut TimerWorker<Q>,
    devices: &mut Vec<DeviceWorker<Q>>,
)
    requires timer { IsReady (G.serves gate.now) places.now n timer.old.track }
    requires devices { All (λ worker. IsReady (G.serves gate.now) places.now n worker.track) devices.old.items }
    ensures { BesideEnds (G.serves gate.now) G.tally O.Answers places.now n (C.known clock.old) (C.known clock.new)
        (O.known objects.old) (O.known objects.new) timer.old timer.new devices.old.items devices.new.items }
{
    run_timer(rt, gate, places, n, clock, timer);
    run_devices(rt, gate, places, n, objects, devices);
}

/// All actors at once, each until it stops: the harts in threads of their own, and in this one the timer, which makes one round
/// at most, and then the devices.
pub fn run_all<
    Q: Send + Drop,
    C: Clock,
    O: DeviceObjects,
    G: Gate<Pass = Q> + Sync,
    R: Threads + Wait + Sync,
>(
    rt: &R,
    gate: &G,
    places: &Places,
    n: u32,
    clock: &mut C,
    objects: &mut O,
    timer: &mut TimerWorker<Q>,
    harts: &mut Vec<HartWorker<Q>>,
    devices: &mut Vec<DeviceWorker<Q>>,
)
    requires timer { IsReady (G.serves gate.now) places.now n timer.old.track }
    requires harts { All (λ worker. IsReady (G.serves gate.now) places.now n worker.track) harts.old.items }
    requires devices { All (λ worker. IsReady (G.serves gate.now) places.now n worker.track) devices.old.items }
    ensures beside { BesideEnds (G.serves gate.now) G.tally O.Answers places.now n (C.known clock.old) (C.known clock.new)
        (O.known objects.old) (O.known objects.new) timer.old timer.new devices.old.items devices.new.items }
    ensures harts { HartsWorked (G.serves gate.now) G.tally places.now n harts.old.items harts.new.items }
{
    let mut there = ||
        requires { All (λ worker. IsReady (G.serves gate.now) places.now n worker.track) harts.now.items }
        ensures { HartsWorked (G.serves gate.entry.now) G.tally places.entry.now n
            harts.entry.now.items harts.exit.now.items }
    { run_vec(rt, gate, places, n, harts) };
    let also_rt = rt;
    let also_gate = gate;
    let also_places = places;
    let mut here = ||
        requires timer { IsReady (G.serves also_gate.now) also_places.now n timer.now.track }
        requires devices { All (λ worker. IsReady (G.serves also_gate.now) also_places.now n worker.track) devices.now.items }
        ensures { BesideEnds (G.serves also_gate.entry.now) G.tally O.Answers also_places.entry.now n
            (C.known clock.entry.now) (C.known clock.exit.now) (O.known objects.entry.now) (O.known objects.exit.now)
            timer.entry.now timer.exit.now devices.entry.now.items devices.exit.now.items }
    {
        run_beside(
            also_rt,
            also_gate,
            also_places,
            n,
            clock,
            objects,
            timer,
            devices,
        )
    };
    join_mut(rt, &mut there, &mut here);
}
