// What holds of every guest.
ghost use Rattle.std.specs.Prelude.{◌≡◌, ◌≤◌, ◌<◌, ◌*◌, ◌^◌, ℕ, All, List, Option, None, length, true};
ghost use Rattle.vm_types.specs.declared.entry.Entry.{Entry};
ghost use Rattle.vm_types.specs.declared.ids.ActorId.{ActorId};
ghost use Rattle.vm_types.specs.declared.ids.ActorId.TheVariants.{Hart};
ghost use Rattle.vm_types.specs.declared.op.Op.{Op};
ghost use Rattle.vm_types.specs.declared.reply.Reply.{Reply};
ghost use Rattle.guest_memory.specs.Boot.{Loads, boot_memory, bytes_of_mib};
ghost use Rattle.guest_memory.specs.Reserved.{hart_limit};
ghost use Rattle.port_table.specs.declared.kind.DeviceKind.{DeviceKind};
ghost use Rattle.guest_devices.specs.declared.change.DeviceChange.{DeviceChange};
ghost use Rattle.guest_devices.specs.declared.new_device.NewDevice.{NewDevice};
ghost use Rattle.guest_devices.specs.Devices.{FitsNew};
ghost use Rattle.guest_devices.specs.Kinds.{FitsChange};
ghost use Rattle.guest_devices.specs.Moments.{IsFreshNew, is_fresh_change};
ghost use Rattle.flat_guest.specs.Given.{Event, Given};
ghost use Rattle.flat_guest.specs.Given.Given.{Nothing};
ghost use Rattle.flat_guest.specs.Changes.{reset_guest, told};
ghost use Rattle.flat_guest.specs.Guest.{Guest, Wants, is_actor};
ghost use Rattle.flat_guest.specs.Narrow.{HasWidths, IsSmallGiven};
ghost use Rattle.flat_guest.specs.Same.{AreAlike};
ghost use Rattle.flat_guest.specs.Shaped.{IsShaped, kinds_at_start};
ghost use Rattle.flat_guest.specs.Sound.{IsSound};
ghost use Rattle.flat_guest.specs.Start.{started, timer_restarted};
ghost use Rattle.flat_guest.specs.Steps.{FlatStep, IsUnstamped, StepsBy, guest_after, is_given};

/// An event does one thing: its op, its place, its reply and the guest after it are determined.
pub fn one_step()
    ensures op { (g h k : Guest) (event : Event) (d e : Entry) →
        FlatStep g event d h → FlatStep g event e k → d.op ≡ e.op }
    ensures place { (g h k : Guest) (event : Event) (d e : Entry) →
        FlatStep g event d h → FlatStep g event e k → d.place ≡ e.place }
    ensures reply { (g h k : Guest) (event : Event) (d e : Entry) →
        FlatStep g event d h → FlatStep g event e k → d.reply ≡ e.reply }
    ensures after { (g h k : Guest) (event : Event) (d e : Entry) →
        FlatStep g event d h → FlatStep g event e k → h ≡ k }
    ensures several { (g h k : Guest) (actor : ActorId) (count : ℕ) (ds es : List Entry) →
        StepsBy g actor count ds h → StepsBy g actor count es k → h ≡ k }
    ensures made { (g h k : Guest) (actor : ActorId) (count : ℕ) (ds es : List Entry) →
        StepsBy g actor count ds h → StepsBy g actor count es k → length ds ≡ length es }
{}

/// A guest that has started is never stuck: each of its actors always wants something, which is done with whatever reply
/// is due to it, and so on. A hart never waits for a reply of a host object.
pub fn some_step()
    ensures start { (harts mib : ℕ) (loads : Loads) (devices : List NewDevice) →
        All FitsNew devices → IsSound (started harts mib loads devices) }
    ensures restart { (g : Guest) → IsSound g → IsSound (timer_restarted g) }
    ensures told { (g : Guest) (k : ℕ) (change : DeviceChange) (shown : Option (List ℕ)) →
        FitsChange change → IsSound g → IsSound (told k change shown g) }
    ensures reset { (g : Guest) → IsSound g → IsSound (reset_guest g) }
    ensures step { (g : Guest) (actor : ActorId) → IsSound g → is_actor g actor ≡ true →
        (op : Op) × Wants g actor op × ((given : Given) → is_given op given ≡ true →
        (e : Entry) × (h : Guest) × IsUnstamped e
        × FlatStep g (record { actor = actor; given = given }) e h) }
    ensures harts { (g : Guest) (k : ℕ) → IsSound g → is_actor g (Hart k) ≡ true →
        (e : Entry) × (h : Guest) × IsUnstamped e
        × FlatStep g (record { actor = Hart k; given = Nothing }) e h }
    ensures stays { (g h : Guest) (event : Event) (e : Entry) → IsSound g → FlatStep g event e h → IsSound h }
    ensures several { (count : ℕ) (g : Guest) (actor : ActorId) → IsSound g → is_actor g actor ≡ true →
        (es : List Entry) × (h : Guest) × StepsBy g actor count es h }
{}

/// A guest that has started with at most 32 harts is of the shape that a state file asks, and stays so. Each bucket that comes from
/// outside is one through which nothing passed.
pub fn same_shape()
    ensures start { (harts mib : ℕ) (loads : Loads) (devices : List NewDevice) → harts ≤ hart_limit →
        length (boot_memory mib loads).bytes ≡ bytes_of_mib mib → All IsFreshNew devices →
        IsShaped (256 * mib) harts (kinds_at_start devices) (started harts mib loads devices) }
    ensures restart { (pages harts : ℕ) (kinds : List DeviceKind) (g : Guest) → IsShaped pages harts kinds g →
        IsShaped pages harts kinds (timer_restarted g) }
    ensures told { (pages harts : ℕ) (kinds : List DeviceKind) (g : Guest) (k : ℕ) (change : DeviceChange)
        (shown : Option (List ℕ)) → is_fresh_change change ≡ true → IsShaped pages harts kinds g →
        IsShaped pages harts kinds (told k change shown g) }
    ensures reset { (pages harts : ℕ) (kinds : List DeviceKind) (g : Guest) → IsShaped pages harts kinds g →
        IsShaped pages harts kinds (reset_guest g) }
    ensures stays { (pages harts : ℕ) (kinds : List DeviceKind) (g : Guest) (event : Event) (e : Entry) (h : Guest) →
        IsSound g → IsShaped pages harts kinds g → FlatStep g event e h → IsShaped pages harts kinds h }
{}

/// Guests that are one body's take the same events, each with the same entry, and stay so.
pub fn same_events()
    ensures one { (g h k : Guest) (event : Event) (e : Entry) → AreAlike g h → FlatStep g event e k →
        FlatStep h event e (guest_after h e) × AreAlike k (guest_after h e) }
    ensures several { (g h k : Guest) (actor : ActorId) (count : ℕ) (es : List Entry) → AreAlike g h →
        StepsBy g actor count es k → (l : Guest) × StepsBy h actor count es l × AreAlike k l }
{}

/// Where each number of a guest has its width, an event leaves it so: each reply but a host object's is small by itself, and that
/// one is to be. In a guest of at most 2^20 pages.
pub fn wide_events()
    ensures { (pages harts : ℕ) (g : Guest) (event : Event) (e : Entry) (h : Guest) → pages ≤ 2 ^ 20 →
        IsSound g → HasWidths pages harts g → FlatStep g event e h → IsSmallGiven event.given → HasWidths pages harts h }
{}
