// What holds of every device of a guest.
ghost use Rattle.std.specs.Prelude.{◌≡◌, ◌<◌, ◌≤◌, ◌^◌, ◌++◌, ℕ, true, List};
ghost use Rattle.vm_types.specs.declared.entry.Step.{Step};
ghost use Rattle.vm_types.specs.declared.op.Op.{Op};
ghost use Rattle.vm_types.specs.Fits.{Fits};
ghost use Rattle.device_trace.specs.Acts.{AsksOnly, IsAskedBy};
ghost use Rattle.device_trace.specs.Script.{Script, Ends};
ghost use Rattle.device_trace.specs.States.{LeadsTo};
ghost use Rattle.device_trace.specs.Traces.{Continues, Item};
ghost use Rattle.vq_split.specs.Inside.{IsInside};
ghost use Rattle.queue_device.specs.Rounds.{time_of};
ghost use Rattle.queue_device.specs.Sizes.{IsReplyTo, IsSmallWrite};
ghost use Rattle.guest_devices.specs.declared.change.DeviceChange.{DeviceChange};
ghost use Rattle.guest_devices.specs.declared.device.Device.{Device};
ghost use Rattle.guest_devices.specs.declared.new_device.NewDevice.{NewDevice};
ghost use Rattle.guest_devices.specs.Devices.{DataOf, DeviceLeads, DeviceLeft, DeviceWants, FitsNew, FlatDevice, device_at, device_calls};
ghost use Rattle.guest_devices.specs.Devices.{device_changed, device_did, device_next, device_reset, device_rules};
ghost use Rattle.guest_devices.specs.Devices.{device_told, device_wants, left_reset, left_times, new_device};
ghost use Rattle.guest_devices.specs.Kept.{IsBoundedDevice, device_left, device_pages, device_port, is_device_state, is_kept, is_saved};
ghost use Rattle.guest_devices.specs.Narrow.{IsNarrowDevice, IsNarrowKept, IsNarrowNew};
ghost use Rattle.guest_devices.specs.Kinds.{ChangeOf, FitsChange, IsSmallChange, Kind};
ghost use Rattle.guest_devices.specs.Moments.{IsFreshNew, IsTimelyDevice, is_fresh_change, is_timely};
ghost use Rattle.guest_devices.specs.Sound.{IsSoundDevice};

/// The items of a device lead to one thing that is still to be done, and the act that this wants is the one that the
/// device wants. With a step of it, with a change, or behind a Reset, they lead to what comes next. Where a device begins
/// where a trace led, it wants the one act that continues this trace with its items.
pub fn devices_follow()
    ensures begins { (left : DeviceLeft) → DeviceLeads (device_at left) left }
    ensures one { (d : FlatDevice) (left other : DeviceLeft) →
        DeviceLeads d left → DeviceLeads d other → left ≡ other }
    ensures only { (d : FlatDevice) (left : DeviceLeft) (op : Op) →
        DeviceLeads d left → DeviceWants d op → op ≡ device_wants left }
    ensures wants { (d : FlatDevice) (left : DeviceLeft) (op : Op) →
        DeviceLeads d left → op ≡ device_wants left → DeviceWants d op }
    ensures left { (d : FlatDevice) (op : Op) → DeviceWants d op →
        (left : DeviceLeft) × DeviceLeads d left × (op ≡ device_wants left) }
    ensures goes_on { (d : FlatDevice) (left : DeviceLeft) (s : Step) →
        DeviceLeads d left → s.op ≡ device_wants left → Fits s.op s.reply →
        DeviceLeads (device_did d s) (device_next left s.reply) }
    ensures change { (d : FlatDevice) (left : DeviceLeft) (c : DeviceChange) →
        DeviceLeads d left → DeviceLeads (device_told d c) (device_changed c left) }
    ensures reset { (d : FlatDevice) (left : DeviceLeft) →
        DeviceLeads d left → DeviceLeads (device_reset d) (left_reset left) }
    ensures continues { (k : Kind) (first : DataOf k) (before items : List (Item (ChangeOf k))) (start : Script (DataOf k))
        (op : Op) → LeadsTo (device_rules k) first before start →
        DeviceWants (record { kind = k; start = start; items = items }) op →
        Continues (device_rules k) (Ends first) (before ++ items) op }
    ensures wanted { (k : Kind) (first : DataOf k) (before items : List (Item (ChangeOf k))) (start : Script (DataOf k))
        (op : Op) → LeadsTo (device_rules k) first before start →
        Continues (device_rules k) (Ends first) (before ++ items) op →
        DeviceWants (record { kind = k; start = start; items = items }) op }
{}

/// A sound device always wants something: an act of its own, and of host objects a call of its own, or guest time where a
/// chain waits that is due and that its kind times; inside RAM, where there are less than 2^32 pages. It is sound from its start on, with each fitting reply and each
/// change that fits, behind a Reset, where it goes on from what was left of another, and with whatever bounded data a device may
/// keep. In a guest of at most 2^20 pages some device keeps what its items lead to, and a file may have whatever is kept of it behind
/// a Reset.
pub fn sound_devices()
    ensures begins { (port pages : ℕ) (what : NewDevice) → FitsNew what →
        IsSoundDevice port pages (new_device port pages what) }
    ensures stays { (port pages : ℕ) (d : FlatDevice) (s : Step) →
        IsSoundDevice port pages d → DeviceWants d s.op → Fits s.op s.reply →
        IsSoundDevice port pages (device_did d s) }
    ensures told { (port pages : ℕ) (d : FlatDevice) (c : DeviceChange) → FitsChange c →
        IsSoundDevice port pages d → IsSoundDevice port pages (device_told d c) }
    ensures reset { (port pages : ℕ) (d : FlatDevice) →
        IsSoundDevice port pages d → IsSoundDevice port pages (device_reset d) }
    ensures again { (port pages : ℕ) (d : FlatDevice) (left : DeviceLeft) →
        IsSoundDevice port pages d → DeviceLeads d left → IsSoundDevice port pages (device_at left) }
    ensures resumed { (k : Device) → is_device_state k ≡ true → IsBoundedDevice k →
        IsSoundDevice (device_port k) (device_pages k) (device_at (device_left k)) }
    ensures copied { (port pages : ℕ) (d : FlatDevice) → pages ≤ 2 ^ 20 → IsSoundDevice port pages d →
        (it : Device) × DeviceLeads d (device_left it) × (is_device_state it ≡ true) × IsBoundedDevice it
        × (device_port it ≡ port) × (device_pages it ≡ pages) }
    ensures saved { (port pages : ℕ) (d : FlatDevice) (it : Device) → pages ≤ 2 ^ 20 → IsSoundDevice port pages d →
        DeviceLeads (device_reset d) (device_left it) → is_kept it ≡ true → is_saved it ≡ true }
    ensures some { (port pages : ℕ) (d : FlatDevice) →
        IsSoundDevice port pages d → (op : Op) × DeviceWants d op }
    ensures own { (port pages : ℕ) (d : FlatDevice) (op : Op) (sound : IsSoundDevice port pages d) →
        DeviceWants d op → IsAskedBy (left_times sound.0) (device_calls d) port op }
    ensures inside { (port pages : ℕ) (d : FlatDevice) (op : Op) →
        pages < 2 ^ 32 → IsSoundDevice port pages d → DeviceWants d op → IsInside pages op }
    ensures host { (port pages : ℕ) (d : FlatDevice) (op : Op) →
        IsSoundDevice port pages d → DeviceWants d op → AsksOnly (device_calls d) op }
{}

/// Where each reply is small, each number that is kept of a device has its width: from its start on, where its drive has an id of
/// 20 bytes, with each such reply and each change that fits, and behind a Reset. What it writes are bytes, and some device keeps what
/// its items lead to. All that in a guest of at most 2^20 pages.
pub fn narrow_devices()
    ensures begins { (port pages : ℕ) (what : NewDevice) → pages ≤ 2 ^ 20 → IsNarrowNew what →
        IsNarrowDevice port pages (new_device port pages what) }
    ensures stays { (port pages : ℕ) (d : FlatDevice) (s : Step) → pages ≤ 2 ^ 20 →
        IsNarrowDevice port pages d → DeviceWants d s.op → IsReplyTo true s.op s.reply →
        IsNarrowDevice port pages (device_did d s) }
    ensures told { (port pages : ℕ) (d : FlatDevice) (c : DeviceChange) → pages ≤ 2 ^ 20 → FitsChange c →
        IsSmallChange c → IsNarrowDevice port pages d → IsNarrowDevice port pages (device_told d c) }
    ensures reset { (port pages : ℕ) (d : FlatDevice) → pages ≤ 2 ^ 20 →
        IsNarrowDevice port pages d → IsNarrowDevice port pages (device_reset d) }
    ensures writes { (port pages : ℕ) (d : FlatDevice) (op : Op) → pages ≤ 2 ^ 20 →
        IsNarrowDevice port pages d → DeviceWants d op → IsSmallWrite op }
    ensures copied { (port pages : ℕ) (d : FlatDevice) → pages ≤ 2 ^ 20 → IsNarrowDevice port pages d →
        (it : Device) × DeviceLeads d (device_left it) × (is_device_state it ≡ true) × IsBoundedDevice it
        × (device_port it ≡ port) × (device_pages it ≡ pages) × IsNarrowKept it }
{}

/// No request of a device passes later than guest time: from its start on, with each fitting reply, where guest time is told where it
/// is asked, with each change, behind a Reset, and from kept data on. What is kept of such a device is so.
pub fn timely_devices()
    ensures begins { (time port pages : ℕ) (what : NewDevice) → IsFreshNew what →
        IsTimelyDevice time (new_device port pages what) }
    ensures later { (time later : ℕ) (d : FlatDevice) → time ≤ later → IsTimelyDevice time d → IsTimelyDevice later d }
    ensures stays { (time later : ℕ) (d : FlatDevice) (s : Step) → time ≤ later → (was : IsTimelyDevice time d) →
        DeviceWants d s.op → Fits s.op s.reply → (left_times was.0 ≡ true → time_of s.reply ≤ later) →
        IsTimelyDevice later (device_did d s) }
    ensures told { (time : ℕ) (d : FlatDevice) (c : DeviceChange) → is_fresh_change c ≡ true → IsTimelyDevice time d →
        IsTimelyDevice time (device_told d c) }
    ensures reset { (time : ℕ) (d : FlatDevice) → IsTimelyDevice time d → IsTimelyDevice time (device_reset d) }
    ensures resumed { (time : ℕ) (it : Device) → is_timely time it ≡ true → IsTimelyDevice time (device_at (device_left it)) }
    ensures copied { (time : ℕ) (d : FlatDevice) (it : Device) → is_device_state it ≡ true → DeviceLeads d (device_left it) →
        IsTimelyDevice time d → is_timely time it ≡ true }
{}
