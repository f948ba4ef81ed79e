// What holds of every kind of device.
ghost use Rattle.std.specs.Prelude.{◌≡◌, true, List, [], ◌∷◌, ◌++◌};
ghost use Rattle.vm_types.specs.declared.op.Op.{Op};
ghost use Rattle.vm_types.specs.declared.reply.Reply.{Reply};
ghost use Rattle.vm_types.specs.Fits.{fits};
ghost use Rattle.device_trace.specs.Script.{Script};
ghost use Rattle.device_trace.specs.Traces.{Item, Did, Changed, IsPrefix, Continues};
ghost use Rattle.device_trace.specs.States.{Leads, wants, next, changed_at};

/// A kind of device, by its definition alone.
pub trait Device {
    ghost use Rattle.device_trace.specs.Traces.{Rules};

    ghost Data: { Type 0 };

    ghost Change: { Type 0 };

    ghost rules: { Rules Self.Data Self.Change };
}

/// Where items lead from one thing to another that is still to be done, the act that this wants is the one that
/// continues them, and with a fitting reply, or a change from outside, they lead to what comes next.
pub fn device_follows<T: Device>()
    ensures begins { (start : Script T.Data) → Leads T.rules start [] start }
    ensures prefix { (start : Script T.Data) (items : List (Item T.Change)) (left : Script T.Data)
        → Leads T.rules start items left → IsPrefix T.rules start items }
    ensures some { (start : Script T.Data) (items : List (Item T.Change)) → IsPrefix T.rules start items
        → (left : Script T.Data) × Leads T.rules start items left }
    ensures one { (start : Script T.Data) (items : List (Item T.Change)) (left other : Script T.Data)
        → Leads T.rules start items left → Leads T.rules start items other → left ≡ other }
    ensures wants { (start : Script T.Data) (items : List (Item T.Change)) (left : Script T.Data)
        → Leads T.rules start items left → Continues T.rules start items (wants T.rules left) }
    ensures only { (start : Script T.Data) (items : List (Item T.Change)) (left : Script T.Data) (op : Op)
        → Leads T.rules start items left → Continues T.rules start items op → op ≡ wants T.rules left }
    ensures goes_on { (start : Script T.Data) (items : List (Item T.Change)) (left : Script T.Data) (reply : Reply)
        → Leads T.rules start items left → fits (wants T.rules left) reply ≡ true
        → Leads T.rules start (items ++ Did (record { op = wants T.rules left; reply = reply })
        ∷ []) (next T.rules left reply) }
    ensures change { (start : Script T.Data) (items : List (Item T.Change)) (left : Script T.Data) (c : T.Change)
        → Leads T.rules start items left
        → Leads T.rules start (items ++ Changed c ∷ []) (changed_at T.rules c left) }
{}
