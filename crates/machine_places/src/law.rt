// What is so of the indices.
ghost use Rattle.std.specs.Prelude.{◌+◌};
ghost use Rattle.stamp_merge.specs.declared.layout.Layout.{Layout};
ghost use Rattle.turn_law.specs.Rounds.{IsIndex};
ghost use Rattle.machine_places.specs.Laid.{index_among};

/// No two places have one index, of those that there are.
pub fn indices_differ()
    ensures { (layout : Layout) → IsIndex (index_among layout) (layout.pages + (layout.ports + 1)) }
{}
