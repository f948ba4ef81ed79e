// How ports stood when their histories began.

use crate::port::Port;
use std::marker::Brand;
use vm_types::Openings;

// The call that begins the histories says how they stood.
impl Openings<Port> for Brand {
    ghost use Rattle.std.specs.Prelude.{[]};
    ghost use Rattle.port_table.specs.Ports.{new_port};
    ghost use Rattle.port_table.specs.declared.kind.DeviceKind.TheVariants.{Block};

    ghost opening = { λ _. new_port Block 0 [] };
}
