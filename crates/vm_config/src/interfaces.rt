// The network interfaces that are configured.
ghost use Rattle.std.specs.Prelude.{◌≡◌, IfOk};
ghost use Rattle.vm_config.specs.Interfaces.{id_of_interface, patched_interface};

use crate::limits::limited;
use crate::named::{Named, NamedList};
use api_calls::{Interface, InterfacePatch};
use std::alloc::{AllocError, Global};
use vm_types::TextList;

/// The network interfaces of a machine.
pub type Interfaces = NamedList<Interface>;

impl Named for Interface {
    type Patch = InterfacePatch;

    ghost id_of = { id_of_interface };

    ghost named_by = { λ patch. patch.iface_id };

    ghost patched = { patched_interface };

    fn id(&self) -> &str {
        self.iface_id.as_str()
    }

    fn named_by(patch: &InterfacePatch) -> &str {
        patch.iface_id.as_str()
    }

    fn patch(&mut self, patch: InterfacePatch) {
        self.rx_rate_limiter = limited(patch.rx_rate_limiter, self.rx_rate_limiter);
        self.tx_rate_limiter = limited(patch.tx_rate_limiter, self.tx_rate_limiter);
    }

    fn copy(&self, alloc: Global) -> Result<Interface, AllocError> {
        Ok(Interface {
            iface_id: TextList::copy_of(alloc, self.iface_id.as_str())?,
            host_dev_name: TextList::copy_of(alloc, self.host_dev_name.as_str())?,
            guest_mac: text_copy(alloc, &self.guest_mac)?,
            rx_rate_limiter: self.rx_rate_limiter,
            tx_rate_limiter: self.tx_rate_limiter,
        })
    }
}

fn text_copy(alloc: Global, text: &Option<TextList>) -> Result<Option<TextList>, AllocError>
    ensures { IfOk result (λ copy. copy ≡ text.now) }
{
    match text {
        Some(text) => Ok(Some(TextList::copy_of(alloc, text.as_str())?)),
        None => Ok(None),
    }
}
