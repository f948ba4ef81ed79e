// Network interfaces.
ghost use Rattle.snap_state.specs.Interfaces.{interface};

use crate::filed::{Filed, for_file, taken};
use crate::listed::Item;
use api_calls::{Interface, Limiter};
use file_format::{Input, ReadError, Stored};
use std::alloc::{AllocError, Global};

#[tactic(auto, unfolding(crate::specs::Interfaces::interface))]
impl Item for Interface {
    ghost format = { interface };

    fn write(&self, out: &mut Vec<u8>) -> Result<(), AllocError> {
        self.iface_id.write(out)?;
        self.host_dev_name.write(out)?;
        self.guest_mac.write(out)?;
        for_file(self.rx_rate_limiter).write(out)?;
        for_file(self.tx_rate_limiter).write(out)?;
        Ok(())
    }

    fn read(alloc: Global, input: &mut Input) -> Result<Interface, ReadError> {
        let (iface_id, (host_dev_name, guest_mac)) = Stored::read(alloc, input)?;
        let (rx, tx): (Option<Filed<Limiter>>, Option<Filed<Limiter>>) = Stored::read(
            alloc, input,
        )?;
        Ok(Interface {
            iface_id,
            host_dev_name,
            guest_mac,
            rx_rate_limiter: taken(rx),
            tx_rate_limiter: taken(tx),
        })
    }
}
