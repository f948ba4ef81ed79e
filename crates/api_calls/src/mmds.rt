// What is configured of the metadata service.
ghost use Rattle.std.specs.Prelude.{◌≡◌, IfOk};

use crate::id_list::IdList;
use metadata_store::MetadataVersion;
use std::alloc::{AllocError, Global};
use vm_types::TextList;

/// How a guest is given metadata over its network.
#[derive(Drop)]
pub struct MmdsConfig {
    /// The ids of the interfaces at which it is given them: at least one.
    pub network_interfaces: IdList,
    pub version: MetadataVersion,
    /// The address at which it asks: four decimal numbers with points between, from 169.254.1.0 to 169.254.254.255.
    pub ipv4_address: TextList,
}

impl MmdsConfig {
    /// A copy of it.
    pub fn copy(&self, alloc: Global) -> Result<MmdsConfig, AllocError>
        ensures { IfOk result (λ copy. copy ≡ self.now) }
    {
        Ok(MmdsConfig {
            network_interfaces: IdList::copy_of(alloc, self.network_interfaces.as_slice())?,
            version: self.version,
            ipv4_address: TextList::copy_of(alloc, self.ipv4_address.as_str())?,
        })
    }
}
