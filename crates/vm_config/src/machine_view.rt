// A machine as calls that tell see it.
ghost use Rattle.std.specs.Prelude.{◌≡◌, IfOk};
ghost use Rattle.vm_config.specs.Texts.{text_of};
ghost use Rattle.vm_config.specs.Views.{told_in};

use crate::config::{Config, Phase};
use crate::statistics::Statistics;
use crate::text::{instance, told_statistics, version, vm_config};
use crate::values::{balloon, machine};
use api_calls::Part;
use metadata_store::Store;
use std::alloc::{AllocError, Global};
use vm_types::ByteList;

/// A machine as calls that tell see it.
#[derive(Drop)]
pub struct MachineView<'m> {
    /// The name of the machine.
    pub id: &'m str,
    pub phase: Phase,
    pub config: &'m Config,
    pub metadata: &'m Store,
    /// What its balloon tells, where one runs.
    pub statistics: Option<Statistics>,
}

impl MachineView<'_> {
    /// A part as compact JSON with its keys in byte order.
    #[tactic(auto, using(crate::proofs::TextLemmas::config_whole, crate::proofs::TextLemmas::balloon_whole, crate::proofs::TextLemmas::statistics_whole))]
    pub fn json(&self, alloc: Global, part: Part) -> Result<ByteList, AllocError>
        ensures { IfOk result (λ text. text ≡ text_of part (told_in self.now)) }
    {
        let value = match part {
            Part::Metadata => return self.metadata.get(),
            Part::Instance => instance(alloc, self.id, self.phase)?,
            Part::Version => version(alloc)?,
            Part::MachineConfig => machine(alloc, &self.config.machine)?,
            Part::VmConfig => vm_config(alloc, self.config)?,
            Part::Balloon => balloon(alloc, &self.config.balloon)?,
            Part::Statistics => told_statistics(alloc, &self.config.balloon, self.statistics)?,
        };
        let text = value.to_string(alloc)?;
        Ok(ByteList::from_vec(text.into_bytes()))
    }
}
