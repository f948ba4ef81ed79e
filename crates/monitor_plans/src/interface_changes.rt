// What a PUT of an interface comes to.
ghost use Rattle.std.specs.Prelude.{◌≡◌, ℕ, Option, None};
ghost use Rattle.vm_world.specs.Worlds.{WorldValue};
ghost use Rattle.api_calls.specs.declared.call.ApiCall.TheVariants as call;
ghost use Rattle.flat_machine.specs.Ready.{IsFitting};
ghost use Rattle.monitor_plans.specs.InterfaceChanges.{InterfacesGive};
ghost use Rattle.monitor_plans.specs.Plans.{KeepsReady, PlanCause};

use crate::plan::Plan;
use crate::taken_config::TakenConfig;
use api_calls::Interface;
use std::alloc::Global;

/// What comes of a PUT of an interface that the machine allows.
pub fn put_interface(alloc: Global, config: &TakenConfig, interface: Interface) -> Plan
    requires { IsFitting config.now (call.PutInterface interface) }
    ensures gives { InterfacesGive result config.now interface }
    ensures keeps { (world : Option WorldValue) → world ≡ None → KeepsReady result config.now world }
    ensures cause { (n : ℕ) → PlanCause result n n }
{
    match config.get().with_interface(alloc, interface) {
        Ok(interfaces) => Plan::Interfaces(interfaces),
        Err(_) => Plan::NoMemory,
    }
}
