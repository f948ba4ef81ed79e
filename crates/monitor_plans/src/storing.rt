// What a PUT and a PATCH of the metadata come to.
ghost use Rattle.std.specs.Prelude.{ℕ, Option, Result};
ghost use Rattle.serde_json.specs.Data.{Data};
ghost use Rattle.refusals.specs.declared.refusal.Refusal.{Refusal};
ghost use Rattle.metadata_store.specs.Store.{Refuses, patched, put};
ghost use Rattle.vm_config.specs.declared.config.Config.{Config};
ghost use Rattle.monitor_plans.specs.Plans.{KeepsReady, PlanCause};
ghost use Rattle.monitor_plans.specs.Storing.{StoreGives};
ghost use Rattle.vm_world.specs.Worlds.{WorldValue};

use crate::plan::Plan;
use metadata_store::{Store, StoreError, Tree};
use std::alloc::Global;

/// What comes of a PUT of this body.
pub fn put_metadata(alloc: Global, body: Tree) -> Plan
    ensures gives { StoreGives result (put body) }
    ensures keeps { (config : Config) (world : Option WorldValue) → KeepsReady result config world }
    ensures cause { (n : ℕ) → PlanCause result n n }
{
    match Store::of_put(alloc, body) {
        Ok(kept) => Plan::Stores(kept),
        Err(why) => plan_of(why),
    }
}

/// What comes of this patch of what is stored.
pub fn patch_metadata(stored: &Store, patch: &Tree) -> Plan
    ensures gives { StoreGives result (patched stored.now patch.now) }
    ensures keeps { (config : Config) (world : Option WorldValue) → KeepsReady result config world }
    ensures cause { (n : ℕ) → PlanCause result n n }
{
    match stored.patched(patch) {
        Ok(kept) => Plan::Stores(kept),
        Err(why) => plan_of(why),
    }
}

// Nothing is stored.
fn plan_of(why: StoreError) -> Plan
    ensures gives { (due : Result Data Refusal) → Refuses why due → StoreGives result due }
    ensures keeps { (config : Config) (world : Option WorldValue) → KeepsReady result config world }
    ensures cause { (n : ℕ) → PlanCause result n n }
{
    match why {
        StoreError::Refused(why) => Plan::Refused(why),
        StoreError::OutOfMemory => Plan::NoMemory,
    }
}
