// A request as a call.
ghost use Rattle.std.specs.Prelude.{◌≡◌, IfOk};
ghost use Rattle.serde_json.specs.View.{view};
ghost use Rattle.http_stream.specs.Asked.{request_in};
ghost use Rattle.api_calls.specs.Call.{call_of, made, sent};
ghost use Rattle.api_calls.specs.Fields as fields;
ghost use Rattle.api_json.specs.Gives.{Gives};
ghost use Rattle.api_json.specs.Tables.{form_of};

use crate::actions::ACTION;
use crate::balloon::{self, BALLOON, BALLOON_PATCH, STATISTICS_PATCH};
use crate::body::object_of;
use crate::boot_source::{self, BOOT_SOURCE};
use crate::entropy::{self, ENTROPY};
use crate::error::ReadError;
use crate::levels::{Form, refusal};
use crate::machine_config::{self, MACHINE_CONFIG, MACHINE_PATCH};
use crate::metadata::METADATA;
use crate::mmds::{self, MMDS_CONFIG};
use crate::routes::target_of;
use crate::snapshot::{self, SNAPSHOT_CREATE, SNAPSHOT_LOAD};
use crate::vm::{VM_STATE, state_of};
use crate::vsock::{self, VSOCK};
use crate::{drives, interfaces};
use api_calls::{ApiCall, Body, Endpoint};
use http_stream::Asked;
use metadata_store::Tree;
use serde_json::Value;
use std::alloc::{AllocError, Global};

// The fields of a body, by the id in the path, where it has one.
fn form_of(body: Body, id: &[u8]) -> Form<'_>
    ensures { form_of result ≡ fields.form_of body id.now }
{
    match body {
        Body::BootSource => BOOT_SOURCE,
        Body::Drive => drives::put_form(id),
        Body::DrivePatch => drives::patch_form(id),
        Body::Interface => interfaces::put_form(id),
        Body::InterfacePatch => interfaces::patch_form(id),
        Body::Vsock => VSOCK,
        Body::MachineConfig => MACHINE_CONFIG,
        Body::MachinePatch => MACHINE_PATCH,
        Body::Balloon => BALLOON,
        Body::BalloonPatch => BALLOON_PATCH,
        Body::StatisticsPatch => STATISTICS_PATCH,
        Body::Entropy => ENTROPY,
        Body::MmdsConfig => MMDS_CONFIG,
        Body::Metadata | Body::MetadataPatch => METADATA,
        Body::Action => ACTION,
        Body::VmState => VM_STATE,
        Body::SnapshotCreate => SNAPSHOT_CREATE,
        Body::SnapshotLoad => SNAPSHOT_LOAD,
    }
}

fn make(alloc: Global, body: Body, object: Value) -> Result<ApiCall, AllocError>
    ensures { IfOk result (λ found. found ≡ made body (view object)) }
{
    match body {
        Body::BootSource => boot_source::put(alloc, &object),
        Body::Drive => drives::put(alloc, &object),
        Body::DrivePatch => drives::patch(alloc, &object),
        Body::Interface => interfaces::put(alloc, &object),
        Body::InterfacePatch => interfaces::patch(alloc, &object),
        Body::Vsock => vsock::put(alloc, &object),
        Body::MachineConfig => Ok(machine_config::put(&object)),
        Body::MachinePatch => Ok(machine_config::patch(&object)),
        Body::Balloon => Ok(balloon::put(&object)),
        Body::BalloonPatch => Ok(balloon::patch(&object)),
        Body::StatisticsPatch => Ok(balloon::patch_statistics(&object)),
        Body::Entropy => Ok(entropy::put(&object)),
        Body::MmdsConfig => mmds::put(alloc, &object),
        Body::Metadata => Ok(ApiCall::PutMetadata(Tree::of_value(object))),
        Body::MetadataPatch => Ok(ApiCall::PatchMetadata(Tree::of_value(object))),
        Body::Action => Ok(ApiCall::InstanceStart),
        Body::VmState => Ok(ApiCall::PatchVm(state_of(&object))),
        Body::SnapshotCreate => snapshot::create(alloc, &object),
        Body::SnapshotLoad => snapshot::load(alloc, &object),
    }
}

fn read_body(alloc: Global, body: Body, id: &[u8], bytes: &[u8]) -> Result<ApiCall, ReadError>
    ensures { Gives result (sent body id.now bytes.now) }
{
    let object = object_of(alloc, bytes)?;
    let form = form_of(body, id);
    if let Some(why) = refusal(&form, &object) {
        return Err(ReadError::Refused(why));
    }
    let call = make(alloc, body, object)?;
    Ok(call)
}

/// The call that a request asks for.
///
/// `Refused`: by the first of these that fits: its path, its method, its body as JSON, its body as an object, then
/// a field that is unknown, one that is missing, one of the wrong kind, one out of range. The body of a GET isn't
/// looked at.
pub fn read(alloc: Global, request: &Asked<'_>) -> Result<ApiCall, ReadError>
    ensures { Gives result (call_of (request_in request.now)) }
{
    let target = target_of(request.path.as_bytes(), request.method.as_bytes())?;
    match target.endpoint {
        Endpoint::Send(body) => {
            let call = read_body(alloc, body, target.id, request.body)?;
            Ok(call)
        }
        Endpoint::Get(part) => Ok(ApiCall::Get(part)),
    }
}
