// PUT /mmds/config
ghost use Rattle.std.specs.Prelude.{◌≡◌, IfOk};
ghost use Rattle.serde_json.specs.View.{view};
ghost use Rattle.api_calls.specs.Call as call;
ghost use Rattle.api_calls.specs.Call.{made};
ghost use Rattle.api_calls.specs.declared.endpoint.Body.TheVariants as body;

use crate::body::text;
use crate::form::{Kind, Row};
use crate::ids::ids_at;
use crate::levels::{Form, Level, Together};
use api_calls::{ApiCall, MmdsConfig};
use metadata_store::MetadataVersion;
use serde_json::Value;
use std::alloc::{AllocError, Global};
use vm_types::TextList;

const DEFAULT_ADDRESS: &str = "169.254.169.254";

const ROWS: [Row; 3] = [
    Row {
        name: "network_interfaces",
        required: true,
        kind: Kind::Ids,
    },
    Row {
        name: "version",
        required: false,
        kind: Kind::Choice(&["V1", "V2"]),
    },
    Row {
        name: "ipv4_address",
        required: false,
        kind: Kind::Address,
    },
];

pub static MMDS_CONFIG: Form<'static> = Form {
    levels: &[Level {
        place: &[],
        rows: &ROWS,
    }],
    together: Together::Free,
};

// The first version, where nothing is said.
fn version_of(object: &Value) -> MetadataVersion
    ensures { result ≡ call.version_of (view object.now) }
{
    match text(object, "version") {
        Some(text) => {
            if text == "V2" {
                MetadataVersion::V2
            } else {
                MetadataVersion::V1
            }
        }
        None => MetadataVersion::V1,
    }
}

/// The call of a body in which nothing is refused.
pub fn put(alloc: Global, object: &Value) -> Result<ApiCall, AllocError>
    ensures { IfOk result (λ found. found ≡ made body.MmdsConfig (view object.now)) }
{
    let network_interfaces = ids_at(alloc, object, "network_interfaces")?;
    let address = text(object, "ipv4_address").unwrap_or(DEFAULT_ADDRESS);
    Ok(ApiCall::PutMmdsConfig(MmdsConfig {
        network_interfaces,
        version: version_of(object),
        ipv4_address: TextList::copy_of(alloc, address)?,
    }))
}
