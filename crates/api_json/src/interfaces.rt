// PUT and PATCH /network-interfaces/{id}
ghost use Rattle.std.specs.Prelude.{◌≡◌, IfOk};
ghost use Rattle.serde_json.specs.View.{view};
ghost use Rattle.api_calls.specs.Fields as fields;
ghost use Rattle.api_calls.specs.Call.{made};
ghost use Rattle.api_calls.specs.declared.endpoint.Body.TheVariants as body;
ghost use Rattle.api_json.specs.Tables.{form_of};

use crate::addresses::lowered;
use crate::body::{text, text_or_none};
use crate::form::{Kind, Row};
use crate::levels::{Form, Level, Together};
use crate::limits::{BUCKET_ROWS, LIMITER_ROWS, limited_levels, limiter_at};
use api_calls::{ApiCall, Interface, InterfacePatch};
use serde_json::Value;
use std::alloc::{AllocError, Global};
use vm_types::TextList;

const ID: Row = Row {
    name: "iface_id",
    required: true,
    kind: Kind::Id,
};

const RX_LIMITS: Row = Row {
    name: "rx_rate_limiter",
    required: false,
    kind: Kind::Group,
};

const TX_LIMITS: Row = Row {
    name: "tx_rate_limiter",
    required: false,
    kind: Kind::Group,
};

const PUT_ROWS: [Row; 5] = [
    ID,
    Row {
        name: "host_dev_name",
        required: true,
        kind: Kind::Path,
    },
    Row {
        name: "guest_mac",
        required: false,
        kind: Kind::Mac,
    },
    RX_LIMITS,
    TX_LIMITS,
];

const PATCH_ROWS: [Row; 3] = [ID, RX_LIMITS, TX_LIMITS];

static PUT_LEVELS: [Level; 7] = limited_levels![&PUT_ROWS; "rx_rate_limiter", "tx_rate_limiter"];

static PATCH_LEVELS: [Level; 7] =
    limited_levels![&PATCH_ROWS; "rx_rate_limiter", "tx_rate_limiter"];

/// The fields of a PUT, where the path names the interface of this id.
pub fn put_form(id: &[u8]) -> Form<'_>
    ensures { form_of result ≡ fields.interface id.now }
{
    Form {
        levels: &PUT_LEVELS,
        together: Together::Naming("iface_id", id),
    }
}

/// The fields of a PATCH, where the path names the interface of this id.
pub fn patch_form(id: &[u8]) -> Form<'_>
    ensures { form_of result ≡ fields.interface_patch id.now }
{
    Form {
        levels: &PATCH_LEVELS,
        together: Together::Naming("iface_id", id),
    }
}

/// The call of a body of PUT in which nothing is refused.
pub fn put(alloc: Global, object: &Value) -> Result<ApiCall, AllocError>
    ensures { IfOk result (λ found. found ≡ made body.Interface (view object.now)) }
{
    let iface_id = TextList::copy_of(alloc, text_or_none(object, "iface_id"))?;
    let host_dev_name = TextList::copy_of(alloc, text_or_none(object, "host_dev_name"))?;
    let guest_mac = match text(object, "guest_mac") {
        Some(mac) => Some(lowered(alloc, mac)?),
        None => None,
    };
    Ok(ApiCall::PutInterface(Interface {
        iface_id,
        host_dev_name,
        guest_mac,
        rx_rate_limiter: limiter_at(object, "rx_rate_limiter"),
        tx_rate_limiter: limiter_at(object, "tx_rate_limiter"),
    }))
}

/// The call of a body of PATCH in which nothing is refused.
pub fn patch(alloc: Global, object: &Value) -> Result<ApiCall, AllocError>
    ensures { IfOk result (λ found. found ≡ made body.InterfacePatch (view object.now)) }
{
    let iface_id = TextList::copy_of(alloc, text_or_none(object, "iface_id"))?;
    Ok(ApiCall::PatchInterface(InterfacePatch {
        iface_id,
        rx_rate_limiter: limiter_at(object, "rx_rate_limiter"),
        tx_rate_limiter: limiter_at(object, "tx_rate_limiter"),
    }))
}
