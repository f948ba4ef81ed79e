// PUT and PATCH /drives/{id}
ghost use Rattle.std.specs.Prelude.{◌≡◌, IfOk};
ghost use Rattle.serde_json.specs.View.{view};
ghost use Rattle.api_calls.specs.Call as call;
ghost use Rattle.api_calls.specs.Fields as fields;
ghost use Rattle.api_calls.specs.Call.{made};
ghost use Rattle.api_calls.specs.declared.endpoint.Body.TheVariants as body;
ghost use Rattle.api_json.specs.Tables.{form_of};

use crate::body::{is_set, text, text_or_none};
use crate::form::{Kind, Row};
use crate::levels::{Form, Level, Together};
use crate::limits::{BUCKET_ROWS, LIMITER_ROWS, limited_levels, limiter_at};
use api_calls::{ApiCall, CacheType, Drive, DrivePatch};
use serde_json::Value;
use std::alloc::{AllocError, Global};
use vm_types::TextList;

const LIMITS: Row = Row {
    name: "rate_limiter",
    required: false,
    kind: Kind::Group,
};

const PUT_ROWS: [Row; 6] = [
    Row {
        name: "drive_id",
        required: true,
        kind: Kind::Id,
    },
    Row {
        name: "path_on_host",
        required: true,
        kind: Kind::Path,
    },
    Row {
        name: "is_root_device",
        required: true,
        kind: Kind::Flag,
    },
    Row {
        name: "is_read_only",
        required: false,
        kind: Kind::Flag,
    },
    Row {
        name: "cache_type",
        required: false,
        kind: Kind::Choice(&["Unsafe", "Writeback"]),
    },
    LIMITS,
];

const PATCH_ROWS: [Row; 3] = [
    Row {
        name: "drive_id",
        required: true,
        kind: Kind::Id,
    },
    Row {
        name: "path_on_host",
        required: false,
        kind: Kind::Path,
    },
    LIMITS,
];

static PUT_LEVELS: [Level; 4] = limited_levels![&PUT_ROWS; "rate_limiter"];

static PATCH_LEVELS: [Level; 4] = limited_levels![&PATCH_ROWS; "rate_limiter"];

/// The fields of a PUT, where the path names the drive of this id.
pub fn put_form(id: &[u8]) -> Form<'_>
    ensures { form_of result ≡ fields.drive id.now }
{
    Form {
        levels: &PUT_LEVELS,
        together: Together::Naming("drive_id", id),
    }
}

/// The fields of a PATCH, where the path names the drive of this id.
pub fn patch_form(id: &[u8]) -> Form<'_>
    ensures { form_of result ≡ fields.drive_patch id.now }
{
    Form {
        levels: &PATCH_LEVELS,
        together: Together::Naming("drive_id", id),
    }
}

// Unsafe, where nothing is said.
fn cache_of(object: &Value) -> CacheType
    ensures { result ≡ call.cache_of (view object.now) }
{
    match text(object, "cache_type") {
        Some(text) => {
            if text == "Writeback" {
                CacheType::Writeback
            } else {
                CacheType::Unsafe
            }
        }
        None => CacheType::Unsafe,
    }
}

/// The call of a body of PUT in which nothing is refused.
pub fn put(alloc: Global, object: &Value) -> Result<ApiCall, AllocError>
    ensures { IfOk result (λ found. found ≡ made body.Drive (view object.now)) }
{
    let drive_id = TextList::copy_of(alloc, text_or_none(object, "drive_id"))?;
    let path_on_host = TextList::copy_of(alloc, text_or_none(object, "path_on_host"))?;
    Ok(ApiCall::PutDrive(Drive {
        drive_id,
        path_on_host,
        is_root_device: is_set(object, "is_root_device"),
        is_read_only: is_set(object, "is_read_only"),
        cache_type: cache_of(object),
        rate_limiter: limiter_at(object, "rate_limiter"),
    }))
}

/// The call of a body of PATCH in which nothing is refused.
pub fn patch(alloc: Global, object: &Value) -> Result<ApiCall, AllocError>
    ensures { IfOk result (λ found. found ≡ made body.DrivePatch (view object.now)) }
{
    let drive_id = TextList::copy_of(alloc, text_or_none(object, "drive_id"))?;
    let path_on_host = match text(object, "path_on_host") {
        Some(path) => Some(TextList::copy_of(alloc, path)?),
        None => None,
    };
    Ok(ApiCall::PatchDrive(DrivePatch {
        drive_id,
        path_on_host,
        rate_limiter: limiter_at(object, "rate_limiter"),
    }))
}
