// PUT /boot-source
ghost use Rattle.std.specs.Prelude.{◌≡◌, IfOk};
ghost use Rattle.serde_json.specs.View.{view};
ghost use Rattle.api_calls.specs.Call.{made};
ghost use Rattle.api_calls.specs.declared.endpoint.Body.TheVariants as body;

use crate::body::{text, text_or_none};
use crate::form::{Kind, Row};
use crate::levels::{Form, Level, Together};
use api_calls::{ApiCall, BootSource};
use serde_json::Value;
use std::alloc::{AllocError, Global};
use vm_types::TextList;

const LONGEST_ARGS: usize = 2048;

const ROWS: [Row; 3] = [
    Row {
        name: "kernel_image_path",
        required: true,
        kind: Kind::Path,
    },
    Row {
        name: "initrd_path",
        required: false,
        kind: Kind::Path,
    },
    Row {
        name: "boot_args",
        required: false,
        kind: Kind::Text(LONGEST_ARGS),
    },
];

pub static BOOT_SOURCE: Form<'static> = Form {
    levels: &[Level {
        place: &[],
        rows: &ROWS,
    }],
    together: Together::Free,
};

/// The call of a body in which nothing is refused.
pub fn put(alloc: Global, object: &Value) -> Result<ApiCall, AllocError>
    ensures { IfOk result (λ found. found ≡ made body.BootSource (view object.now)) }
{
    let kernel_image_path = TextList::copy_of(alloc, text_or_none(object, "kernel_image_path"))?;
    let initrd_path = match text(object, "initrd_path") {
        Some(path) => Some(TextList::copy_of(alloc, path)?),
        None => None,
    };
    let boot_args = TextList::copy_of(alloc, text_or_none(object, "boot_args"))?;
    Ok(ApiCall::PutBootSource(BootSource {
        kernel_image_path,
        initrd_path,
        boot_args,
    }))
}
