// PUT /snapshot/create and PUT /snapshot/load
ghost use Rattle.std.specs.Prelude.{◌≡◌, IfOk};
ghost use Rattle.serde_json.specs.View.{view};
ghost use Rattle.api_calls.specs.Call as call;
ghost use Rattle.api_calls.specs.Call.{made};
ghost use Rattle.api_calls.specs.declared.endpoint.Body.TheVariants as body;

use crate::body::{is_set, text, text_or_none};
use crate::form::{Kind, Row};
use crate::levels::{Form, Level, Together};
use api_calls::{ApiCall, SnapshotCreate, SnapshotFiles, SnapshotLoad, SnapshotType};
use serde_json::Value;
use std::alloc::{AllocError, Global};
use vm_types::TextList;

const CREATE_ROWS: [Row; 3] = [
    Row {
        name: "snapshot_path",
        required: true,
        kind: Kind::Path,
    },
    Row {
        name: "mem_file_path",
        required: true,
        kind: Kind::Path,
    },
    Row {
        name: "snapshot_type",
        required: false,
        kind: Kind::Choice(&["Full", "Diff"]),
    },
];

const LOAD_ROWS: [Row; 6] = [
    Row {
        name: "snapshot_path",
        required: true,
        kind: Kind::Path,
    },
    Row {
        name: "mem_file_path",
        required: false,
        kind: Kind::Path,
    },
    Row {
        name: "mem_backend",
        required: false,
        kind: Kind::Group,
    },
    Row {
        name: "enable_diff_snapshots",
        required: false,
        kind: Kind::Flag,
    },
    Row {
        name: "track_dirty_pages",
        required: false,
        kind: Kind::Flag,
    },
    Row {
        name: "resume_vm",
        required: false,
        kind: Kind::Flag,
    },
];

const BACKEND_ROWS: [Row; 2] = [
    Row {
        name: "backend_path",
        required: true,
        kind: Kind::Path,
    },
    Row {
        name: "backend_type",
        required: true,
        kind: Kind::Choice(&["File"]),
    },
];

pub static SNAPSHOT_CREATE: Form<'static> = Form {
    levels: &[Level {
        place: &[],
        rows: &CREATE_ROWS,
    }],
    together: Together::Differing("snapshot_path", "mem_file_path"),
};

pub static SNAPSHOT_LOAD: Form<'static> = Form {
    levels: &[
        Level {
            place: &[],
            rows: &LOAD_ROWS,
        },
        Level {
            place: &["mem_backend"],
            rows: &BACKEND_ROWS,
        },
    ],
    together: Together::Either("mem_file_path", "mem_backend"),
};

/// The call of a body of PUT /snapshot/create in which nothing is refused.
pub fn create(alloc: Global, object: &Value) -> Result<ApiCall, AllocError>
    ensures { IfOk result (λ found. found ≡ made body.SnapshotCreate (view object.now)) }
{
    let snapshot_path = TextList::copy_of(alloc, text_or_none(object, "snapshot_path"))?;
    let mem_file_path = TextList::copy_of(alloc, text_or_none(object, "mem_file_path"))?;
    Ok(ApiCall::CreateSnapshot(SnapshotCreate {
        files: SnapshotFiles {
            snapshot_path,
            mem_file_path,
        },
        snapshot_type: type_of(object),
    }))
}

// A full snapshot, where nothing is said.
fn type_of(object: &Value) -> SnapshotType
    ensures { result ≡ call.type_of (view object.now) }
{
    match text(object, "snapshot_type") {
        Some(text) => {
            if text == "Diff" {
                SnapshotType::Diff
            } else {
                SnapshotType::Full
            }
        }
        None => SnapshotType::Full,
    }
}

// The name of the memory's file, by whichever of the two fields is there.
fn memory_path(object: &Value) -> &str
    ensures { result.now ≡ call.text_or_none (call.memory_path (view object.now)) }
{
    match text(object, "mem_file_path") {
        Some(path) => path,
        None => match object.get("mem_backend") {
            Some(backend) => text_or_none(backend, "backend_path"),
            None => "",
        },
    }
}

/// The call of a body of PUT /snapshot/load in which nothing is refused.
pub fn load(alloc: Global, object: &Value) -> Result<ApiCall, AllocError>
    ensures { IfOk result (λ found. found ≡ made body.SnapshotLoad (view object.now)) }
{
    let snapshot_path = TextList::copy_of(alloc, text_or_none(object, "snapshot_path"))?;
    let mem_file_path = TextList::copy_of(alloc, memory_path(object))?;
    Ok(ApiCall::LoadSnapshot(SnapshotLoad {
        files: SnapshotFiles {
            snapshot_path,
            mem_file_path,
        },
        track_dirty_pages: is_tracking(object),
        resume_vm: is_set(object, "resume_vm"),
    }))
}

// Dirty pages are tracked where either of two fields asks for it.
fn is_tracking(object: &Value) -> bool
    ensures { result ≡ call.tracking_of (view object.now) }
{
    is_set(object, "enable_diff_snapshots") || is_set(object, "track_dirty_pages")
}
