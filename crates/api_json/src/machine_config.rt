// PUT and PATCH /machine-config
ghost use Rattle.std.specs.Prelude.{◌≡◌};
ghost use Rattle.serde_json.specs.View.{view};
ghost use Rattle.api_calls.specs.Call.{made};
ghost use Rattle.api_calls.specs.declared.endpoint.Body.TheVariants as body;

use crate::body::{flag, is_set, number};
use crate::form::{Kind, Row};
use crate::levels::{Form, Level, Together};
use api_calls::{ApiCall, MachineConfig, MachinePatch};
use serde_json::Value;

const MOST_HARTS: u64 = 32;

const LEAST_MIB: u64 = 4;

const MOST_MIB: u64 = 4096;

const PUT_ROWS: [Row; 6] = [
    Row {
        name: "vcpu_count",
        required: true,
        kind: Kind::Whole(1, MOST_HARTS),
    },
    Row {
        name: "mem_size_mib",
        required: true,
        kind: Kind::Whole(LEAST_MIB, MOST_MIB),
    },
    Row {
        name: "smt",
        required: false,
        kind: Kind::Unset,
    },
    Row {
        name: "track_dirty_pages",
        required: false,
        kind: Kind::Flag,
    },
    Row {
        name: "cpu_template",
        required: false,
        kind: Kind::Choice(&["None"]),
    },
    Row {
        name: "huge_pages",
        required: false,
        kind: Kind::Choice(&["None"]),
    },
];

const PATCH_ROWS: [Row; 6] = [
    Row {
        name: "vcpu_count",
        required: false,
        kind: Kind::Whole(1, MOST_HARTS),
    },
    Row {
        name: "mem_size_mib",
        required: false,
        kind: Kind::Whole(LEAST_MIB, MOST_MIB),
    },
    Row {
        name: "smt",
        required: false,
        kind: Kind::Unset,
    },
    Row {
        name: "track_dirty_pages",
        required: false,
        kind: Kind::Flag,
    },
    Row {
        name: "cpu_template",
        required: false,
        kind: Kind::Choice(&["None"]),
    },
    Row {
        name: "huge_pages",
        required: false,
        kind: Kind::Choice(&["None"]),
    },
];

pub static MACHINE_CONFIG: Form<'static> = Form {
    levels: &[Level {
        place: &[],
        rows: &PUT_ROWS,
    }],
    together: Together::Free,
};

pub static MACHINE_PATCH: Form<'static> = Form {
    levels: &[Level {
        place: &[],
        rows: &PATCH_ROWS,
    }],
    together: Together::SomeOf(&[
        "vcpu_count",
        "mem_size_mib",
        "smt",
        "track_dirty_pages",
        "cpu_template",
        "huge_pages",
    ]),
};

/// The call of a body of PUT in which nothing is refused.
pub fn put(object: &Value) -> ApiCall
    ensures { result ≡ made body.MachineConfig (view object.now) }
{
    ApiCall::PutMachineConfig(MachineConfig {
        vcpu_count: number(object, "vcpu_count").unwrap_or(0),
        mem_size_mib: number(object, "mem_size_mib").unwrap_or(0),
        track_dirty_pages: is_set(object, "track_dirty_pages"),
    })
}

/// The call of a body of PATCH in which nothing is refused.
pub fn patch(object: &Value) -> ApiCall
    ensures { result ≡ made body.MachinePatch (view object.now) }
{
    ApiCall::PatchMachineConfig(MachinePatch {
        vcpu_count: number(object, "vcpu_count"),
        mem_size_mib: number(object, "mem_size_mib"),
        track_dirty_pages: flag(object, "track_dirty_pages"),
    })
}
