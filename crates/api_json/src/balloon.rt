// PUT and PATCH /balloon, PATCH /balloon/statistics
ghost use Rattle.std.specs.Prelude.{◌≡◌};
ghost use Rattle.serde_json.specs.View.{view};
ghost use Rattle.api_calls.specs.Call.{made};
ghost use Rattle.api_calls.specs.declared.endpoint.Body.TheVariants as body;

use crate::body::{is_set, number};
use crate::form::{Kind, Row};
use crate::levels::{Form, Level, Together};
use api_calls::{ApiCall, Balloon, BalloonPatch, StatisticsPatch};
use serde_json::Value;

const MOST_SECONDS: u64 = 65_535;

// How much memory there is isn't asked here.
const AMOUNT: Row = Row {
    name: "amount_mib",
    required: true,
    kind: Kind::Whole(0, u64::MAX),
};

const PUT_ROWS: [Row; 3] = [
    AMOUNT,
    Row {
        name: "deflate_on_oom",
        required: true,
        kind: Kind::Flag,
    },
    Row {
        name: "stats_polling_interval_s",
        required: false,
        kind: Kind::Whole(0, MOST_SECONDS),
    },
];

const PATCH_ROWS: [Row; 1] = [AMOUNT];

const STATISTICS_ROWS: [Row; 1] = [Row {
    name: "stats_polling_interval_s",
    required: true,
    kind: Kind::Whole(0, MOST_SECONDS),
}];

pub static BALLOON: Form<'static> = Form {
    levels: &[Level {
        place: &[],
        rows: &PUT_ROWS,
    }],
    together: Together::Free,
};

pub static BALLOON_PATCH: Form<'static> = Form {
    levels: &[Level {
        place: &[],
        rows: &PATCH_ROWS,
    }],
    together: Together::Free,
};

pub static STATISTICS_PATCH: Form<'static> = Form {
    levels: &[Level {
        place: &[],
        rows: &STATISTICS_ROWS,
    }],
    together: Together::Free,
};

/// The call of a body of PUT in which nothing is refused.
pub fn put(object: &Value) -> ApiCall
    ensures { result ≡ made body.Balloon (view object.now) }
{
    ApiCall::PutBalloon(Balloon {
        amount_mib: number(object, "amount_mib").unwrap_or(0),
        deflate_on_oom: is_set(object, "deflate_on_oom"),
        stats_polling_interval_s: number(object, "stats_polling_interval_s").unwrap_or(0),
    })
}

/// The call of a body of PATCH of the amount in which nothing is refused.
pub fn patch(object: &Value) -> ApiCall
    ensures { result ≡ made body.BalloonPatch (view object.now) }
{
    ApiCall::PatchBalloon(BalloonPatch {
        amount_mib: number(object, "amount_mib").unwrap_or(0),
    })
}

/// The call of a body of PATCH of the interval in which nothing is refused.
pub fn patch_statistics(object: &Value) -> ApiCall
    ensures { result ≡ made body.StatisticsPatch (view object.now) }
{
    ApiCall::PatchStatistics(StatisticsPatch {
        stats_polling_interval_s: number(object, "stats_polling_interval_s").unwrap_or(0),
    })
}
