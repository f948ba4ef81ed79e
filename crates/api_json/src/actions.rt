// PUT /actions
use crate::form::{Kind, Row};
use crate::levels::{Form, Level, Together};

const ROWS: [Row; 1] = [Row {
    name: "action_type",
    required: true,
    kind: Kind::Choice(&["InstanceStart"]),
}];

pub static ACTION: Form<'static> = Form {
    levels: &[Level {
        place: &[],
        rows: &ROWS,
    }],
    together: Together::Free,
};
