// What is asked of the fields of a body.

/// What is asked of all fields of a body, in the order of the refusals.
#[derive(Clone, Copy, Drop)]
pub enum Test {
    /// Each field is one of the table's.
    Known,
    /// Each required field is there.
    There,
    /// Each value is of its kind.
    Kind,
    /// Each value is in its range.
    Range,
}
