// When a branch is taken.

/// When a conditional branch is taken (unprivileged manual, 2.5, "Conditional Branches").
#[derive(Clone, Copy, Debug, Drop)]
pub enum Condition {
    Eq,
    Ne,
    Lt,
    Ge,
    Ltu,
    Geu,
}
