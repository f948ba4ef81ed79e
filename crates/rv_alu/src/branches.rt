// When a branch is taken.
ghost use Rattle.std.specs.Prelude.{◌≡◌};
ghost use Rattle.rv_rows.specs.Branches.{is_taken};

use rv_rows::Condition;

/// Whether a branch is taken, by the values of its two registers (unprivileged manual, 2.5, "Conditional Branches").
#[inline]
pub fn is_taken(condition: Condition, a: u64, b: u64) -> bool
    ensures { result ≡ is_taken condition a b }
{
    match condition {
        Condition::Eq => a == b,
        Condition::Ne => a != b,
        Condition::Lt => a.cast_signed() < b.cast_signed(),
        Condition::Ge => a.cast_signed() >= b.cast_signed(),
        Condition::Ltu => a < b,
        Condition::Geu => a >= b,
    }
}
