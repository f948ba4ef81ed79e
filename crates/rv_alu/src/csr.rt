// What a CSR instruction asks for.
ghost use Rattle.std.specs.Prelude.{◌≡◌};
ghost use Rattle.rv_rows.specs.Effects.{csr_access};

use rv_rows::{CsrAccess, CsrOp};

/// What a CSR instruction asks for: one that sets or clears bits doesn't write where its source is x0, or the
/// immediate 0.
#[inline]
pub fn csr_access(op: CsrOp, source: u64, value: u64) -> CsrAccess
    ensures { result ≡ csr_access op source value }
{
    match op {
        CsrOp::Write => CsrAccess::Write { value },
        CsrOp::Set => {
            if source == 0 {
                CsrAccess::Read
            } else {
                CsrAccess::Set { mask: value }
            }
        }
        CsrOp::Clear => {
            if source == 0 {
                CsrAccess::Read
            } else {
                CsrAccess::Clear { mask: value }
            }
        }
    }
}
