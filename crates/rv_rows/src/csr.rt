// What is done to a control and status register.

/// The three kinds of CSR instructions (unprivileged manual, chapter 9).
#[derive(Clone, Copy, Debug, Drop)]
pub enum CsrOp {
    Write,
    Set,
    Clear,
}

/// What a CSR instruction asks for. Each form also reads the CSR, CSRRW with rd x0 too: no CSR of the profile shows a
/// read.
#[derive(Clone, Copy, Debug, Drop)]
pub enum CsrAccess {
    /// The CSR isn't written: CSRRS or CSRRC with x0, whatever x0 holds, or CSRRSI or CSRRCI with 0.
    Read,
    /// The CSR gets the value.
    Write { value: u64 },
    /// The bits of the mask are set.
    Set { mask: u64 },
    /// The bits of the mask are cleared.
    Clear { mask: u64 },
}
