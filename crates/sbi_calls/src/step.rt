// What each call does.
ghost use Rattle.std.specs.Prelude.{◌≡◌};
ghost use Rattle.sbi_calls.specs.Calls.{succeeds, step_of, sbi};

use crate::table::{SbiCall, call_of, is_extension};
use rv_rows::Register;
use rv_supervisor::{A0, A1, Regs};
use vm_types::BoardOp;

const A2: Register = Register::X12;

const A6: Register = Register::X16;

const A7: Register = Register::X17;

/// SBI_ERR_NOT_SUPPORTED, which is -2.
const NOT_SUPPORTED: u64 = 0xffff_ffff_ffff_fffe;

/// A call's error and value (SBI, "Binary Encoding", `sbiret`).
#[derive(Clone, Copy, Drop)]
pub struct SbiReturn {
    /// 0, or the number of an error below 0 in two's complement.
    pub error: u64,
    pub value: u64,
}

/// What an ECALL does.
#[derive(Clone, Copy, Drop)]
pub enum SbiStep {
    /// It ends at once, with this error in a0 and this value in a1.
    Now(SbiReturn),
    /// It is this act, and ends by the board's reply.
    Act(BoardOp),
}

fn succeed(value: u64) -> SbiStep
    ensures { result ≡ succeeds value }
{
    SbiStep::Now(SbiReturn { error: 0, value })
}

fn step_of(call: SbiCall, regs: &Regs) -> SbiStep
    ensures { result ≡ step_of call regs.now }
{
    let act = match call {
        SbiCall::GetSpecVersion => return succeed(0x0100_0000),
        SbiCall::GetImplementationId => return succeed(0x5246_4331),
        SbiCall::GetImplementationVersion => return succeed(1),
        SbiCall::ProbeExtension => return succeed(is_extension(regs.get(A0)) as u64),
        SbiCall::GetVendorId
        | SbiCall::GetArchitectureId
        | SbiCall::GetMachineId
        | SbiCall::RemoteFenceI
        | SbiCall::RemoteSfenceVma
        | SbiCall::RemoteSfenceVmaAsid => return succeed(0),
        SbiCall::ConsolePutchar => BoardOp::Putchar {
            byte: (regs.get(A0) % 0x100) as u8,
        },
        SbiCall::SetTimer => BoardOp::SetTimer {
            deadline: regs.get(A0),
        },
        SbiCall::SendIpi => BoardOp::SendIpi {
            mask: regs.get(A0),
            base: regs.get(A1),
        },
        SbiCall::HartStart => BoardOp::StartHart {
            hart: regs.get(A0),
            pc: regs.get(A1),
            word: regs.get(A2),
        },
        SbiCall::HartStop => BoardOp::StopHart,
        SbiCall::HartGetStatus => BoardOp::HartStatus { hart: regs.get(A0) },
        SbiCall::SystemReset => BoardOp::Reset {
            kind: regs.get(A0),
            reason: regs.get(A1),
        },
    };
    SbiStep::Act(act)
}

/// What an ECALL with these registers does: its extension is in a7, its function in a6, its arguments in a0 to a2, and
/// all their 64 bits count. A pair that is no call ends at once with SBI_ERR_NOT_SUPPORTED. A call of TIME, IPI, HSM,
/// SRST or putchar is always an act, also where its arguments are refused.
#[inline]
pub fn sbi(regs: &Regs) -> SbiStep
    ensures { result ≡ sbi regs.now }
{
    match call_of(regs.get(A7), regs.get(A6)) {
        Some(call) => step_of(call, regs),
        None => SbiStep::Now(SbiReturn {
            error: NOT_SUPPORTED,
            value: 0,
        }),
    }
}
