// CSR instructions.
ghost use Rattle.std.specs.Prelude.{◌≡◌};
ghost use Rattle.rv_supervisor.specs.Csrs.{csr_of};
ghost use Rattle.rv_doing.specs.Doing.{asked, ended};
ghost use Rattle.rv_doing.specs.Does.{csr_access};
ghost use Rattle.rv_doing.specs.HartOps.{op_in, reply_of};

use crate::hart_op::HartOp;
use crate::hart_reply::HartReply;
use crate::replies::{end_sip, end_time, end_with};
use rv_rows::{CsrAccess, Exception, Register};
use rv_supervisor::{
    Csr, Regs, access_csr, csr_of, csr_value, is_read, software_cleared, software_set, trap,
};
use vm_types::BoardOp;

/// The act on the board that a CSR instruction wants, if any.
#[inline(never)]
pub fn csr_wanted(
    number: u32,
    rd: Register,
    access: CsrAccess,
    word: u32,
    regs: &Regs,
) -> Option<HartOp>
    ensures { op_in result ≡ asked (csr_access (csr_of number) rd access word regs.now) }
{
    match csr_of(number) {
        Some(Csr::Sip) => Some(HartOp::Board(BoardOp::SoftwarePending {
            clear: software_cleared(access),
            set: software_set(access),
        })),
        Some(Csr::Time) => {
            if is_read(access) {
                Some(HartOp::Board(BoardOp::Time))
            } else {
                None
            }
        }
        Some(Csr::Hart(_)) | None => None,
    }
}

/// What a CSR instruction makes of the registers, by the last reply.
#[inline(never)]
pub fn csr_performed(
    number: u32,
    rd: Register,
    access: CsrAccess,
    word: u32,
    regs: &mut Regs,
    reply: HartReply,
)
    ensures { regs.new ≡ ended (csr_access (csr_of number) rd access word regs.old) (reply_of reply) }
{
    match csr_of(number) {
        Some(Csr::Hart(csr)) => {
            let value = csr_value(csr, regs);
            access_csr(csr, access, regs);
            end_with(rd, value, regs);
        }
        Some(Csr::Sip) => end_sip(rd, reply, regs),
        Some(Csr::Time) => {
            if is_read(access) {
                end_time(rd, reply, regs);
            } else {
                trap(regs, Exception::IllegalInstruction, word as u64);
            }
        }
        None => trap(regs, Exception::IllegalInstruction, word as u64),
    }
}
