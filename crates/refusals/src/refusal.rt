// The refusals of calls and files, in the table's order.
ghost use Rattle.std.specs.Prelude.{◌≡◌, IfOk};
ghost use Rattle.refusals.specs.Refusals.{fault_text, number_of, status_of, text_of};

use std::alloc::{AllocError, Global};
use vm_types::ByteList;

/// Why a call, a file or a merge is refused.
#[derive(Clone, Copy, Debug, Drop)]
pub enum Refusal {
    NoSuchPath,
    NoSuchMethod,
    NotJson,
    UnknownField,
    MissingField,
    WrongKind,
    OutOfRange,
    TooLarge,
    BadHead,
    OnlyBeforeBoot,
    OnlyAfterBoot,
    NotPaused,
    AlreadyConfigured,
    NoBootSource,
    SecondRootDrive,
    NoSuchId,
    DoesNotFit,
    NoSuchFile,
    TooManyDevices,
    NotTracked,
    NoBase,
    GateClosed,
    WrongMagic,
    BadField,
    SizesDiffer,
    MergeUnfinished,
    ParentDiffers,
    NoSlotLeft,
    StatisticsOff,
    OutsideFailed,
    OutOfMemory,
    StoreNotInitialized,
}

impl Refusal {
    /// Its number in the table, from 1.
    pub fn number(&self) -> u8
        ensures { result ≡ number_of self.now }
    {
        match self {
            Refusal::NoSuchPath => 1,
            Refusal::NoSuchMethod => 2,
            Refusal::NotJson => 3,
            Refusal::UnknownField => 4,
            Refusal::MissingField => 5,
            Refusal::WrongKind => 6,
            Refusal::OutOfRange => 7,
            Refusal::TooLarge => 8,
            Refusal::BadHead => 9,
            Refusal::OnlyBeforeBoot => 10,
            Refusal::OnlyAfterBoot => 11,
            Refusal::NotPaused => 12,
            Refusal::AlreadyConfigured => 13,
            Refusal::NoBootSource => 14,
            Refusal::SecondRootDrive => 15,
            Refusal::NoSuchId => 16,
            Refusal::DoesNotFit => 17,
            Refusal::NoSuchFile => 18,
            Refusal::TooManyDevices => 19,
            Refusal::NotTracked => 20,
            Refusal::NoBase => 21,
            Refusal::GateClosed => 22,
            Refusal::WrongMagic => 23,
            Refusal::BadField => 24,
            Refusal::SizesDiffer => 25,
            Refusal::MergeUnfinished => 26,
            Refusal::ParentDiffers => 27,
            Refusal::NoSlotLeft => 28,
            Refusal::StatisticsOff => 29,
            Refusal::OutsideFailed => 30,
            Refusal::OutOfMemory => 31,
            Refusal::StoreNotInitialized => 32,
        }
    }

    /// What a caller is told.
    pub fn text(&self) -> &'static str
        ensures { result.now ≡ text_of self.now }
    {
        match self {
            Refusal::NoSuchPath => "no such path",
            Refusal::NoSuchMethod => "no such method on this path",
            Refusal::NotJson => "the body is not JSON",
            Refusal::UnknownField => "unknown field",
            Refusal::MissingField => "missing field",
            Refusal::WrongKind => "a field has the wrong kind",
            Refusal::OutOfRange => "a value is out of range",
            Refusal::TooLarge => "too large",
            Refusal::BadHead => "the request head is not accepted",
            Refusal::OnlyBeforeBoot => "allowed only before boot",
            Refusal::OnlyAfterBoot => "allowed only after boot",
            Refusal::NotPaused => "the microVM is not paused",
            Refusal::AlreadyConfigured => "something is already configured",
            Refusal::NoBootSource => "no boot source was given",
            Refusal::SecondRootDrive => "a second root drive",
            Refusal::NoSuchId => "no such device or id",
            Refusal::DoesNotFit => "the image, initrd and tree do not fit in memory",
            Refusal::NoSuchFile => "no such file",
            Refusal::TooManyDevices => "too many devices",
            Refusal::NotTracked => "dirty pages are not tracked",
            Refusal::NoBase => "there is no base snapshot",
            Refusal::GateClosed => "a file's gate is closed",
            Refusal::WrongMagic => "wrong magic or version",
            Refusal::BadField => "a field of a file is bad",
            Refusal::SizesDiffer => "sizes differ",
            Refusal::MergeUnfinished => "a merge is unfinished",
            Refusal::ParentDiffers => "parent or identity differs",
            Refusal::NoSlotLeft => "no merge slot or number is left",
            Refusal::StatisticsOff => "balloon statistics are off",
            Refusal::OutsideFailed => "an outside call failed",
            Refusal::OutOfMemory => "out of memory",
            Refusal::StoreNotInitialized => "the metadata store is not initialized",
        }
    }

    /// The HTTP status: 500 and 503 for what isn't the caller's fault.
    pub fn status(&self) -> u16
        ensures { result ≡ status_of self.now }
    {
        match self {
            Refusal::OutsideFailed => 500,
            Refusal::OutOfMemory => 503,
            _ => 400,
        }
    }
}

/// The body of the reply that tells a refusal.
pub fn fault_text(alloc: Global, refusal: Refusal) -> Result<ByteList, AllocError>
    ensures { IfOk result (λ text. text ≡ fault_text refusal) }
{
    let number = refusal.number();
    let text = refusal.text();
    let body = format!(in alloc; "{{\"fault_message\":\"{number}: {text}\"}}")?;
    Ok(ByteList::from_vec(body.into_bytes()))
}
