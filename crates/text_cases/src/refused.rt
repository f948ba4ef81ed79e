// What each refusal is answered with.
use crate::escapes::text_of;
use refusals::{Refusal, fault_text};
use std::alloc::{AllocError, Global};

const ALL: [Refusal; 32] = [
    Refusal::NoSuchPath,
    Refusal::NoSuchMethod,
    Refusal::NotJson,
    Refusal::UnknownField,
    Refusal::MissingField,
    Refusal::WrongKind,
    Refusal::OutOfRange,
    Refusal::TooLarge,
    Refusal::BadHead,
    Refusal::OnlyBeforeBoot,
    Refusal::OnlyAfterBoot,
    Refusal::NotPaused,
    Refusal::AlreadyConfigured,
    Refusal::NoBootSource,
    Refusal::SecondRootDrive,
    Refusal::NoSuchId,
    Refusal::DoesNotFit,
    Refusal::NoSuchFile,
    Refusal::TooManyDevices,
    Refusal::NotTracked,
    Refusal::NoBase,
    Refusal::GateClosed,
    Refusal::WrongMagic,
    Refusal::BadField,
    Refusal::SizesDiffer,
    Refusal::MergeUnfinished,
    Refusal::ParentDiffers,
    Refusal::NoSlotLeft,
    Refusal::StatisticsOff,
    Refusal::OutsideFailed,
    Refusal::OutOfMemory,
    Refusal::StoreNotInitialized,
];

/// Puts the status and the body of each at the end.
pub fn add(alloc: Global, text: &mut String) -> Result<(), AllocError> {
    for refusal in ALL {
        text.push_str(status_word(refusal))?;
        text.push_str(text_of(fault_text(alloc, refusal)?.as_slice()))?;
        text.push('\n')?;
    }
    Ok(())
}

fn status_word(refusal: Refusal) -> &'static str {
    match refusal.status() {
        400 => "400 ",
        500 => "500 ",
        503 => "503 ",
        _ => "??? ",
    }
}
