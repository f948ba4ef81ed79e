// Which calls there are.
ghost use Rattle.std.specs.Prelude.{◌≡◌};
ghost use Rattle.sbi_calls.specs.Table.{call_of, is_extension};

/// A call of the interface.
#[derive(Clone, Copy, Drop)]
pub enum SbiCall {
    ConsolePutchar,
    GetSpecVersion,
    GetImplementationId,
    GetImplementationVersion,
    ProbeExtension,
    GetVendorId,
    GetArchitectureId,
    GetMachineId,
    SetTimer,
    SendIpi,
    RemoteFenceI,
    RemoteSfenceVma,
    RemoteSfenceVmaAsid,
    HartStart,
    HartStop,
    HartGetStatus,
    SystemReset,
}

/// The call of an extension and a function, all 64 bits of both, or `None` where there is none.
pub fn call_of(extension: u64, function: u64) -> Option<SbiCall>
    ensures { result ≡ call_of extension function }
{
    let call = match (extension, function) {
        (1, _) => SbiCall::ConsolePutchar,
        (0x10, 0) => SbiCall::GetSpecVersion,
        (0x10, 1) => SbiCall::GetImplementationId,
        (0x10, 2) => SbiCall::GetImplementationVersion,
        (0x10, 3) => SbiCall::ProbeExtension,
        (0x10, 4) => SbiCall::GetVendorId,
        (0x10, 5) => SbiCall::GetArchitectureId,
        (0x10, 6) => SbiCall::GetMachineId,
        (0x5449_4d45, 0) => SbiCall::SetTimer,
        (0x73_5049, 0) => SbiCall::SendIpi,
        (0x5246_4e43, 0) => SbiCall::RemoteFenceI,
        (0x5246_4e43, 1) => SbiCall::RemoteSfenceVma,
        (0x5246_4e43, 2) => SbiCall::RemoteSfenceVmaAsid,
        (0x48_534d, 0) => SbiCall::HartStart,
        (0x48_534d, 1) => SbiCall::HartStop,
        (0x48_534d, 2) => SbiCall::HartGetStatus,
        (0x5352_5354, 0) => SbiCall::SystemReset,
        _ => return None,
    };
    Some(call)
}

/// Whether there is a call of this extension.
pub fn is_extension(extension: u64) -> bool
    ensures { result ≡ is_extension extension }
{
    matches!(
        extension,
        1 | 0x10 | 0x5449_4d45 | 0x73_5049 | 0x5246_4e43 | 0x48_534d | 0x5352_5354
    )
}
