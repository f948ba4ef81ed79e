// The id of a machine.
ghost use Rattle.std.specs.Prelude.{◌≡◌};
ghost use Rattle.std.specs.List.{list_all};
ghost use Rattle.command_line.specs.MachineId.{is_id, is_id_byte};

/// The id of a machine that is given none.
pub const DEFAULT_ID: &str = "anonymous-instance";

// Whether this can be a machine's id: 1 to 64 letters and digits of ASCII and `-`.
pub(crate) fn is_id(id: &str) -> bool
    ensures { result ≡ is_id id.now }
{
    let bytes = id.as_bytes();
    !bytes.is_empty() && bytes.len() <= 64 && are_id_bytes(bytes)
}

fn are_id_bytes(bytes: &[u8]) -> bool
    ensures { result ≡ list_all is_id_byte bytes.now }
{
    bytes.iter().all(|c| is_id_byte(*c))
}

fn is_id_byte(c: u8) -> bool
    ensures { result ≡ is_id_byte c }
{
    matches!(c, b'0'..=b'9' | b'A'..=b'Z' | b'a'..=b'z' | b'-')
}
