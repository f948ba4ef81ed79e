// What holds of every header.
ghost use Rattle.std.specs.Prelude.{◌≡◌};
ghost use Rattle.vsock_packet.specs.declared.header.Header.{Header};
ghost use Rattle.vsock_packet.specs.Header.{header_bytes, header_of, Fits};

/// The header that has the bytes of a header is that one, so no two have the same bytes. What is read of bytes has these bytes:
/// that is said of `Header::read`.
pub fn both_ways()
    ensures { (h : Header) → Fits h → header_of (header_bytes h) ≡ h }
{}
