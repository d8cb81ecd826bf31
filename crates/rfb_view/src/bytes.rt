//! Numbers in the first bytes of a message, high byte first.
ghost use Rattle.std.specs.Prelude.{◌≡◌, ◌<◌};
ghost use Rattle.session_defs.specs.Bytes.{at, sixteen_at, thirty_two_at};

/// The byte at a place, and 0 past the end.
pub(crate) fn byte_at(bytes: &[u8], place: usize) -> u8
    ensures { result ≡ at bytes.now place }
{
    if place < bytes.len() { bytes[place] } else { 0 }
}

/// The number of sixteen bits from a place on.
pub(crate) fn sixteen_at(bytes: &[u8], place: usize) -> u16
    requires { place < 20 }
    ensures { result ≡ sixteen_at bytes.now place }
{
    u16::from_be_bytes([byte_at(bytes, place), byte_at(bytes, place + 1)])
}

/// The number of thirty-two bits from a place on.
pub(crate) fn thirty_two_at(bytes: &[u8], place: usize) -> u32
    requires { place < 20 }
    ensures { result ≡ thirty_two_at bytes.now place }
{
    u32::from_be_bytes([
        byte_at(bytes, place),
        byte_at(bytes, place + 1),
        byte_at(bytes, place + 2),
        byte_at(bytes, place + 3),
    ])
}
