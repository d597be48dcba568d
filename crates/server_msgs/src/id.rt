//! The ids of clients. A high id is the address of a client that can be connected to.
ghost use Rattle.std.specs.Prelude.{◌≡◌};
ghost use Rattle.server_msgs.specs.Ids as ids;

/// The least high id.
pub const HIGH_ID: u32 = 0x100_0000;

/// Whether an id is high, and so an address.
pub fn is_high(id: u32) -> bool
    ensures { result ≡ ids.is_high id }
{
    id >= HIGH_ID
}

/// The id that an address is: its first number is the lowest byte.
pub fn id_of(address: [u8; 4]) -> u32
    ensures { result ≡ ids.id_of address }
{
    u32::from_le_bytes(address)
}

/// The address that a high id is, and nothing for a low id.
pub fn address_of(id: u32) -> Option<[u8; 4]>
    ensures { result ≡ ids.address_of id }
{
    if is_high(id) {
        Some(id.to_le_bytes())
    } else {
        None
    }
}
