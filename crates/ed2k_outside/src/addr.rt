//! Addresses.

/// An IPv4 address and a port. The bytes of the address stand in the order of dotted decimals.
#[derive(Clone, Copy, Debug, PartialEq, Eq)]
pub struct Addr {
    /// The address, its first decimal first.
    pub ip: [u8; 4],
    /// The port.
    pub port: u16,
}
