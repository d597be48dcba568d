//! A list of bytes that goes by messages.

use plain_list::List;

/// A list of bytes. Contracts see the list alone.
pub type Bytes = List<u8>;
