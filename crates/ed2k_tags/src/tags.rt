//! Lists of tags.

use crate::tag::Tag;
use plain_list::List;

/// A list of tags. Contracts see the list alone.
pub type Tags = List<Tag>;
