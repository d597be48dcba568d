//! How the bytes of a tag's value are laid out, by its type.
ghost use Rattle.std.specs.Prelude.{◌≡◌, Some, None};
ghost use Rattle.ed2k_tags.specs.Layout.{layout_of};

/// How the bytes of a value are laid out.
#[derive(Clone, Copy, Debug)]
pub(crate) enum Layout {
    /// A hash of 16 bytes.
    Hash,
    /// A length of two bytes, and a text.
    LongText,
    /// A number of four bytes.
    Four,
    /// Four bytes that are kept unread.
    Raw,
    /// A length of four bytes, and bytes that are kept unread.
    Unread,
    /// A number of two bytes.
    Two,
    /// A number of one byte.
    One,
    /// A number of eight bytes.
    Eight,
    /// A text of so many bytes, whose length isn't there.
    BareText(u8),
}

impl Layout {
    /// The layout of a type's values, if the type is read.
    pub(crate) fn of_type(kind: u8) -> Option<Self>
        ensures { result ≡ layout_of kind }
    {
        match kind {
            0x01 => Some(Layout::Hash),
            0x02 => Some(Layout::LongText),
            0x03 => Some(Layout::Four),
            0x04 => Some(Layout::Raw),
            0x07 => Some(Layout::Unread),
            0x08 => Some(Layout::Two),
            0x09 => Some(Layout::One),
            0x0B => Some(Layout::Eight),
            0x11..=0x20 => Some(Layout::BareText(kind - 0x10)),
            _ => None,
        }
    }
}
