//! What stands between the bars of a link.
ghost use Rattle.std.specs.Prelude.{◌≡◌, [], drop, IfOk, slice_index_or};
ghost use Rattle.std.specs.List.{list_any};
ghost use Rattle.ed2k_link.specs.Fields.{fields_of};
ghost use Rattle.ed2k_link.specs.Items.{split_at_bars, is_end, texts};

use std::alloc::{AllocError, Global};

/// The items between the bars.
pub(crate) fn split_items(alloc: Global, body: &[u8]) -> Result<Vec<&[u8]>, AllocError>
    ensures { IfOk result (λ items. texts items.items ≡ split_at_bars body.now) }
{
    body.split(|byte| *byte == b'|').collect(alloc)
}

/// An item by its place; one that is missing is taken as an empty one.
pub(crate) fn item<'a>(items: &[&'a [u8]], place: usize) -> &'a [u8]
    ensures { result.now ≡ slice_index_or (texts items.now) place [] }
{
    if place < items.len() {
        items[place]
    } else {
        b"".as_slice()
    }
}

/// The items behind the first three.
pub(crate) fn behind<'a, 'b>(items: &'b [&'a [u8]]) -> &'b [&'a [u8]]
    ensures { texts result.now ≡ drop 3 (texts items.now) }
{
    if items.len() < 3 {
        return &items[items.len()..];
    }
    &items[3..]
}

fn is_end(item: &[u8]) -> bool
    ensures { result ≡ is_end item.now }
{
    item == b"/".as_slice()
}

/// The items before the first that is a lone `/`, and whether there is such an item.
pub(crate) fn fields<'a, 'b>(items: &'b [&'a [u8]]) -> (&'b [&'a [u8]], bool)
    ensures before { texts result.0.now ≡ fields_of (texts items.now) }
    ensures ended { result.1 ≡ list_any is_end (texts items.now) }
{
    for (place, item) in items.iter().enumerate() {
        if is_end(item) {
            return (&items[..place], true);
        }
    }
    (items, false)
}
