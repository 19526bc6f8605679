//! One item out of many.
ghost use Rattle.std.specs.Prelude.{◌≡◌};
ghost use Rattle.qx_fuse_tables.specs.Waits.{item_at, without_at};

/// Takes the item of a place out, if a place is given and there is one.
pub(crate) fn take_at<T>(items: &mut Vec<T>, place: Option<usize>) -> Option<T>
    ensures item { result ≡ item_at items.old.items place }
    ensures rest { items.new.items ≡ without_at items.old.items place }
{
    let place = place?;
    if place < items.len() {
        Some(items.remove(place))
    } else {
        None
    }
}
