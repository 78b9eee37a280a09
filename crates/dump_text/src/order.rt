//! Which path may come after another.
ghost use Rattle.std.specs.Prelude.{[], ◌≡◌};
ghost use Rattle.dump_text.specs.Order.{is_next};

use doc_tree::Name;
use std::cmp::Ordering;

/// Whether a node at the path may come next in a tree whose last node is at the last path.
pub(crate) fn is_next(last: &[Name], path: &[Name]) -> bool
    ensures { result ≡ is_next last.now path.now }
{
    let [name, below @ ..] = path else {
        return false;
    };
    let [before, later @ ..] = last else {
        return below.is_empty();
    };
    match before.order(name) {
        Ordering::Less => below.is_empty(),
        Ordering::Equal => is_next(later, below),
        Ordering::Greater => false,
    }
}
