//! The sites of a cluster by their places.

ghost use Rattle.std.specs.Prelude.{◌≡◌, Some, MatchOption, slice_get, slice_set};
ghost use Rattle.cmh_cluster3.specs.Sites.{IsDown};

use cmh_node3::Node;
use cmh_station3::SegmentFile;

/// The site at a place, if it runs.
pub(crate) fn node_at<F: SegmentFile>(nodes: &[Option<Node<F>>], place: usize) -> Option<&Node<F>>
    ensures { MatchOption result (IsDown nodes.now place)
        (λ node. slice_get nodes.now place ≡ Some (Some node.now)) }
{
    nodes.get(place)?.as_ref()
}

/// Puts a site, or none, at a place.
pub(crate) fn put_at<F: SegmentFile>(
    nodes: &mut Vec<Option<Node<F>>>,
    place: usize,
    node: Option<Node<F>>,
)
    ensures { nodes.new.items ≡ slice_set nodes.old.items place node }
{
    if let Some(old) = nodes.get_mut(place) {
        *old = node;
    }
}
