ghost use Rattle.std.specs.Prelude.{◌≡◌};
ghost use Rattle.overlay_view.specs.Placements.{place_cmp};

use std::cmp::Ordering;

/// A place among the versions of a set: a partition, and a segment and a place of its view.
#[derive(Clone, Copy, Debug)]
pub struct SetPlace {
    /// The partition. At the end of a set it is the number of partitions.
    pub part: usize,
    /// The segment of the partition's view.
    pub segment: u32,
    /// The place of the segment.
    pub place: u8,
}

/// Where the first place stands to the second: by partition, then by segment, then by place.
pub(crate) fn order_of_places(first: SetPlace, second: SetPlace) -> Ordering
    ensures { result ≡ place_cmp first second }
{
    match first.part.cmp(&second.part) {
        Ordering::Equal => match first.segment.cmp(&second.segment) {
            Ordering::Equal => first.place.cmp(&second.place),
            order => order,
        },
        order => order,
    }
}
