//! Whether two segments of an image go to one address (profile).

ghost use Rattle.std.specs.Prelude.{◌≡◌, ◌↔◌, false, map};
ghost use Rattle.std.specs.List.{list_any};
ghost use Rattle.platform.specs.Images.{AreSegmentsApart, have_overlap, share_an_address, target_end};
ghost use Rattle.elf.specs.Segment.{segment_of};

use crate::image::Segment;

// Whether some segment shares an address with a later one. The second clause says so for all pairs
// and all addresses.
pub fn have_overlap(segments: &[Segment<'_>]) -> bool
    ensures test { result ≡ have_overlap (map segment_of segments.now) }
    ensures apart { result ≡ false ↔ AreSegmentsApart (map segment_of segments.now) }
{
    let mut rest = segments;
    'segments: while let [segment, others @ ..] = rest {
        if is_overlapped(segment, others) {
            return true;
        }
        rest = others;
    }
    false
}

// Whether a segment shares an address with one of some others.
fn is_overlapped(segment: &Segment<'_>, others: &[Segment<'_>]) -> bool
    ensures { result ≡ list_any (share_an_address (segment_of segment.now)) (map segment_of others.now) }
{
    'others: for other in others {
        if share_an_address(segment, other) {
            return true;
        }
    }
    false
}

/// Returns whether two segments share an address.
pub fn share_an_address(one: &Segment<'_>, other: &Segment<'_>) -> bool
    ensures { result ≡ share_an_address (segment_of one.now) (segment_of other.now) }
{
    u64::from(one.address.max(other.address)) < target_end(one).min(target_end(other))
}

// The address after a segment's last byte, in whole numbers.
fn target_end(segment: &Segment<'_>) -> u64
    ensures { result ≡ target_end (segment_of segment.now) }
{
    segment.address as u64 + segment.bytes.len() as u64
}
