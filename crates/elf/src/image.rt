//! The image in an ELF file.

ghost use Rattle.std.specs.Prelude.{◌≡◌, [], map};
ghost use Rattle.elf.specs.Segment.{segment_of};

use arrayvec::ArrayVec;
use std::marker::Model;

/// How many segments an image has at most, and how many program headers a file.
pub const MAX_SEGMENTS: usize = 64;

/// Bytes of the file that are at an address before the first step.
#[derive(Clone, Copy)]
pub struct Segment<'a> {
    pub address: u32,
    pub bytes: &'a [u8],
}

// A segment of no bytes, for the unused elements of an image.
impl Default for Segment<'_> {
    ghost is_default = { λ segment. segment_of segment ≡ record { address = 0; bytes = [] } };

    fn default() -> Self {
        Segment {
            address: 0,
            bytes: &[],
        }
    }
}

/// The image in an ELF file: its segments, in the file's order. A contract sees the list of them.
#[derive(Drop)]
pub struct Image<'a> {
    segments: ArrayVec<Segment<'a>, MAX_SEGMENTS>,
}

impl<'a> Model for Image<'a> {
    ghost use Rattle.std.specs.Prelude.{List, map};
    ghost use Rattle.platform.specs.Images.{Segment as Placed};

    ghost Value = { List Placed };

    ghost use Rattle.elf.specs.Segment.{segment_of};

    ghost view = { λ image. map segment_of image.segments.items };
}

impl<'a> Image<'a> {
    /// Returns the segments, in the file's order.
    pub fn segments(&self) -> &[Segment<'a>]
        ensures { map segment_of result.now ≡ self.now }
    {
        self.segments.as_slice()
    }

    // Returns the image of a file without segments.
    pub(crate) fn empty() -> Self
        ensures { result ≡ [] }
    {
        Image {
            segments: ArrayVec::new(),
        }
    }

    // The image of these segments.
    pub(crate) fn new(segments: ArrayVec<Segment<'a>, MAX_SEGMENTS>) -> Self
        ensures { result ≡ map segment_of segments.entry.items }
    {
        Image { segments }
    }
}
