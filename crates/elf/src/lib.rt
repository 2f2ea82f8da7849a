//! The loader of ELF files (TIS ELF 1.2, "Object Files"): which bytes a file loads, and where they
//! are before the first step. README.md says what is proved.
#![tactic(auto)]

ghost use Rattle.std.specs.Prelude.{◌≡◌, ◌≤◌, length, IfOk};
ghost use Rattle.platform.specs.Images.{AreSegmentsApart, has_magic, image_of, is_32_bit_little, table_of};

pub mod constants;
mod image;
mod number;
mod overlap;
mod program_header;

pub use image::{Image, MAX_SEGMENTS, Segment};
pub use number::{halfword, word};
use overlap::have_overlap;
pub use overlap::share_an_address;
pub use platform::error::LoadError;
use program_header::image_of_headers;
pub use program_header::{P_FILESZ, P_OFFSET, PROGRAM_HEADER_SIZE, is_segment, segment_of_header};

/// The size of the ELF header in bytes ("ELF Header").
pub const ELF_HEADER_SIZE: usize = 52;

/// The place of the class in the file.
pub const EI_CLASS: usize = 4;

/// The place of the data encoding.
pub const EI_DATA: usize = 5;

/// The place of the type of file, a halfword.
pub const E_TYPE: usize = 16;

/// The place of the machine, a halfword.
pub const E_MACHINE: usize = 18;

/// The place of the place of the program header table, a word.
pub const E_PHOFF: usize = 28;

/// The place of the size of a program header, a halfword.
pub const E_PHENTSIZE: usize = 42;

/// The place of the number of program headers, a halfword.
pub const E_PHNUM: usize = 44;

/// The class that is taken: 32 bits.
pub const ELFCLASS32: u8 = 1;

/// The data encoding that is taken: little endian.
pub const ELFDATA2LSB: u8 = 1;

/// The type of file that is taken: an executable.
pub const ET_EXEC: u16 = 2;

/// The machine that is taken: ARM.
pub const EM_ARM: u16 = 40;

/// Returns the image that an ELF file holds, or why the machine doesn't take the file: the first
/// refusal in the order in which the file is checked.
#[tactic(auto, unfolding(platform::specs::Images::image_of))]
pub fn load(bytes: &[u8]) -> Result<Image<'_>, LoadError>
    ensures image { result ≡ image_of bytes.now }
    ensures apart { IfOk result (λ image. AreSegmentsApart image) }
{
    if bytes.len() < ELF_HEADER_SIZE {
        return Err(LoadError::Truncated);
    }
    if !has_magic(bytes) {
        return Err(LoadError::NotElf);
    }
    if !is_32_bit_little(bytes) {
        return Err(LoadError::NotElf32Little);
    }
    if halfword(bytes, E_TYPE) != ET_EXEC {
        return Err(LoadError::NotExecutable);
    }
    if halfword(bytes, E_MACHINE) != EM_ARM {
        return Err(LoadError::NotArm);
    }
    image_of_table(bytes)
}

// "ELF Identification": the magic number.
fn has_magic(file: &[u8]) -> bool
    ensures { result ≡ has_magic file.now }
{
    matches!(file, [0x7F, b'E', b'L', b'F', ..])
}

// "ELF Identification": the class and the data encoding.
fn is_32_bit_little(file: &[u8]) -> bool
    requires { ELF_HEADER_SIZE ≤ length file.now }
    ensures { result ≡ is_32_bit_little file.now }
{
    file[EI_CLASS] == ELFCLASS32 && file[EI_DATA] == ELFDATA2LSB
}

// Returns the image of the program header table. Where a file has none, the size of a program
// header isn't checked.
#[tactic(auto, using(crate::proofs::Overlaps::none_apart))]
fn image_of_table(file: &[u8]) -> Result<Image<'_>, LoadError>
    requires { ELF_HEADER_SIZE ≤ length file.now }
    ensures image { result ≡ table_of file.now }
    ensures apart { IfOk result (λ image. AreSegmentsApart image) }
{
    let count = halfword(file, E_PHNUM) as usize;
    if count > MAX_SEGMENTS {
        return Err(LoadError::TooManySegments);
    }
    if count == 0 {
        return Ok(Image::empty());
    }
    if halfword(file, E_PHENTSIZE) as usize != PROGRAM_HEADER_SIZE {
        return Err(LoadError::HeaderSize);
    }
    let table = word(file, E_PHOFF) as usize;
    if table + PROGRAM_HEADER_SIZE * count > file.len() {
        return Err(LoadError::Truncated);
    }
    let image = image_of_headers(file, table, count)?;
    if have_overlap(image.segments()) {
        return Err(LoadError::SegmentOverlap);
    }
    Ok(image)
}
