//! What holds of the rows, whatever the halfwords (ARM DDI 0403, "The Thumb instruction set
//! encoding"): each law is the contract of a function that does nothing.
#![tactic(auto)]

ghost use Rattle.instruction_set.specs.Decoding.{rows_of, short_tables, long_tables};
ghost use Rattle.row_laws.specs.Laws.{HavePlaces, AreDisjoint, OverlapOnly, DoOverlap};
ghost use Rattle.row_laws.specs.Overlaps.{short_overlaps, long_overlaps};

/// Each row of 16 bits has a place for each bit of a halfword, and each row of 32 bits one for each
/// bit of two.
pub fn rows_are_whole()
    ensures short { HavePlaces 16 (rows_of short_tables) }
    ensures long { HavePlaces 32 (rows_of long_tables) }
{}

/// No number has two rows.
pub fn rows_are_apart()
    ensures short { AreDisjoint (rows_of short_tables) }
    ensures long { AreDisjoint (rows_of long_tables) }
{}

/// The texts of two rows fit one number exactly where the lists of overlaps say so, and the row
/// that wins is the listed one.
pub fn rows_overlap_as_listed()
    ensures short { OverlapOnly short_overlaps (rows_of short_tables) }
    ensures short_wins { DoOverlap short_overlaps }
    ensures long { OverlapOnly long_overlaps (rows_of long_tables) }
    ensures long_wins { DoOverlap long_overlaps }
{}
