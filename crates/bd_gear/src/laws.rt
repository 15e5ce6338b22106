//! What holds of the definitions. Each law is the contract of a function with nothing to do.

ghost use Rattle.bd_gear.specs.Laws.{PiecesMakeNoDifference, TheHashForgets, TheTakenAreAFront};

/// The hash depends on the last 64 bytes alone.
pub fn the_hash_forgets()
    ensures { TheHashForgets }
{}

/// At any moment the chunks taken are the first of the stream's, and at its end they are all.
pub fn the_taken_are_a_front()
    ensures { TheTakenAreAFront }
{}

/// However a stream is cut into pieces, it gives the same chunks.
pub fn pieces_make_no_difference()
    ensures { PiecesMakeNoDifference }
{}
