//! What holds of the definitions. Each law is the contract of a function with nothing to do.
ghost use Rattle.bd_category.specs.Laws.{ABodyReadsBack, AHeaderReadsBack, RecordsReadBack};

/// A record that is written among the bytes of an owner is found there, and records that are written one behind the other
/// are all that is found, whatever follows them.
pub fn records_read_back()
    ensures header { AHeaderReadsBack }
    ensures body { ABodyReadsBack }
    ensures all { RecordsReadBack }
{}
