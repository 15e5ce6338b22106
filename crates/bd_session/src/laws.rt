//! Laws, each the contract of a function that does nothing.
ghost use Rattle.bd_session.specs.Promised.{DistinctMarksTellApart};

/// Where no two different chunks given have one mark, marks tell apart what each command meets.
pub fn distinct_marks_tell_apart()
    ensures { DistinctMarksTellApart }
{}
