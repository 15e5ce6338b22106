//! What holds of the definitions. Each law is the contract of a function with nothing to do.
ghost use Rattle.std.specs.Prelude.{◌≡◌, ℕ, List, ◌++◌};
ghost use Rattle.bd_model.specs.History.{VersionHistory, newest, version};
ghost use Rattle.bd_model.specs.Marks.{Distinct};
ghost use Rattle.bd_model.specs.Recipe.{recipe};
ghost use Rattle.bd_model.specs.Room.{fresh};
ghost use Rattle.bd_intake.specs.Firsts.{new_by_mark};

/// Where marks tell the chunks of the newest version and of a new one apart, those that are new by their marks are the
/// fresh ones.
pub fn new_chunks_are_the_fresh_ones()
    ensures { (h : VersionHistory) (chunks : List (List ℕ)) → Distinct (version h (newest h) ++ chunks) → new_by_mark (recipe h (newest h)) chunks ≡ fresh h chunks }
{}
