//! What holds of the definitions. Each law is the contract of a function with nothing to do.
ghost use Rattle.bd_recipe.specs.Laws.{AnEntryReadsBack, EntriesReadBack};

/// Entries whose fields have room are what their bytes say, whatever follows them.
pub fn entries_read_back()
    ensures one { AnEntryReadsBack }
    ensures all { EntriesReadBack }
{}
