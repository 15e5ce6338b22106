//! What holds of the definitions. Each law is the contract of a function with nothing to do.

ghost use Rattle.bd_model.specs.CommandLaws.{CommandsLeadOn, GivenChunksStayApart, StatesStayLegal};
ghost use Rattle.bd_model.specs.Laws.{ABackupLeavesItsReserve, ANewVersionSplitsTheCategories, ARestoreFindsEachChunkOnce, AVersionUsesAFront, BackupsGrowTheHistory, ChunksAreWithinBounds, ChunksJoinedAreTheStream, ClosedVolumesGrow, DecidedChunksStay, DistinctMarksAreNear, EachChunkLiesInOneCategory, GivingUpTakesOnlyTheFirst, LinesStay, MarksTellChunksApart, OneStepOfArranging, RecipesGiveTheCounts, RecipesStay, RefusalIsExact, RoomSuffices, RowsDescribeTheVolume, TheHashRolls};

/// The chunks of a stream, joined together, are the stream.
pub fn chunks_joined_are_the_stream()
    ensures { ChunksJoinedAreTheStream }
{}

/// A chunk has 1 byte up to the most of its shape, and only a stream's last one has less than the least.
pub fn chunks_are_within_bounds()
    ensures { ChunksAreWithinBounds }
{}

/// The chunks of a stream up to the first that isn't decided are the first chunks of every stream that begins with it.
pub fn decided_chunks_stay()
    ensures { DecidedChunksStay }
{}

/// The hash over a window of 64 bytes is the one that rolls over all bytes so far, modulo 2^64.
pub fn the_hash_rolls()
    ensures { TheHashRolls }
{}

/// A new version leaves the categories that had ended. Each that lived to the newest version is split into what ends
/// there and what lives on, and what the newest version lacks begins.
pub fn a_new_version_splits_the_categories()
    ensures { ANewVersionSplitsTheCategories }
{}

/// Each chunk of a version lies in exactly one category of a run through it, which begins at the chunk's start.
pub fn each_chunk_lies_in_one_category()
    ensures { EachChunkLiesInOneCategory }
{}

/// A new version leaves the closed volumes. The newest one has what was archived of the categories that are arranged.
pub fn closed_volumes_grow()
    ensures { ClosedVolumesGrow }
{}

/// A new version leaves the recipes, and its own takes its starts from that of the version before.
pub fn recipes_stay()
    ensures { RecipesStay }
{}

/// Where marks tell the chunks of neighbouring versions apart, recipes tell which chunks are fresh and which are used on.
pub fn marks_tell_chunks_apart()
    ensures { MarksTellChunksApart }
{}

/// A backup and an expiry leave the lines of the other versions, and a new version's line has what its backup answers.
pub fn lines_stay()
    ensures { LinesStay }
{}

/// The rows of a closed volume count its chunks and the bytes of its records, by ascending start.
pub fn rows_describe_the_volume()
    ensures { RowsDescribeTheVolume }
{}

/// A step of arranging appends what one open category loses to the newest closed volume, in the row of its recorded
/// start, and changes nothing else. After the last one the store is settled.
pub fn one_step_of_arranging()
    ensures { OneStepOfArranging }
{}

/// Giving up the oldest versions takes their recipes and closed volumes, and with all versions everything.
pub fn giving_up_takes_only_the_first()
    ensures { GivingUpTakesOnlyTheFirst }
{}

/// Of its own closed volume and each later one a version uses every chunk of a front, and of the open categories that
/// begin up to it every chunk.
pub fn a_version_uses_a_front()
    ensures { AVersionUsesAFront }
{}

/// In every phase a restore finds each different chunk of its version once.
pub fn a_restore_finds_each_chunk_once()
    ensures { ARestoreFindsEachChunkOnce }
{}

/// A backup needs extents for its fresh chunks, its recipe and its reserve, and the reserve is free afterwards.
pub fn a_backup_leaves_its_reserve()
    ensures { ABackupLeavesItsReserve }
{}

/// A backup adds a version of the stream's chunks to the history, and every version came so.
pub fn backups_grow_the_history()
    ensures { BackupsGrowTheHistory }
{}

/// No command makes a settled store own more extents than it has.
pub fn room_suffices()
    ensures { RoomSuffices }
{}

/// What a refusal counts is more than what is free exactly where a backup needs more than that.
pub fn refusal_is_exact()
    ensures { RefusalIsExact }
{}

/// Where marks tell the chunks apart, the recipes of two versions give what their chunks need.
pub fn recipes_give_the_counts()
    ensures { RecipesGiveTheCounts }
{}

/// Where marks tell all chunks apart, they tell those of neighbouring versions apart.
pub fn distinct_marks_are_near()
    ensures { DistinctMarksAreNear }
{}

/// Where the first commands of a list lead doesn't depend on those that follow, and the next command leads on from there.
pub fn commands_lead_on()
    ensures { CommandsLeadOn }
{}

/// Where marks tell all chunks apart that a store keeps and commands read, they do so at each of the commands.
pub fn given_chunks_stay_apart()
    ensures { GivenChunksStayApart }
{}

/// A command leaves a legal state and a legal phase, and so does a step of arranging.
pub fn states_stay_legal()
    ensures { StatesStayLegal }
{}
