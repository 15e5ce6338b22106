//! What holds of every history of calls.
ghost use Rattle.bd_disk.specs.Laws.{ClockRisesByOne, ContentsAreAnImage, ContentsAtStay, IdleLeavesTheSame, ImagesChangeOnly, NothingWritten, ReadsCompose, ReadsOfRunStay, SettledLeavesContents, SinceComposes, SinceIsFromAMoment, SyncLeavesContents, TraceHasNoWrite, TraceOfCalls, TraceStaysWithin, WriteLeavesItsRange, WritesChangeOnly};

/// The contents are one of the images that a stop may leave.
pub fn contents_are_an_image()
    ensures { ContentsAreAnImage }
{}

/// A stop within a write, or after it, leaves what a stop before it might have left, with any bytes in the range.
pub fn write_leaves_its_range()
    ensures { WriteLeavesItsRange }
{}

/// After a sync a stop leaves the contents and nothing else.
pub fn sync_leaves_contents()
    ensures { SyncLeavesContents }
{}

/// A call that changed nothing leaves what a stop before it might have left.
pub fn idle_leaves_the_same()
    ensures { IdleLeavesTheSame }
{}

/// A settled history has its contents as the only image.
pub fn settled_leaves_contents()
    ensures { SettledLeavesContents }
{}

/// An image since a clock is one of a moment at which the clock was that or later.
pub fn since_is_from_a_moment()
    ensures { SinceIsFromAMoment }
{}

/// The images since a run began are those of the run and those since it ended.
pub fn since_composes()
    ensures { SinceComposes }
{}

/// A run changes the contents only where it writes.
pub fn writes_change_only()
    ensures { WritesChangeOnly }
{}

/// Each image since a run began is one from before it, but for where the run writes.
pub fn images_change_only()
    ensures { ImagesChangeOnly }
{}

/// The writes that the trace shows of a run lie where the run writes.
pub fn trace_stays_within()
    ensures { TraceStaysWithin }
{}

/// The trace shows no write of a run without writes.
pub fn trace_has_no_write()
    ensures { TraceHasNoWrite }
{}

/// A run without writes keeps the contents, and a stop after it leaves no more than one before it.
pub fn nothing_written()
    ensures { NothingWritten }
{}

/// The contents at a clock stay what they were then.
pub fn contents_at_stay()
    ensures { ContentsAtStay }
{}

/// The clock rises by one at each call.
pub fn clock_rises_by_one()
    ensures { ClockRisesByOne }
{}

/// The trace of a run of exactly these calls.
pub fn trace_of_calls()
    ensures { TraceOfCalls }
{}

/// The places read between two clocks, and then between the second and a third, are those between the first and the third.
pub fn reads_compose()
    ensures { ReadsCompose }
{}

/// The places that a run reads are those between its clocks, whatever comes later.
pub fn reads_of_run_stay()
    ensures { ReadsOfRunStay }
{}
