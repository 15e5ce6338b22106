//! Named sources and targets.
ghost use Rattle.std.specs.Prelude.{◌≡◌, ◌+◌, ◌≤◌, ℕ, List, length, replicate, IfOk, OnOk, IsErr};
ghost use Rattle.std.specs.FinMap as map;
ghost use Rattle.bd_disk.specs.Calls.{HasCause};
ghost use Rattle.bd_disk.specs.Images.{overwritten};
ghost use Rattle.bd_model.specs.FileMap.{FileMap};
ghost use Rattle.bd_files.specs.Files.{Begins, ChangesOnly, CountsStrays, Fetches, Finishes, Holds, Lacks};

use bd_disk::Failed;
use bd_model::Name;

/// Named files: sources that are fetched, and targets that are begun, filled and finished.
///
/// Whether files tell what they hold is fixed for their type, and each promise about what is under a name is made only
/// where they tell. No call changes what is under another name, also where it answers `Failed`. A call that answers
/// `Failed` has a cause: its count of faults has risen, or stands at its last value, and that count stays where Ok is
/// answered.
pub trait Files {
    /// That files of this type tell what they hold.
    ghost tells: { Type 0 };

    /// What is under each name, where they tell.
    ghost files: { Self → FileMap };

    /// Which names were begun or filled and aren't finished since, where they tell.
    ghost unfinished: { Self → List (List ℕ) };

    /// How often a fetch has failed, up to 2^64 - 1.
    ghost source_faults: { Self → ℕ };

    /// How often one of the three other calls has failed, up to 2^64 - 1.
    ghost target_faults: { Self → ℕ };

    /// How often a name was fetched that isn't there, up to 2^64 - 1, where they tell.
    ghost strays: { Self → ℕ };

    /// Gives bytes of a file from place `at` on, and how many: fewer than `into` has room for where it pleases, and 0 only
    /// at the end of the file or for no room. A name that isn't there fails. What `into` holds behind these bytes, and
    /// after `Failed`, is unknown.
    fn fetch(&mut self, name: &Name, at: u64, into: &mut [u8]) -> Result<usize, Failed>
        ensures cause { HasCause (source_faults self.old) (source_faults self.new) result }
        ensures targets { target_faults self.new ≡ target_faults self.old }
        ensures within { IfOk result (λ n. n ≤ length into.old) }
        ensures read { IfOk result (λ n. tells → Fetches (files self.old) name.now at (length into.old) n into.new) }
        ensures missing { tells → Lacks (files self.old) name.now → IsErr result }
        ensures strays { tells → CountsStrays (files self.old) name.now (strays self.old) (strays self.new) }
        ensures same { tells → files self.new ≡ files self.old }
        ensures unfinished { tells → unfinished self.new ≡ unfinished self.old };

    /// Puts `length` bytes of 0 under the name, in place of any that were there. What is under it after `Failed` is unknown.
    fn begin(&mut self, name: &Name, length: u64) -> Result<(), Failed>
        ensures cause { HasCause (target_faults self.old) (target_faults self.new) result }
        ensures sources { source_faults self.new ≡ source_faults self.old }
        ensures strays { tells → strays self.new ≡ strays self.old }
        ensures ok { OnOk result (tells → files self.new ≡ map.insert (files self.old) name.now (replicate length 0)) }
        ensures others { tells → ChangesOnly name.now (files self.old) (files self.new) }
        ensures unfinished { tells → Begins name.now (unfinished self.old) (unfinished self.new) result };

    /// Writes over bytes of a file that is there, from place `at` on, and makes it unfinished again. What is under the name
    /// after `Failed` is unknown.
    fn put(&mut self, name: &Name, at: u64, bytes: &[u8]) -> Result<(), Failed>
        requires there { tells → (old : List ℕ) × Holds (files self.old) name.now old × (at + length bytes.now ≤ length old) }
        ensures cause { HasCause (target_faults self.old) (target_faults self.new) result }
        ensures sources { source_faults self.new ≡ source_faults self.old }
        ensures strays { tells → strays self.new ≡ strays self.old }
        ensures ok { OnOk result (tells → (old : List ℕ) → Holds (files self.old) name.now old → files self.new ≡ map.insert (files self.old) name.now (overwritten old at bytes.now)) }
        ensures others { tells → ChangesOnly name.now (files self.old) (files self.new) }
        ensures unfinished { tells → Begins name.now (unfinished self.old) (unfinished self.new) result };

    /// Makes sure of a file that was begun and filled. After `Failed` it is as unfinished as before.
    fn finish(&mut self, name: &Name) -> Result<(), Failed>
        ensures cause { HasCause (target_faults self.old) (target_faults self.new) result }
        ensures sources { source_faults self.new ≡ source_faults self.old }
        ensures strays { tells → strays self.new ≡ strays self.old }
        ensures same { tells → files self.new ≡ files self.old }
        ensures unfinished { tells → Finishes name.now (unfinished self.old) (unfinished self.new) result };
}
