//! The calls of one kind, as a fake counts them.
ghost use Rattle.std.specs.Prelude.{◌≡◌, ◌↔◌, ◌+◌, ◌-◌, ◌^◌, ◌≤◌, min, IsTrue};
ghost use Rattle.bd_disk.specs.Calls.{Rose, one_more};

use bd_disk::Failed;

#[derive(Clone, Copy)]
pub(crate) struct Calls {
    pub(crate) made: u64,
    pub(crate) failing: Option<u64>,
    pub(crate) faults: u64,
}

impl Calls {
    pub(crate) fn new() -> Calls
        ensures { result ≡ record { made = 0; failing = None; faults = 0 } }
    {
        Calls {
            made: 0,
            failing: None,
            faults: 0,
        }
    }

    // Counts a call, and says whether it is set to fail.
    pub(crate) fn count(&mut self) -> bool
        ensures set { IsTrue result ↔ (self.old.failing ≡ Some self.old.made) }
        ensures counted { self.new ≡ record self.old { made = one_more self.old.made } }
    {
        let fails = self.failing == Some(self.made);
        self.made = self.made.saturating_add(1);
        fails
    }

    // Counts a fault.
    pub(crate) fn fail(&mut self) -> Failed
        ensures counted { self.new ≡ record self.old { faults = one_more self.old.faults } }
        ensures cause { (self.old.faults ≤ self.new.faults) × Rose self.old.faults self.new.faults }
    {
        self.faults = self.faults.saturating_add(1);
        Failed
    }
}
