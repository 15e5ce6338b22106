//! What a store takes of its extents.
ghost use Rattle.std.specs.Prelude.{◌≡◌, false};
ghost use Rattle.bd_store.specs.Shown.{AreFiguresOf, HasFigures};

use crate::store::Store;
use bd_model::Phase;

/// The extents of a store by their use, and how far it is arranged.
#[derive(Clone, Copy, PartialEq, Eq, Debug)]
pub struct Figures {
    /// Extents of recipes, closed volumes and open categories.
    pub owned: u64,
    /// Extents that nobody has.
    pub free: u64,
    /// Extents that were given up while a reader still needs them.
    pub held: u64,
    /// The start at which arranging goes on, where the store waits to be arranged.
    pub waiting: Option<u32>,
}

impl Store {
    /// The extents by their use, and how far the store is arranged. It takes no memory.
    pub fn figures(&self) -> Figures
        requires sound { self.now.worn ≡ false }
        ensures figures { HasFigures self.now result }
        ensures state { AreFiguresOf self.now result }
    {
        let free = u64::from(self.space.free());
        let held = u64::from(self.space.held());
        let waiting = match self.catalog.phase() {
            Phase::Settled => None,
            Phase::Waiting { cursor } => Some(cursor),
        };
        Figures {
            owned: u64::from(self.catalog.shape().extents()) - free - held,
            free,
            held,
            waiting,
        }
    }
}
