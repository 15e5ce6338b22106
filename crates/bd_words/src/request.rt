//! What words ask for.
use bd_model::{Commands, Name, Shape};

/// What the words ask for.
#[derive(Drop)]
pub enum Request {
    /// An empty store of this shape.
    Format { shape: Shape },
    /// These commands on the store.
    Run { commands: Commands },
    /// The commands of a script.
    Script { name: Name },
    /// A file of so many zero bytes.
    Blank { length: u64, name: Name },
    /// A run over streams that are drawn from a seed.
    Soak { seed: u64, count: u32 },
}
