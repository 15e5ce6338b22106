//! What holds of every image that is arranged.
ghost use Rattle.bd_arrange.specs.Arranged.{AnArrangedStoreStands};

/// Arranging keeps the state: once every category that was due had its turn and the splits are named by one commit, the image
/// stands for what it stood for, settled.
pub fn arranged_stores_stand()
    ensures { AnArrangedStoreStands }
{}
