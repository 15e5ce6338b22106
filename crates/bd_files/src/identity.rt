//! Which file of the system it is.
ghost use Rattle.std.specs.Prelude.{◌≡◌, ◌↔◌, Some, IsTrue};

use std::fs::Metadata;
use std::os::unix::fs::MetadataExt;

/// Which file or device of the system it is, whatever its name.
#[derive(Clone, Copy, PartialEq, Eq, Debug)]
pub struct FileIdentity {
    device: u64,
    // 0 for a device, which no file has
    inode: u64,
}

impl FileIdentity {
    /// The file or the device of this metadata.
    pub fn of(metadata: &Metadata) -> FileIdentity {
        if metadata.rdev() != 0 {
            FileIdentity {
                device: metadata.rdev(),
                inode: 0,
            }
        } else {
            FileIdentity {
                device: metadata.dev(),
                inode: metadata.ino(),
            }
        }
    }
}

// Whether this file is the one that is no target.
pub(crate) fn is_spared(spared: Option<FileIdentity>, file: FileIdentity) -> bool
    ensures { IsTrue result ↔ (spared ≡ Some file) }
{
    spared == Some(file)
}
