//! Texts one behind the other, each with its moment.
ghost use Rattle.std.specs.Prelude.{◌≡◌, [], ◌∷◌, ◌++◌, OnOk, OnErr};
ghost use Rattle.bd_files.specs.Sinks.{moments_of, whole, written_of};

use std::alloc::{AllocError, Global};
use std::marker::Model;

#[derive(Drop)]
pub(crate) struct Texts {
    written: Vec<u8>,
    moments: Vec<u64>,
    lengths: Vec<usize>,
}

impl Model for Texts {
    ghost use Rattle.std.specs.Prelude.{List};
    ghost use Rattle.bd_files.specs.Sinks.{Handed};
    ghost use Rattle.bd_files.specs.Fakes.{coded_handed};
    ghost use Rattle.bd_files.specs.Texts.{AreTexts, cut_into};

    ghost Value = { List Handed };

    ghost coded = { coded_handed };

    ghost view = { λ t. cut_into t.moments.items t.lengths.items t.written.items };

    ghost invariant = { λ t. AreTexts t.moments.items t.lengths.items t.written.items };
}

impl Texts {
    pub(crate) fn new(alloc: Global) -> Texts
        ensures { result ≡ [] }
    {
        Texts {
            written: Vec::new(alloc),
            moments: Vec::new(alloc),
            lengths: Vec::new(alloc),
        }
    }

    pub(crate) fn written(&self) -> &[u8]
        ensures { result.now ≡ written_of self.now }
    {
        self.written.as_slice()
    }

    pub(crate) fn moments(&self) -> &[u64]
        ensures { result.now ≡ moments_of self.now }
    {
        self.moments.as_slice()
    }

    // Takes the text with its moment, or nothing.
    pub(crate) fn add(&mut self, bytes: &[u8], moment: u64) -> Result<(), AllocError>
        ensures ok { OnOk result (self.new ≡ self.old ++ whole moment bytes.now ∷ []) }
        ensures err { OnErr result (self.new ≡ self.old) }
    {
        self.moments.reserve(1)?;
        self.lengths.reserve(1)?;
        self.written.extend_from_slice(bytes)?;
        let _ = self.moments.push(moment);
        let _ = self.lengths.push(bytes.len());
        Ok(())
    }
}
