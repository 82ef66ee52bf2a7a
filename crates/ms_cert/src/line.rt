ghost use Rattle.std.specs.Prelude.{◌≡◌, ◌++◌, List, ℕ, OnOk, string_bytes};
ghost use Rattle.ms_dfafile.specs.inner.Reading.{Finds};

use ms_dfafile::FileFault;
use std::alloc::{AllocError, Global};

/// What has a line of its own in a list of the text.
pub(crate) trait Line: Drop {
    /// The text of its line.
    ghost text: { Self → List ℕ };

    /// Which of them have a line.
    ghost Fits: { Self → Type 0 };

    /// What the line at the front spells, and what stands behind it.
    fn read(alloc: Global, bytes: &[u8]) -> Result<(Self, &[u8]), FileFault>
        ensures { Finds text Fits bytes.now result };

    /// Appends the line.
    fn append_to(&self, out: &mut String) -> Result<(), AllocError>
        ensures { OnOk result (string_bytes out.new ≡ string_bytes out.old ++ text self.now) };
}
