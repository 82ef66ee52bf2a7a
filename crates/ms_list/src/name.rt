ghost use Rattle.std.specs.Prelude.{◌≡◌, IfOk};

use crate::fault::NoMemory;
use crate::text::Text;
use std::alloc::Global;
use std::marker::Model;

/// A name of a source, as of a variable or a predicate. Contracts see it as its bytes.
#[derive(Drop)]
pub struct Name {
    inner: Text,
}

impl Model for Name {
    ghost use Rattle.std.specs.Prelude.{List, ℕ};
    ghost use Rattle.std.specs.Coded.{coded_list, coded_ℕ};

    ghost Value = { List ℕ };

    ghost coded = { coded_list coded_ℕ };

    ghost view = { λ name. name.inner };
}

impl Name {
    /// A name of its own with these bytes.
    pub fn new(alloc: Global, text: &str) -> Result<Name, NoMemory>
        ensures { IfOk result (λ made. made ≡ text.now) }
    {
        Ok(Name {
            inner: Text::new(alloc, text)?,
        })
    }

    pub fn bytes(&self) -> &[u8]
        ensures { result.now ≡ self.now }
    {
        self.inner.bytes()
    }

    pub fn text(&self) -> &str
        ensures { result.now ≡ self.now }
    {
        self.inner.text()
    }
}
