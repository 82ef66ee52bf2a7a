ghost use Rattle.std.specs.Prelude.{◌≡◌, IfOk, IsUtf8};

use crate::fault::NoMemory;
use std::alloc::Global;
use std::marker::Model;

/// UTF-8 text that contracts see as its bytes.
#[derive(Drop)]
pub struct Text {
    inner: String,
}

impl Model for Text {
    ghost use Rattle.std.specs.Prelude.{IsUtf8, List, ℕ, string_bytes};
    ghost use Rattle.std.specs.Coded.{coded_list, coded_ℕ};

    ghost Value = { List ℕ };

    ghost coded = { coded_list coded_ℕ };

    ghost view = { λ text. string_bytes text.inner };

    ghost invariant = { λ text. IsUtf8 (string_bytes text.inner) };
}

impl Text {
    /// A text of its own with these bytes.
    pub fn new(alloc: Global, text: &str) -> Result<Text, NoMemory>
        ensures { IfOk result (λ made. made ≡ text.now) }
    {
        match String::from_str(alloc, text) {
            Ok(inner) => Ok(Text { inner }),
            Err(_) => Err(NoMemory),
        }
    }

    pub fn bytes(&self) -> &[u8]
        ensures { result.now ≡ self.now }
    {
        self.inner.as_bytes()
    }

    pub fn text(&self) -> &str
        ensures { result.now ≡ self.now }
    {
        self.inner.as_str()
    }
}
