ghost use Rattle.std.specs.Prelude.{◌≡◌, [], ◌∷◌, ◌++◌, OnOk, OnErr};

use ms_list::{List, NoMemory, Text};
use std::alloc::Global;
use std::marker::Model;

/// The words after the program's name on the command line.
#[derive(Drop)]
pub struct CommandLine {
    alloc: Global,
    words: List<Text>,
}

impl Model for CommandLine {
    ghost use Rattle.std.specs.Prelude.{List as Sequence, ℕ};
    ghost use Rattle.std.specs.Coded.{coded_list, coded_ℕ};

    ghost Value = { Sequence (Sequence ℕ) };

    ghost coded = { coded_list (coded_list coded_ℕ) };

    ghost view = { λ w. w.words };
}

impl CommandLine {
    /// No words. It takes no memory.
    pub fn new(alloc: Global) -> CommandLine
        ensures { result ≡ [] }
    {
        CommandLine {
            alloc,
            words: List::new(alloc),
        }
    }

    /// Appends the word. A refusal changes nothing.
    pub fn push(&mut self, word: &str) -> Result<(), NoMemory>
        ensures ok { OnOk result (self.new ≡ self.old ++ word.now ∷ []) }
        ensures err { OnErr result (self.new ≡ self.old) }
    {
        let text = Text::new(self.alloc, word)?;
        match self.words.push(text) {
            Ok(()) => Ok(()),
            Err(_) => Err(NoMemory),
        }
    }

    /// The words in order.
    pub fn slice(&self) -> &[Text]
        ensures { result.now ≡ self.now }
    {
        self.words.slice()
    }
}
