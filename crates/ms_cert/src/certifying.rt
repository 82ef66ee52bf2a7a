ghost use Rattle.std.specs.Prelude.{IfOk};
ghost use Rattle.ms_dfa.specs.Files.{content_of_file};
ghost use Rattle.ms_dfafile.specs.File.{IsFile};
ghost use Rattle.ms_logic_words.specs.Canonical.{IsCanonical};
ghost use Rattle.ms_cert.specs.Certificate.{IsCertified};
ghost use Rattle.ms_cert.specs.Text.{IsWhole};

use crate::cert::Cert;
use crate::growing::grow_tree;
use crate::laid_out::LaidOut;
use crate::layout::lay_out;
use crate::levels::shortest_words;
use crate::refinement::refine;
use ms_dfa::Plain;
use ms_list::NoMemory;
use std::alloc::Global;

/// A certificate of a file whose states are all reached and all differ: shortest words to its states, and a tree of words
/// that tell its states apart. It has a text.
pub fn certificate(alloc: Global, plain: &Plain) -> Result<Cert, NoMemory>
    requires file { IsFile plain.now }
    requires canonical { IsCanonical (content_of_file plain.now) }
    ensures certified { IfOk result (IsCertified plain.now) }
    ensures whole { IfOk result IsWhole }
{
    let words = shortest_words(alloc, plain)?;
    let layout = lay_out(alloc, plain.variables.slice())?;
    let file = LaidOut {
        alloc,
        plain,
        slots: layout.slots.slice(),
    };
    let partition = refine(&file)?;
    let tree = grow_tree(&file, partition)?;
    Ok(Cert { words, tree })
}
