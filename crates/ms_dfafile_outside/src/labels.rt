ghost use Rattle.std.specs.Prelude.{◌≡◌, ◌+◌, ◌<◌, [], length, replicate, None, IfOk};
ghost use Rattle.ms_dfafile_outside.specs.inner.Labels.{IsNoted};

use crate::label::Label;
use ms_arena::Ref;
use ms_list::{List, NoMemory, push};
use std::alloc::Global;

/// The labels of what words have come to, by index, and all that has one, in the order in which it got it.
#[derive(Drop)]
pub(crate) struct Labels {
    pub known: Vec<Option<Label>>,
    pub work: List<Ref>,
}

impl Labels {
    /// No label for any of so many.
    pub(crate) fn none(alloc: Global, count: usize) -> Result<Labels, NoMemory>
        ensures known { IfOk result (λ made. made.known.items ≡ replicate count None) }
        ensures work { IfOk result (λ made. made.work ≡ []) }
    {
        let Ok(known) = vec![in alloc; None; count] else {
            return Err(NoMemory);
        };
        Ok(Labels {
            known,
            work: List::new(alloc),
        })
    }

    /// Gives the reference its label, and answers whether it has no other.
    pub(crate) fn note(&mut self, at: usize, reference: Ref, label: Label) -> Result<bool, NoMemory>
        requires { at < length self.old.known.items }
        ensures { IfOk result (IsNoted self.old.known.items self.new.known.items self.old.work self.new.work at reference label) }
    {
        match self.known[at] {
            Some(other) => Ok(other == label),
            None => {
                self.known[at] = Some(label);
                push(&mut self.work, reference)?;
                Ok(true)
            }
        }
    }
}
