ghost use Rattle.std.specs.Prelude.{◌≡◌, MatchResult};
ghost use Rattle.ms_diagram.specs.inner.Notes.{NotesOnly};

use indexmap::IndexMap;
use ms_arena::Ref;
use ms_cache::{Key, Memo};
use ms_list::{NoMemory, StepFault};
use std::hash::Hash;

// What keys have become, which a walk asks and tells.
pub(crate) trait Notes<K: Eq> {
    ghost use Rattle.std.specs.Prelude.{List, OnOk};
    ghost use Rattle.std.specs.Map.{lookup};
    ghost use Rattle.ms_arena.specs.declared.node.Ref.{Ref};
    ghost use Rattle.ms_diagram.specs.inner.Notes.{KeepsOnly, NotesOnly};

    ghost entries: { Self → List (K × Ref) };

    // What the key has become, if it has an entry.
    fn ask(&mut self, key: &K) -> Option<Ref>
        ensures answer { result ≡ lookup (K.eq key.now) (entries self.old) }
        ensures kept { KeepsOnly (entries self.old) (entries self.new) };

    // Gives an entry to the key. Others may go.
    fn tell(&mut self, key: K, made: Ref) -> Result<(), NoMemory>
        ensures noted { OnOk result (lookup (K.eq key) (entries self.new) ≡ Some made) }
        ensures only { NotesOnly K.eq (entries self.old) (entries self.new) key made };
}

impl<K: Eq + Hash + Drop> Notes<K> for IndexMap<K, Ref> {
    ghost entries = { λ table. table.entries };

    fn ask(&mut self, key: &K) -> Option<Ref> {
        self.get(key).copied()
    }

    fn tell(&mut self, key: K, made: Ref) -> Result<(), NoMemory> {
        let Ok(_) = self.insert(key, made) else {
            return Err(NoMemory);
        };
        Ok(())
    }
}

impl Notes<(Ref, Ref)> for Memo {
    ghost use Rattle.ms_diagram.specs.inner.Notes.{pair_entries};

    ghost entries = { λ memo. pair_entries memo.entries };

    fn ask(&mut self, key: &(Ref, Ref)) -> Option<Ref> {
        self.ask(Key {
            left: key.0,
            right: key.1,
        })
    }

    fn tell(&mut self, key: (Ref, Ref), made: Ref) -> Result<(), NoMemory> {
        self.tell(
            Key {
                left: key.0,
                right: key.1,
            },
            made,
        )
    }
}

// Tells the notes what the key has become, and hands it on.
#[inline(never)]
pub(crate) fn remember<K: Eq, T: Notes<K>>(
    notes: &mut T,
    key: K,
    made: Ref,
) -> Result<Ref, StepFault>
    ensures handed { MatchResult result (λ handed. handed ≡ made) (λ fault. fault ≡ StepFault.Memory) }
    ensures entries { NotesOnly K.eq (T.entries notes.old) (T.entries notes.new) key made }
{
    let Ok(()) = notes.tell(key, made) else {
        return Err(StepFault::Memory);
    };
    Ok(made)
}
