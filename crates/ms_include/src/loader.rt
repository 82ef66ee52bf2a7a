ghost use Rattle.std.specs.Prelude.{◌≡◌, ◌≤◌, ◌⊎◌, ◌++◌, ◌∷◌, [], List, ℕ, length, drop, IfOk, IfErr, OnOk};
ghost use Rattle.ms_logic.specs.declared.source.Item.{Item};
ghost use Rattle.ms_edge.specs.Files.{OnlyRead, Seen, between};
ghost use Rattle.ms_edge.specs.declared.refusal.Refusal.TheVariants.{IncludeCycle, NotHere};
ghost use Rattle.ms_include.specs.Include.{numbers, Becomes, AllBecome, Loads, Stops, OneStops, IsRefused, include_of, is_among, names};
ghost use Rattle.ms_include.specs.Load.{files_of};
ghost use Rattle.ms_include.specs.inner.Seen.{IsPart};

use crate::begun::{Begun, is_in_chain, is_read, numbers};
use crate::file::open;
use ms_edge::{Files, Refusal};
use ms_list::{At, List, Text};
use ms_logic::{Decl, Item};
use std::alloc::Global;

/// How many files a source may have.
const MOST_FILES: usize = 64;

/// How deep includes may go.
pub const GREATEST_DEPTH: u32 = 16;

/// A source that is being loaded.
#[derive(Drop)]
pub struct Loader {
    pub alloc: Global,
    /// The number of its first file.
    pub base: usize,
    /// The files whose loading goes on.
    pub chain: Vec<Begun>,
    /// The declarations so far, with their includes put in place.
    pub items: Vec<Item>,
}

/// The refusal of an included file that has a header.
fn header_inside(at: At) -> Refusal
    ensures { result ≡ NotHere at }
{
    Refusal::NotHere { at }
}

/// Appends the item, which is let go where memory is refused.
fn add<T: Drop>(items: &mut Vec<T>, item: T) -> Result<(), Refusal>
    ensures ok { OnOk result (items.new.items ≡ items.old.items ++ item ∷ []) }
    ensures memory { IfErr result (λ refusal. refusal ≡ Refusal.Memory) }
{
    match items.push(item) {
        Ok(()) => Ok(()),
        Err(_) => Err(Refusal::Memory),
    }
}

impl Loader {
    fn push(&mut self, item: Item) -> Result<(), Refusal>
        ensures items { OnOk result (self.new.items.items ≡ self.old.items.items ++ item ∷ []) }
        ensures base { self.new.base ≡ self.old.base }
        ensures chain { self.new.chain.items ≡ self.old.chain.items }
        ensures memory { IfErr result (λ refusal. refusal ≡ Refusal.Memory) }
    {
        add(&mut self.items, item)
    }

    /// Whether the loading of the file with this name goes on.
    fn is_begun(&self, name: &Text) -> bool
        ensures { result ≡ is_among name.now (names self.now.chain.items) }
    {
        is_in_chain(name, self.chain.as_slice())
    }

    /// Whether the file with this name has been read.
    fn is_loaded(&self, name: &Text, names: &List<Text>) -> bool
        requires { self.now.base ≤ length names.now }
        ensures { result ≡ is_among name.now (drop self.now.base names.now) }
    {
        is_read(name, names.slice(), self.base)
    }

    /// The refusal of an include of a file whose loading goes on.
    fn cycle(&self, at: At, name: Text) -> Refusal
        ensures { (result ≡ Refusal.Memory) ⊎ (result ≡ IncludeCycle at name (numbers self.now.chain.items)) }
    {
        match numbers(self.alloc, self.chain.as_slice()) {
            Ok(chain) => Refusal::IncludeCycle { at, name, chain },
            Err(_) => Refusal::Memory,
        }
    }

    /// Puts the declarations of a new file in place, which is named in an include.
    #[cycle(includes)]
    fn load<F: Files>(
        &mut self,
        files: &mut F,
        names: &mut List<Text>,
        room: u32,
        at: At,
        name: Text,
    ) -> Result<(), Refusal>
        requires base { self.old.base ≤ 4294967231 }
        requires begun { self.old.base ≤ length names.old }
        ensures put { (request : Seen) → IsPart (between (F.told files.old) (F.told files.new)) request →
            OnOk result ((made : List Item) × (self.new.items.items ≡ self.old.items.items ++ made)
            × Loads (files_of request self.old.base) room self.old.chain.items (drop self.old.base names.old) name (drop self.old.base names.new) made) }
        ensures refused { (request : Seen) → IsPart (between (F.told files.old) (F.told files.new)) request →
            IfErr result (λ refusal. (refusal ≡ Refusal.Memory) ⊎ IsRefused (files_of request self.old.base) room self.old.chain.items (drop self.old.base names.old) at name refusal (drop self.old.base names.new)) }

        ensures base { self.new.base ≡ self.old.base }
        ensures chain { OnOk result (self.new.chain.items ≡ self.old.chain.items) }
        ensures grown { (added : List (List ℕ)) × (names.new ≡ names.old ++ added) }
        ensures only_read { OnlyRead (F.told files.old) (F.told files.new) }
    {
        if room == 0 {
            return Err(Refusal::Includes {
                at,
                limit: GREATEST_DEPTH,
            });
        }
        if names.len() - self.base >= MOST_FILES {
            return Err(Refusal::Includes {
                at,
                limit: MOST_FILES as u32,
            });
        }
        let number = names.len() as u32;
        let parsed = match open(self.alloc, files, names, Some(at), &name, number) {
            Ok(parsed) => parsed,
            Err(refusal) => return Err(refusal),
        };
        if let Some((at, _)) = parsed.header {
            return Err(header_inside(at));
        }
        self.begin(number, name)?;
        if let Err(refusal) = self.put_all(files, names, room - 1, parsed.items) {
            return Err(refusal);
        }
        self.chain.pop();
        Ok(())
    }

    /// Puts a declaration in place: an include becomes the declarations of its file.
    #[cycle(includes)]
    fn put<F: Files>(
        &mut self,
        files: &mut F,
        names: &mut List<Text>,
        room: u32,
        item: Item,
    ) -> Result<(), Refusal>
        requires base { self.old.base ≤ 4294967231 }
        requires begun { self.old.base ≤ length names.old }
        ensures put { (request : Seen) → IsPart (between (F.told files.old) (F.told files.new)) request →
            OnOk result ((made : List Item) × (self.new.items.items ≡ self.old.items.items ++ made)
            × Becomes (Loads (files_of request self.old.base) room) self.old.chain.items (drop self.old.base names.old) item (include_of item.decl) (drop self.old.base names.new) made) }
        ensures refused { (request : Seen) → IsPart (between (F.told files.old) (F.told files.new)) request →
            IfErr result (λ refusal. (refusal ≡ Refusal.Memory) ⊎ Stops (IsRefused (files_of request self.old.base) room) self.old.chain.items (drop self.old.base names.old) (include_of item.decl) refusal (drop self.old.base names.new)) }

        ensures base { self.new.base ≡ self.old.base }
        ensures chain { OnOk result (self.new.chain.items ≡ self.old.chain.items) }
        ensures grown { (added : List (List ℕ)) × (names.new ≡ names.old ++ added) }
        ensures only_read { OnlyRead (F.told files.old) (F.told files.new) }
    {
        let Item { at: place, decl } = item;
        match decl {
            Decl::Include(at, name) => self.include(files, names, room, at, name),
            Decl::Vars(bounds) => self.push(Item {
                at: place,
                decl: Decl::Vars(bounds),
            }),
            Decl::Const(at, name, sum) => self.push(Item {
                at: place,
                decl: Decl::Const(at, name, sum),
            }),
            Decl::Pred(is_pred, at, name, bounds, body) => self.push(Item {
                at: place,
                decl: Decl::Pred(is_pred, at, name, bounds, body),
            }),
            Decl::Default(order, name, body) => self.push(Item {
                at: place,
                decl: Decl::Default(order, name, body),
            }),
            Decl::Formula(formula) => self.push(Item {
                at: place,
                decl: Decl::Formula(formula),
            }),
            Decl::Goal(at, title, formula) => self.push(Item {
                at: place,
                decl: Decl::Goal(at, title, formula),
            }),
        }
    }

    /// Puts all declarations of a file in place.
    #[cycle(includes)]
    pub fn put_all<F: Files>(
        &mut self,
        files: &mut F,
        names: &mut List<Text>,
        room: u32,
        items: List<Item>,
    ) -> Result<(), Refusal>
        requires base { self.old.base ≤ 4294967231 }
        requires begun { self.old.base ≤ length names.old }
        ensures put { (request : Seen) → IsPart (between (F.told files.old) (F.told files.new)) request →
            OnOk result ((made : List Item) × (self.new.items.items ≡ self.old.items.items ++ made)
            × AllBecome (Loads (files_of request self.old.base) room) self.old.chain.items (drop self.old.base names.old) items (drop self.old.base names.new) made) }
        ensures refused { (request : Seen) → IsPart (between (F.told files.old) (F.told files.new)) request →
            IfErr result (λ refusal. (refusal ≡ Refusal.Memory) ⊎ OneStops (Loads (files_of request self.old.base) room) (IsRefused (files_of request self.old.base) room) self.old.chain.items (drop self.old.base names.old) items refusal (drop self.old.base names.new)) }

        ensures base { self.new.base ≡ self.old.base }
        ensures chain { OnOk result (self.new.chain.items ≡ self.old.chain.items) }
        ensures grown { (added : List (List ℕ)) × (names.new ≡ names.old ++ added) }
        ensures only_read { OnlyRead (F.told files.old) (F.told files.new) }
    {
        for item in items.into_vec() {
            if let Err(refusal) = self.put(files, names, room, item) {
                return Err(refusal);
            }
        }
        Ok(())
    }

    /// Puts an include in place.
    #[cycle(includes)]
    fn include<F: Files>(
        &mut self,
        files: &mut F,
        names: &mut List<Text>,
        room: u32,
        at: At,
        name: Text,
    ) -> Result<(), Refusal>
        requires base { self.old.base ≤ 4294967231 }
        requires begun { self.old.base ≤ length names.old }
        ensures put { (request : Seen) → IsPart (between (F.told files.old) (F.told files.new)) request → (item : Item) →
            OnOk result ((made : List Item) × (self.new.items.items ≡ self.old.items.items ++ made)
            × Becomes (Loads (files_of request self.old.base) room) self.old.chain.items (drop self.old.base names.old) item (Some (at, name)) (drop self.old.base names.new) made) }
        ensures refused { (request : Seen) → IsPart (between (F.told files.old) (F.told files.new)) request →
            IfErr result (λ refusal. (refusal ≡ Refusal.Memory) ⊎ Stops (IsRefused (files_of request self.old.base) room) self.old.chain.items (drop self.old.base names.old) (Some (at, name)) refusal (drop self.old.base names.new)) }

        ensures base { self.new.base ≡ self.old.base }
        ensures chain { OnOk result (self.new.chain.items ≡ self.old.chain.items) }
        ensures grown { (added : List (List ℕ)) × (names.new ≡ names.old ++ added) }
        ensures only_read { OnlyRead (F.told files.old) (F.told files.new) }
    {
        if self.is_begun(&name) {
            return Err(self.cycle(at, name));
        }
        if self.is_loaded(&name, names) {
            return Ok(());
        }
        if let Err(refusal) = self.load(files, names, room, at, name) {
            return Err(refusal);
        }
        Ok(())
    }

    /// Adds a file to the chain.
    pub fn begin(&mut self, number: u32, name: Text) -> Result<(), Refusal>
        ensures chain { OnOk result (self.new.chain.items ≡ self.old.chain.items ++ record { number = number; name = name } ∷ []) }
        ensures base { self.new.base ≡ self.old.base }
        ensures items { self.new.items.items ≡ self.old.items.items }
        ensures memory { IfErr result (λ refusal. refusal ≡ Refusal.Memory) }
    {
        add(&mut self.chain, Begun { number, name })
    }
}
