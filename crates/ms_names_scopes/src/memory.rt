ghost use Rattle.std.specs.Prelude.{◌≡◌, ◌++◌, ◌∷◌, [], IfOk, OnErr, OnOk};

use ms_list::{Name, NoMemory, Text};
use std::alloc::Global;

/// An equal name.
pub fn copy_name(alloc: Global, name: &Name) -> Result<Name, NoMemory>
    ensures { IfOk result (λ made. made ≡ name.now) }
{
    Name::new(alloc, name.text())
}

/// A name as a text.
pub(crate) fn name_text(alloc: Global, name: &Name) -> Result<Text, NoMemory>
    ensures { IfOk result (λ made. made ≡ name.now) }
{
    Text::new(alloc, name.text())
}

/// One more item. Where memory is refused, the items are as they were.
pub(crate) fn add<T: Drop>(items: &mut Vec<T>, item: T) -> Result<(), NoMemory>
    ensures ok { OnOk result (items.new.items ≡ items.old.items ++ item ∷ []) }
    ensures same { OnErr result (items.new.items ≡ items.old.items) }
{
    match items.push(item) {
        Ok(()) => Ok(()),
        Err(_) => Err(NoMemory),
    }
}
