ghost use Rattle.std.specs.Prelude.{◌≡◌, ◌≤◌, ◌⊎◌, List, ℕ, length, None, IfOk, IfErr};
ghost use Rattle.ms_parse_grammar.specs.Size.{size_of_items};
ghost use Rattle.ms_include.specs.File.{source_limit};
ghost use Rattle.ms_include.specs.Include.{include_of};
ghost use Rattle.ms_include.specs.Load.{place_or, first_include, IsLoadedText, IsRefusedText};

use crate::file::parse;
use crate::source::mode;
use ms_edge::Refusal;
use ms_list::{At, Bytes, List, Text};
use ms_logic::{Decl, Item, Loaded, Source};
use std::alloc::Global;

/// Where the file of an include is named.
fn named(decl: &Decl) -> Option<At>
    ensures { result ≡ place_or (include_of decl.now) None }
{
    match decl {
        Decl::Include(at, _) => Some(*at),
        Decl::Vars(_) => None,
        Decl::Const(..) => None,
        Decl::Pred(..) => None,
        Decl::Default(..) => None,
        Decl::Formula(_) => None,
        Decl::Goal(..) => None,
    }
}

fn first_include(items: &[Item]) -> Option<At>
    ensures { result ≡ first_include items.now }
{
    for item in items {
        let named = named(&item.decl);
        if named.is_some() {
            return named;
        }
    }
    None
}

/// The declarations of one text, known by a name. Its includes are refused.
pub fn load_bytes(alloc: Global, name: &str, bytes: Bytes) -> Result<Loaded, Refusal>
    requires { length bytes ≤ source_limit }
    ensures loaded { IfOk result (IsLoadedText name.now bytes) }
    ensures bounded { IfOk result (λ loaded. size_of_items loaded.items ≤ length bytes) }
    ensures refused { IfErr result (λ refusal. (refusal ≡ Refusal.Memory) ⊎ IsRefusedText bytes refusal) }
{
    let parsed = match parse(alloc, bytes, 0) {
        Ok(parsed) => parsed,
        Err(refusal) => return Err(refusal),
    };
    if let Some(at) = first_include(parsed.items.slice()) {
        return Err(Refusal::NotHere { at });
    }
    let Ok(name) = Text::new(alloc, name) else {
        return Err(Refusal::Memory);
    };
    let mut files = List::new(alloc);
    let Ok(()) = files.push(name) else {
        return Err(Refusal::Memory);
    };
    let Source { header, items } = parsed;
    Ok(Loaded {
        mode: mode(header),
        items,
        files,
    })
}
