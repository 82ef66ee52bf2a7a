ghost use Rattle.ms_dag.specs.inner.Tasks.{IsNoImport};
ghost use Rattle.ms_logic_core.specs.CoreForm.{core_form_of, imported};
ghost use Rattle.std.specs.Prelude.{◌≡◌, MatchOption};

use ms_logic_core::Core;

/// An import and its variables.
#[derive(Clone, Copy)]
pub(crate) struct Call<'a> {
    pub(crate) import: u32,
    pub(crate) variables: &'a [u32],
}

/// The call that a formula is, if it is one.
pub(crate) fn call_of(core: &Core) -> Option<Call<'_>>
    ensures { MatchOption result (IsNoImport (core_form_of core.now)) (λ call. core_form_of core.now ≡ imported call.import call.variables.now) }
{
    match core {
        Core::Import(import, variables) => Some(Call {
            import: *import,
            variables: variables.slice(),
        }),
        Core::True => None,
        Core::False => None,
        Core::Basic(_) => None,
        Core::Not(_) => None,
        Core::And(_) => None,
        Core::Or(_) => None,
        Core::Implies(_, _) => None,
        Core::Iff(_, _) => None,
        Core::Restrict(_) => None,
        Core::Bind(_, _, _, _, _) => None,
    }
}
