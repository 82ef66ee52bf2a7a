ghost use Rattle.std.specs.Prelude.{◌≤◌};

use ms_logic::Mode;

/// For which universe an automaton is made, and with how many states and nodes at most.
#[derive(Clone, Copy)]
pub(crate) struct Setting {
    pub mode: Mode,
    pub limit: u64,
    ghost some: { 1 ≤ limit },
    ghost small: { limit ≤ 4000000000 },
}
