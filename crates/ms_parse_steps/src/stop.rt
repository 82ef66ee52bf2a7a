use ms_list::NoMemory;

/// Why an automaton's step is not taken.
#[derive(Clone, Copy)]
pub enum Stop {
    Memory,
    /// The token with this number does not stand there, or the tokens end before it.
    Refused(u32),
    /// At the token with this number an expression becomes too deep.
    TooDeep(u32),
}

impl From<NoMemory> for Stop {
    ghost from_gives = { λ _ stop. stop ≡ Memory };

    ghost use Rattle.std.specs.Prelude.{◌≡◌};
    ghost use Rattle.ms_parse_steps.specs.declared.stop.Stop.TheVariants.{Memory};

    fn from(_error: NoMemory) -> Stop {
        Stop::Memory
    }
}
