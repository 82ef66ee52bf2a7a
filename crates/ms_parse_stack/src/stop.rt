use ms_list::NoMemory;

/// Why the reading stops at a token.
#[derive(Clone, Copy)]
pub enum Stop {
    /// Out of memory.
    Memory,
    /// The token cannot stand there.
    Misplaced,
    /// With the token the formula is too deep.
    TooDeep,
}

impl From<NoMemory> for Stop {
    ghost from_gives = { λ _ stop. stop ≡ Memory };

    ghost use Rattle.std.specs.Prelude.{◌≡◌};
    ghost use Rattle.ms_parse_stack.specs.declared.stop.Stop.TheVariants.{Memory};

    fn from(_error: NoMemory) -> Stop {
        Stop::Memory
    }
}
