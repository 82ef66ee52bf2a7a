ghost use Rattle.std.specs.Prelude.{◌≡◌, true, IfOk, IfSome, IfNone};
ghost use Rattle.ms_parse_grammar.specs.Reads.{int_symbol, Starts};
ghost use Rattle.ms_parse_steps.specs.inner.Terminals.{behind, NoInt};

use crate::input::Input;
use crate::terminal::Terminal;
use ms_list::NoMemory;
use ms_logic::{Int, PlacedInt};

impl Input<'_> {
    /// The number or constant that the token with a number is, and the number behind it.
    pub fn int_at(self, i: u32, minus: bool) -> Result<Option<(PlacedInt, u32)>, NoMemory>
        ensures next { IfOk result (λ found. IfSome found (λ one. Starts true (int_symbol one.0.value) one.0.at (behind self.entry.file self.entry.tokens.now i) (behind self.entry.file self.entry.tokens.now one.1))) }
        ensures minus { IfOk result (λ found. IfSome found (λ one. one.0.minus ≡ minus)) }
        ensures other { IfOk result (λ found. IfNone found (NoInt (behind self.entry.file self.entry.tokens.now i))) }
    {
        if let Some((Terminal::Number(number), at)) = self.terminal_at(i) {
            let value = Int::Number(number);
            return Ok(Some((PlacedInt { at, value, minus }, i + 1)));
        }
        match self.name_at(i)? {
            Some((name, at)) => {
                let value = Int::Constant(name);
                Ok(Some((PlacedInt { at, value, minus }, i + 1)))
            }
            None => Ok(None),
        }
    }
}
