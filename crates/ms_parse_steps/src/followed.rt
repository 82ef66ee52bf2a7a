use crate::operand::Operand;
use crate::terminal::Terminal;

/// An expression that has been read, the terminal that follows it, and the number of the token behind that.
#[derive(Drop)]
pub struct Followed {
    pub operand: Operand,
    pub terminal: Terminal,
    pub next: u32,
}
