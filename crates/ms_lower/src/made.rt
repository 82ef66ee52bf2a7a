//! What was made, where memory was not refused.

use ms_list::{Boxed, List, NoMemory};
use ms_logic_core::Core;

/// A core formula, where it was made.
pub type Made = Result<Boxed<Core>, NoMemory>;

/// A list of core formulas, where it was made.
pub type MadeList = Result<List<Core>, NoMemory>;
