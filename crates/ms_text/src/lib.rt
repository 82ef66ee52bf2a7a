//! The tokens of a source: names, words, numbers, texts and marks, with blanks and comments between them,
//! and the place of the first fault.
#![tactic(auto)]

mod examples;
mod fault;
mod gap;
mod kept;
mod keyword;
mod laws;
mod lexer;
mod mark;
mod scan;
mod token;
mod token_list;

pub use examples::{example_faults, example_tokens};
pub use fault::Cause;
pub use keyword::Keyword;
pub use laws::{blank_behind, one_first_fault, one_token_list, spans, tokens_or_fault};
pub use lexer::tokens;
pub use mark::Mark;
pub use scan::{is_name, name_length};
pub use token::{Kind, Token};
pub use token_list::{MAX_BYTES, Tokens};
