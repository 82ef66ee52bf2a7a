mod examples;
mod laws;

pub use examples::worked_declarations;
pub use laws::laws_of_spellings;
