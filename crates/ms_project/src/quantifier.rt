use ms_dfa::Track;
use ms_logic::Quant;

/// A quantifier and the track of the variable that it binds.
#[derive(Clone, Copy)]
pub struct Quantifier {
    pub quant: Quant,
    pub track: Track,
}
