use crate::frame::Frame;
use ms_logic::Source;

/// What has been read of a source, and the expressions that have been begun, the last of them on top.
#[derive(Drop)]
pub struct Parser {
    pub source: Source,
    pub stack: Vec<Frame>,
}
