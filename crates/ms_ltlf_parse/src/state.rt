use crate::frame::{Frame, TemporalLogic};
use ms_parse_stack as stacks;

/// What has been begun, and the depth of the shortest formula that begins so.
pub type Begun = stacks::Begun<Frame>;

/// What has been read last.
pub type Outcome = stacks::Outcome<TemporalLogic>;
