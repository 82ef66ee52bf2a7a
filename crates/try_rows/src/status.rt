//! The exit status of a run.
use ms_edge::Status;

/// The exit status of each way to end.
pub fn number_of(status: Status) -> u64 {
    match status {
        Status::Done => 0,
        Status::Usage => 1,
        Status::Refused => 2,
        Status::Limit => 3,
        Status::FileFault => 4,
        Status::SinkFault => 5,
        Status::NoMemory => 6,
    }
}

/// The exit status that goes with a text: the usage line has 1, a refusal that of the number at its head, and a report
/// has 0.
pub fn status_of(text: &str) -> u64 {
    if text.starts_with("usage: ") {
        return 1;
    }
    match text.split_once(' ') {
        Some((head, _)) => status_of_refusal(head),
        None => 0,
    }
}

fn status_of_refusal(head: &str) -> u64 {
    match head.parse::<u32>() {
        Ok(10..=46) => 2,
        Ok(50..=54) => 3,
        Ok(60 | 61) => 4,
        Ok(62) => 5,
        Ok(70) => 6,
        _ => 0,
    }
}
