// What is printed of stories.
use crate::play::Difference;
use std::alloc::{AllocError, Global};

/// What is said of a story that was played.
pub fn verdict(alloc: Global, found: Option<Difference>) -> Result<String, AllocError> {
    match found {
        None => String::from_str(alloc, "passed"),
        Some(Difference::Status(status)) => format!(in alloc;
            "FAILED: it ended with status {status}"
        ),
        Some(Difference::Prints(bytes)) => {
            let text = String::from_utf8_lossy(alloc, &bytes)?;
            let text = text.as_str();
            format!(in alloc; "FAILED: it printed\n{text}")
        }
        Some(Difference::After(name)) => {
            let name = name.as_str();
            format!(in alloc; "FAILED: the file {name} differs afterwards")
        }
        Some(Difference::Gone(name)) => {
            let name = name.as_str();
            format!(in alloc; "FAILED: the file {name} is there afterwards")
        }
    }
}

/// How many passed, and how many failed.
pub fn count_text(alloc: Global, passed: u64, failed: u64) -> Result<String, AllocError> {
    format!(in alloc; "{passed} passed, {failed} failed\n")
}
