// Displays that are settled, beside those of runs of the last design alone.
use std::alloc::{AllocError, Global};

// Whether a line begins the reply to a command, and so isn't one of a table.
fn is_reply(line: &str) -> bool {
    let heads = [
        "ok ",
        "show ",
        "settled ",
        "unsettled ",
        "status ",
        "unit ",
        "refused ",
    ];
    heads.iter().any(|head| line.starts_with(head))
}

// Whether it is the first line of a display that is settled.
fn is_settled(line: &str) -> bool {
    line.starts_with("show ") && line.split_whitespace().nth(2) == Some("settled")
}

/// The lines of registers of the last display of these replies; none where there is no display, or where the last one isn't settled.
pub fn last_settled(alloc: Global, replies: &str) -> Result<Option<Vec<&str>>, AllocError> {
    let mut table = None;
    let mut is_open = false;
    for line in replies.lines() {
        if is_reply(line) {
            is_open = is_settled(line);
        }
        if line.starts_with("show ") {
            table = is_open.then(|| Vec::new(alloc));
        } else if is_open {
            if let Some(lines) = &mut table {
                lines.push(line)?;
            }
        }
    }
    Ok(table)
}
