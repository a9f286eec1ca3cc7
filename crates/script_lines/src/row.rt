// A row: a script, and what it has to write.

/// A row's words without the workers, its script, the lines that it has to write, and the status that it has to end with.
#[derive(Clone, Copy)]
pub struct Row<'a> {
    pub words: &'a str,
    pub script: &'a str,
    pub lines: &'a str,
    pub status: &'a str,
}

/// Whether lines are the same whatever workers do: no display is an estimate, and no settle ended before all was settled.
pub fn are_of_every_schedule(lines: &str) -> bool {
    for line in lines.lines() {
        if line.starts_with("unsettled ") || is_estimate(line) {
            return false;
        }
    }
    true
}

// Whether it is the first line of a display that is an estimate.
fn is_estimate(line: &str) -> bool {
    line.starts_with("show ") && line.split_whitespace().nth(2) == Some("estimate")
}
