// What the page of faults says: a row of its table for each fault, with examples.

use crate::entry::Entry;
use crate::example::Example;

/// What a line of the page says of a fault; none where it is no row of the table.
pub fn row_of(line: &str) -> Option<Entry<'_>> {
    let (fault, rest) = line.strip_prefix("| ")?.split_once(" | ")?;
    let (_comes_for, rest) = rest.split_once(" | ")?;
    let (examples, _mend_by) = rest.split_once(" | ")?;
    // The head of the table has no name behind its word `code`.
    let (_code, _name) = fault.split_once(' ')?;
    Some(Entry { fault, examples })
}

/// The example that a part of a row's examples is; none where a test stands in its place, in brackets.
pub fn example_of(part: &str) -> Option<Example<'_>> {
    if part.starts_with('(') {
        return None;
    }
    match part.split_once(": `") {
        Some((script, rest)) => Some(Example {
            script,
            line: rest.strip_suffix('`'),
        }),
        None => Some(Example {
            script: part,
            line: None,
        }),
    }
}

/// Whether a line that a script wrote shows this fault, `CODE NAME`.
pub fn shows(line: &str, fault: &str) -> bool {
    match line.strip_prefix("refused ") {
        Some(rest) => match rest.strip_prefix(fault) {
            Some(rest) => rest.starts_with(' '),
            None => false,
        },
        None => false,
    }
}

/// Whether the page's table has the fault that a line shows.
pub fn has(page: &str, line: &str) -> bool {
    for row in page.lines() {
        if let Some(entry) = row_of(row) {
            if shows(line, entry.fault) {
                return true;
            }
        }
    }
    false
}

/// Whether what a script writes shows the fault as the example says.
pub fn agrees(written: &str, fault: &str, example: &Example<'_>) -> bool {
    for line in written.lines() {
        if shows(line, fault) {
            match example.line {
                Some(wanted) if wanted != line => {}
                _ => return true,
            }
        }
    }
    false
}
