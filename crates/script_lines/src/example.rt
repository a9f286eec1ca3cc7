// Examples of faults.

/// An example of a fault.
#[derive(Clone, Copy)]
pub struct Example<'a> {
    /// The name of its script.
    pub script: &'a str,
    /// The line that the script has to write, where the page tells it.
    pub line: Option<&'a str>,
}
