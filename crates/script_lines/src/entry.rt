// Rows of the page of faults.

/// A row of the page's table.
#[derive(Clone, Copy)]
pub struct Entry<'a> {
    /// `CODE NAME`, as in the line of a refused command.
    pub fault: &'a str,
    /// The examples, with `; ` between.
    pub examples: &'a str,
}
