// What the choice answers. It has a file of its own, since its name and that of the call differ only in their first letter.

// The number of the table that is chosen, 1 or 2, and its count of used bytes.
#[derive(Clone, Copy, PartialEq, Eq)]
pub struct Choice {
    pub table: usize,
    pub used: usize,
}
