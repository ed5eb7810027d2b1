/// Where a row stands in a chain: whose chain it is, and the rows before and behind, by their keys.
#[derive(Clone, Copy, Debug, PartialEq, Eq)]
pub struct Link {
    pub owner: usize,
    pub prev: Option<usize>,
    pub next: Option<usize>,
}

/// The first and the last row of a chain, by their keys. Both are there or neither is.
#[derive(Clone, Copy, Debug, PartialEq, Eq)]
pub struct Ends {
    pub first: Option<usize>,
    pub last: Option<usize>,
}
