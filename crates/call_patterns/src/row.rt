// A row of an index.

/// A clause as an index sees it: its name, and the code of its head's key at each position where there is one.
#[derive(Clone, Copy, Debug)]
pub struct Row {
    pub clause: u64,
    pub codes: [Option<u64>; 40],
}
