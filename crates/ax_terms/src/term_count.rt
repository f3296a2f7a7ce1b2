/// How many terms a document has, and how large they are. Each number is 2^64 - 1 where it is more.
#[derive(Clone, Copy, Debug, PartialEq, Eq)]
pub struct TermCount {
    pub count: u64,
    /// The bytes of all terms together.
    pub bytes: u64,
    /// The bytes of the longest encoded path, its end with them.
    pub longest_path: u64,
}
