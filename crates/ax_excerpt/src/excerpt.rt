use ax_mean::Members;

/// Which parts of a tree are looked at.
#[derive(Debug, Drop)]
pub enum Excerpt {
    /// All of it.
    Whole,
    /// Of a map the members of these names, and of the value of each what its excerpt has; of any
    /// other tree all.
    Part(Members<Excerpt>),
}
