use ax_mean::Path;

/// The path of a rule.
#[derive(Debug, Drop)]
pub(crate) struct RulePath {
    pub(crate) steps: Path,
    /// Whether it ends in `/*`, so that it stands for every leaf there and below.
    pub(crate) all: bool,
}
