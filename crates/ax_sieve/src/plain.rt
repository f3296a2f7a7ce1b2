//! Names that JSON writes without an escape.
ghost use Rattle.std.specs.Prelude.{◌≡◌};
ghost use Rattle.ax_sieve.specs.Names.{is_plain as plain_test, is_plain_step as plain_step_test, are_plain as plain_steps_test};

use ax_mean::QueryStep;

/// Whether each of the steps is to a member whose name stands between its quotes as it is.
pub(crate) fn are_plain(steps: &[QueryStep]) -> bool
    ensures { result ≡ plain_steps_test steps.now }
{
    steps.iter().all(|step| is_plain_step(step))
}

fn is_plain_step(step: &QueryStep) -> bool
    ensures { result ≡ plain_step_test step.now }
{
    match step {
        QueryStep::Member(name) => is_plain(name.as_str().as_bytes()),
        QueryStep::Position(_) => false,
    }
}

/// Whether a text stands between its quotes as it is.
fn is_plain(text: &[u8]) -> bool
    ensures { result ≡ plain_test text.now }
{
    text.iter()
        .all(|byte| *byte >= b' ' && *byte != b'"' && *byte != b'\\')
}
