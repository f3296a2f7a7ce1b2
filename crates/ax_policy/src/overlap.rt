//! Paths compared step by step.
ghost use Rattle.std.specs.Prelude.{◌≡◌};
ghost use Rattle.ax_policy.specs.Composites as spec;
ghost use Rattle.ax_policy.specs.Sameness.{same_path as same};

use ax_mean::Step;

/// Whether one path equals or begins the other.
pub(crate) fn overlap(steps: &[Step], others: &[Step]) -> bool
    ensures { result ≡ spec.overlap steps.now others.now }
{
    let Some((step, steps)) = steps.split_first() else {
        return true;
    };
    let Some((other, others)) = others.split_first() else {
        return true;
    };
    same_step(step, other) && overlap(steps, others)
}

/// Whether the paths are equal, step by step.
pub fn same_path(steps: &[Step], others: &[Step]) -> bool
    ensures { result ≡ same steps.now others.now }
{
    let Some((step, steps)) = steps.split_first() else {
        return others.is_empty();
    };
    let Some((other, others)) = others.split_first() else {
        return false;
    };
    same_step(step, other) && same_path(steps, others)
}

fn same_step(step: &Step, other: &Step) -> bool
    ensures { result ≡ spec.same_step step.now other.now }
{
    match step {
        Step::Name(name) => match other {
            Step::Name(text) => name.as_str() == text.as_str(),
            Step::Item => false,
        },
        Step::Item => match other {
            Step::Name(_) => false,
            Step::Item => true,
        },
    }
}
