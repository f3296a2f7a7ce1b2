//! The arguments of a call, where there are so many.
ghost use Rattle.std.specs.Prelude.{◌≡◌, option_map};
ghost use Rattle.std.specs.Option.{option_copied};
ghost use Rattle.ax_mean.specs.Functions.{only as only_of, two as two_of, three as three_of};

use crate::seen::Seen;

pub fn only<'s, 'a>(args: &'s [Seen<'a>]) -> Option<&'s Seen<'a>>
    ensures { option_copied result ≡ only_of args.now }
{
    match args {
        [a] => Some(a),
        _ => None,
    }
}

pub fn two<'s, 'a>(args: &'s [Seen<'a>]) -> Option<(&'s Seen<'a>, &'s Seen<'a>)>
    ensures { option_map (λ p. (p.0.now, p.1.now)) result ≡ two_of args.now }
{
    match args {
        [a, b] => Some((a, b)),
        _ => None,
    }
}

pub fn three<'s, 'a>(args: &'s [Seen<'a>]) -> Option<(&'s Seen<'a>, &'s Seen<'a>, &'s Seen<'a>)>
    ensures { option_map (λ p. (p.0.now, p.1.now, p.2.now)) result ≡ three_of args.now }
{
    match args {
        [a, b, c] => Some((a, b, c)),
        _ => None,
    }
}
