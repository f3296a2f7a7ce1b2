//! The value of a number.

ghost use Rattle.std.specs.Prelude.{◌≡◌, ◌≤◌};
ghost use Rattle.std.specs.Option.{SomeIff};
ghost use Rattle.ax_lex.specs.Tokens.{number_of};

/// The value of the digits of a number, where it is at most `limit`: `None` where it is above. It
/// may have leading zeros.
pub fn number(digits: &[u8], limit: u64) -> Option<u64>
    ensures { SomeIff result (number_of digits.now ≤ limit) (number_of digits.now) }
{
    let mut value: u64 = 0;
    for &digit in digits {
        value = value
            .checked_mul(10)?
            .checked_add(u64::from(digit.saturating_sub(b'0')))?;
    }
    if value <= limit { Some(value) } else { None }
}
