//! Whole numbers, read from their texts.
ghost use Rattle.std.specs.Prelude.{◌≡◌, ◌<◌, ◌≤◌, ◌^◌, ℕ, ℤ, pos, neg_ℤ, true, Some, IfSome};
ghost use Rattle.std.specs.Fmt.{decimal, signed_decimal};
ghost use Rattle.ax_tree.specs.WellFormed.{is_of_64_bits};
ghost use Rattle.std.specs.Char.{is_ascii_digit};
ghost use Rattle.std.specs.List.{list_all};
ghost use Rattle.ax_skim.specs.Numerals.{is_numeral as numeral, begins_well as well_begun};

/// As many digits as the largest number of a document has.
const MOST_DIGITS: usize = 19;

/// The number that a text writes, as canonical texts write it; `None` of a text that writes none of
/// 64 bits.
pub(crate) fn number_of(text: &[u8]) -> Option<i64>
    ensures same { (number : ℤ) → text.now ≡ signed_decimal number
        → IfSome result (λ found. found ≡ number) }
    ensures written { IfSome result (λ found. text.now ≡ signed_decimal found) }
    ensures given { (number : ℤ) → is_of_64_bits number ≡ true → text.now ≡ signed_decimal number
        → result ≡ Some number }
{
    let (&first, rest) = text.split_first()?;
    if first == b'-' {
        below_zero(size_of(rest)?)
    } else {
        i64::try_from(size_of(text)?).ok()
    }
}

/// The number below zero of that size.
#[inline]
fn below_zero(size: u64) -> Option<i64>
    ensures found { IfSome result (λ number. (1 ≤ size) × (number ≡ neg_ℤ (pos size))) }
    ensures given { 1 ≤ size → size ≤ 2 ^ 63 → result ≡ Some (neg_ℤ (pos size)) }
{
    if size == 0 {
        return None;
    }
    i64::try_from(-i128::from(size)).ok()
}

/// The number that digits write, with no 0 before others; `None` where there are more than a
/// document's numbers have.
fn size_of(digits: &[u8]) -> Option<u64>
    ensures same { (number : ℕ) → digits.now ≡ decimal number → IfSome result (λ found. found ≡ number) }
    ensures written { IfSome result (λ found. digits.now ≡ decimal found) }
    ensures given { (number : ℕ) → number < 10 ^ 19 → digits.now ≡ decimal number
        → result ≡ Some number }
{
    if !is_numeral(digits) {
        return None;
    }
    let mut number: u64 = 0;
    for &digit in digits {
        number = number
            .checked_mul(10)?
            .checked_add(u64::from(digit - b'0'))?;
    }
    Some(number)
}

/// Whether the digits are written as a document's numbers are.
fn is_numeral(digits: &[u8]) -> bool
    ensures { result ≡ numeral digits.now }
{
    digits.len() <= MOST_DIGITS && are_digits(digits) && begins_well(digits)
}

fn are_digits(text: &[u8]) -> bool
    ensures { result ≡ list_all is_ascii_digit text.now }
{
    text.iter().all(|byte| byte.is_ascii_digit())
}

fn begins_well(digits: &[u8]) -> bool
    ensures { result ≡ well_begun digits.now }
{
    match digits {
        [] => false,
        [_] => true,
        [first, ..] => *first != b'0',
    }
}
