//! What stands between the quotes of a text.

ghost use Rattle.std.specs.Prelude.{◌≡◌, length};
ghost use Rattle.std.specs.Option.{option_map};
ghost use Rattle.ax_lex.specs.Reading.{read_inside};

use crate::piece::split_piece;

/// The bytes after the quote that closes a text, from behind the one that opens it on.
pub(crate) fn after_inside(quote: u8, bytes: &[u8]) -> Option<&[u8]>
    ensures { option_map (λ after. after.now) result
        ≡ option_map (λ found. found.1) (read_inside quote (length bytes.now) bytes.now) }
{
    let mut rest = bytes;
    for _turn in 0..bytes.len() {
        let (&byte, after) = rest.split_first()?;
        if byte == quote {
            return Some(after);
        }
        let (_, after) = split_piece(rest)?;
        rest = after;
    }
    None
}
