ghost use Rattle.std.specs.Prelude.{◌≡◌, ◌++◌, IfSome, IfNone};
ghost use Rattle.ax_lines.specs.ScriptLines.{with_newline, IsOneLine};

use memchr::memchr;

/// The bytes before the first newline and those behind it; `None` exactly where there is no newline.
pub fn first_line(bytes: &[u8]) -> Option<(&[u8], &[u8])>
    ensures split { IfSome result (λ parts. bytes.now ≡ with_newline parts.0.now ++ parts.1.now) }
    ensures line { IfSome result (λ parts. IsOneLine parts.0.now) }
    ensures none { IfNone result (IsOneLine bytes.now) }
{
    match memchr(b'\n', bytes) {
        Some(at) => Some((&bytes[..at], &bytes[at + 1..])),
        None => None,
    }
}
