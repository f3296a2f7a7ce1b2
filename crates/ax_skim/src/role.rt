//! What a byte of a canonical text does.

ghost use Rattle.std.specs.Prelude.{◌≡◌};
ghost use Rattle.ax_skim.specs.Roles.{role_of};

/// What a byte does, where it counts; inside a text only a quote and a backslash do.
#[derive(Clone, Copy)]
pub(crate) enum ByteRole {
    /// `"` begins a text, or ends the one that it stands in.
    Quote,
    /// `\`: the next byte of the text does nothing.
    Backslash,
    /// `{` or `[`: what follows is nested deeper.
    Opening,
    /// `}` or `]` ends what the opening one began.
    Closing,
    /// `,` ends an item or a member.
    Comma,
    /// Any other byte.
    Other,
}

#[inline]
#[tactic(auto, unfolding(crate::specs::Roles::role_of))]
pub(crate) fn role_of(byte: u8) -> ByteRole
    ensures { result ≡ role_of byte }
{
    match byte {
        b'"' => ByteRole::Quote,
        b'\\' => ByteRole::Backslash,
        b'{' | b'[' => ByteRole::Opening,
        b'}' | b']' => ByteRole::Closing,
        b',' => ByteRole::Comma,
        _ => ByteRole::Other,
    }
}
