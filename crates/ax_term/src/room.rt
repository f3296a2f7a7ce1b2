//! Bytes that are put down in room that was taken before, so that nothing fails halfway.
ghost use Rattle.std.specs.Prelude.{◌≡◌, [], ◌∷◌, ◌+◌, ◌*◌, ◌≤◌, ◌++◌, length, take, drop, vec_len, vec_capacity};
ghost use Rattle.ax_term.specs.TermBytes.{escaped, complemented};

/// Appends the bytes, with each 00 as 00 FF.
#[tactic(auto, using(crate::proofs::Escaped::first_escaped))]
pub(crate) fn put_escaped(out: &mut Vec<u8>, bytes: &[u8])
    requires room { vec_len out.old + 2 * length bytes.now ≤ vec_capacity out.old }
    ensures items { out.new.items ≡ out.old.items ++ escaped bytes.now }
    ensures len { vec_len out.new ≤ vec_len out.old + 2 * length bytes.now }
    ensures capacity { vec_capacity out.new ≡ vec_capacity out.old }
{
    for byte in bytes {
        put_byte(out, *byte);
    }
}

/// Appends the byte, and FF behind a 00.
fn put_byte(out: &mut Vec<u8>, byte: u8)
    requires room { vec_len out.old + 2 ≤ vec_capacity out.old }
    ensures items { out.new.items ≡ out.old.items ++ escaped (byte ∷ []) }
    ensures len { vec_len out.new ≤ vec_len out.old + 2 }
    ensures capacity { vec_capacity out.new ≡ vec_capacity out.old }
{
    out.push_reserved(byte);
    if byte == 0 {
        out.push_reserved(0xFF);
    }
}

/// Complements each byte from `from` on.
#[tactic(auto, using(crate::proofs::Complemented::one_more))]
pub(crate) fn complement(out: &mut Vec<u8>, from: usize)
    requires { from ≤ vec_len out.old }
    ensures { out.new.items ≡ take from out.old.items ++ complemented (drop from out.old.items) }
{
    for byte in &mut out[from..] {
        *byte = 0xFF - *byte;
    }
}
