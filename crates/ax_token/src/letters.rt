//! Bytes in letters, and the bytes of letters.
ghost use Rattle.std.specs.Prelude.{◌≡◌, ℕ, List, IfOk, IfSome, IfNone};
ghost use Rattle.base64.specs.GeneralPurpose.{IsBytes};
ghost use Rattle.ax_token.specs.Words.{IsWordOfBytes, in_letters};

use crate::out_of_memory::Memory;
use base64::DecodeAllocError;
use base64::engine::general_purpose::URL_SAFE_NO_PAD;
use std::alloc::Global;

/// The word that is made of bytes.
#[tactic(auto, using(crate::proofs::InLetters::encoded))]
pub fn word_of(alloc: Global, bytes: &[u8]) -> Result<Vec<u8>, Memory>
    ensures spelled { IfOk result (λ word. word.items ≡ in_letters bytes.now) }
    ensures fit { IfOk result (λ word. IsBytes bytes.now) }
{
    let word = URL_SAFE_NO_PAD.encode(alloc, bytes)?;
    Ok(word.into_bytes())
}

/// The bytes that a word is made of; `None` exactly where it is made of none.
#[tactic(auto, using(crate::proofs::InLetters::strict, crate::proofs::InLetters::encoded, crate::proofs::InLetters::no_bytes_told))]
pub fn bytes_of(alloc: Global, word: &[u8]) -> Result<Option<Vec<u8>>, Memory>
    ensures found { IfOk result (λ bytes. IfSome bytes (λ b. word.now ≡ in_letters b.items)) }
    ensures fit { IfOk result (λ bytes. IfSome bytes (λ b. IsBytes b.items)) }
    ensures none { IfOk result (λ bytes. IfNone bytes ((b : List ℕ) → IsWordOfBytes b word.now → ⊥)) }
{
    match URL_SAFE_NO_PAD.decode(alloc, word) {
        Ok(bytes) => Ok(Some(bytes)),
        Err(DecodeAllocError::DecodeError(_)) => Ok(None),
        Err(DecodeAllocError::OutOfMemory) => Err(Memory),
    }
}
