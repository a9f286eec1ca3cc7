// Digests of texts, and their text in hexadecimal.
ghost use Rattle.std.specs.Prelude.{◌≡◌, IfOk};
ghost use Rattle.std.specs.String.{string_bytes};
ghost use Rattle.sha2.specs.Sha256.{sha256};
ghost use Rattle.hex.specs.Hex.{encode_lower};

use ls_text::NoMemory;
use sha2::{Digest, Sha256};
use std::alloc::Global;

/// The SHA-256 digest of a text (FIPS 180-4).
pub fn digest(text: &[u8]) -> [u8; 32]
    ensures { result ≡ sha256 text.now }
{
    let mut hasher = Sha256::new();
    hasher.update(text);
    hasher.finalize()
}

/// A digest in 64 lower-case hexadecimal digits.
pub fn hex_digest(alloc: Global, digest: &[u8; 32]) -> Result<String, NoMemory>
    ensures { IfOk result (λ text. string_bytes text ≡ encode_lower digest.now) }
{
    Ok(hex::encode(alloc, digest.as_slice())?)
}
