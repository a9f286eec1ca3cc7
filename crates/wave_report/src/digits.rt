// Values and digests in hexadecimal.
ghost use Rattle.std.specs.Prelude.{◌≡◌, ◌≤◌, ◌++◌, OnOk};
ghost use Rattle.hex.specs.Hex.{encode_lower};
ghost use Rattle.wave_report.specs.Digits.{hex_text};

use hex::encode_to_slice;
use ls_text::NoMemory;

/// Adds a value in lower-case digits, one for each four bits of its width.
pub fn push_hex(text: &mut Vec<u8>, width: u8, value: u128) -> Result<(), NoMemory>
    requires { width ≤ 128 }
    ensures { OnOk result (text.new.items ≡ text.old.items ++ hex_text width value) }
{
    let mut digits = [0u8; 32];
    let _ = encode_to_slice(value.to_be_bytes().as_slice(), &mut digits);
    let count = (usize::from(width) + 3) / 4;
    text.extend_from_slice(&digits[32 - count..])?;
    Ok(())
}

/// Adds a digest in its 64 lower-case digits.
pub fn push_digest(text: &mut Vec<u8>, digest: &[u8; 32]) -> Result<(), NoMemory>
    ensures { OnOk result (text.new.items ≡ text.old.items ++ encode_lower digest.now) }
{
    let mut digits = [0u8; 64];
    let _ = encode_to_slice(digest.as_slice(), &mut digits);
    text.extend_from_slice(&digits)?;
    Ok(())
}
