// Which texts have the form of a file's name.
ghost use Rattle.std.specs.Prelude.{◌≡◌};
ghost use Rattle.std.specs.List.{list_all};
ghost use Rattle.ls_text.specs.Bytes.{is_file_byte};
ghost use Rattle.ls_text.specs.FileNames.{is_file_name};

use crate::bytes::is_file_byte;

fn has_file_bytes(name: &[u8]) -> bool
    ensures { result ≡ list_all is_file_byte name.now }
{
    name.iter().all(|b| is_file_byte(*b))
}

/// Whether a text has the form of a file's name: 1 to 255 letters, digits, `_`, `-`, `.` and `/`.
#[tactic(auto, unfolding(crate::specs::FileNames::is_file_name))]
pub fn is_file_name(name: &[u8]) -> bool
    ensures { result ≡ is_file_name name.now }
{
    1 <= name.len() && name.len() <= 255 && has_file_bytes(name)
}
