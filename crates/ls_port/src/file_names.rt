// Which names of files stay below a folder.
ghost use Rattle.std.specs.Prelude.{◌≡◌};
ghost use Rattle.ls_port.specs.FileNames.{has_way_up, stays_below};

use ls_text::{byte_at, is_file_name};

// Whether one of the parts that slashes set apart is `..`.
fn has_way_up(name: &[u8]) -> bool
    ensures { result ≡ has_way_up name.now }
{
    name.split(|b| *b == b'/')
        .any(|part| part == b"..".as_slice())
}

/// Whether a name leads to something below the folder from which it is followed: the form of a file's name, without a slash at its front
/// and without a part `..`. What links in the folder lead to is not looked at.
#[tactic(auto, unfolding(crate::specs::FileNames::stays_below))]
pub fn stays_below(name: &[u8]) -> bool
    ensures { result ≡ stays_below name.now }
{
    is_file_name(name) && byte_at(name, 0) != b'/' && !has_way_up(name)
}
