// Settings in the order of their names.
ghost use Rattle.std.specs.Prelude.{◌≡◌, ◌==◌, ◌&&◌, IfOk, IfErr};
ghost use Rattle.stimulus.specs.Places.{IsAt, IsGapFor};
ghost use Rattle.stimulus.specs.Rows.{AreAscending, are_same};
ghost use Rattle.stimulus.specs.Settings.{pairs_of};

use crate::setting::Setting;
use ls_text::NameId;

/// Where the name stands, or else where it would go. It is found by halving.
pub fn place_of(settings: &[Setting], name: NameId) -> Result<usize, usize>
    requires { AreAscending (pairs_of settings.now) }
    ensures found { IfOk result (IsAt (pairs_of settings.now) name.0) }
    ensures absent { IfErr result (IsGapFor (pairs_of settings.now) name.0) }
{
    settings.binary_search_by_key(&name.0, |setting| setting.name.0)
}

// Whether two settings are the same.
fn same_setting(one: Setting, other: Setting) -> bool
    ensures { result ≡ ((one.name.0 == other.name.0) && (one.value == other.value)) }
{
    one.name == other.name && one.value == other.value
}

/// Whether the same names are set to the same values.
pub fn are_equal(one: &[Setting], other: &[Setting]) -> bool
    ensures { result ≡ are_same (pairs_of one.now) (pairs_of other.now) }
{
    if one.len() != other.len() {
        return false;
    }
    for i in 0..one.len() {
        if !same_setting(one[i], other[i]) {
            return false;
        }
    }
    true
}
