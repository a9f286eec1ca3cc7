// Conditions, one after the other.
ghost use Rattle.std.specs.Prelude.{◌≡◌, Some, None, if◌then◌else◌};
ghost use Rattle.std.specs.Option.{option_or};
ghost use Rattle.reg_transform.specs.Found.{name_of};
ghost use Rattle.reg_transform.specs.Greatest.{faults};

use crate::breach::Breach;
use crate::qualified_name::QualifiedName;

// The condition of the code, where the register breaks it.
pub fn broken(is_broken: bool, code: u8, shown: QualifiedName) -> Option<Breach>
    ensures { faults result ≡ (if is_broken then Some (record { code = code; shown = name_of shown }) else None) }
{
    if is_broken {
        Some(Breach { code, shown })
    } else {
        None
    }
}

// The first one that is broken.
pub fn first_of(one: Option<Breach>, other: Option<Breach>) -> Option<Breach>
    ensures { faults result ≡ option_or (faults one) (faults other) }
{
    match one {
        Some(breach) => Some(breach),
        None => other,
    }
}
