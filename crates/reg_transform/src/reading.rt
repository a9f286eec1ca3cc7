// Registers one by one.
ghost use Rattle.std.specs.Prelude.{◌≡◌, ◌<◌, ℕ, List, Some, length, slice_index, slice_get};
ghost use Rattle.typed_ir.specs.Paths.{paths_of};
ghost use Rattle.reg_transform.specs.Beginnings.{initials_in};
ghost use Rattle.reg_transform.specs.Found.{name_of};
ghost use Rattle.reg_transform.specs.Numbers.{numbers_in};
ghost use Rattle.reg_transform.specs.Registers.{called};
ghost use Rattle.reg_transform.specs.Regs.{register_of, registers_in};

use crate::qualified_name::QualifiedName;
use crate::register_key::RegisterKey;
use crate::regs::Regs;
use typed_ir::Signal;

/// The signal of the register at a place, counted from 0 in their order.
pub fn signal_at<'a>(regs: &Regs<'a>, place: usize) -> &'a Signal
    requires { place < length regs.now.registers.now }
    ensures register { slice_get (registers_in regs.now) place ≡ Some (register_of (paths_of regs.now.instances.now.rows.items) result.now) }
    ensures number { (numbers : List ℕ) → slice_get (numbers_in numbers regs.now) place ≡ Some (slice_index numbers result.now.instance) }
    ensures initial { slice_get (initials_in regs.now) place ≡ Some result.now.initial }
    ensures there { result.now.instance < length regs.now.instances.now.rows.items }
{
    let register = regs.registers[place].index();
    &regs.signals[register]
}

// The name of a register.
pub fn name_at(signal: &Signal) -> QualifiedName
    ensures { (paths : List (List ℕ)) → name_of result ≡ called (register_of paths signal.now) }
{
    QualifiedName {
        in_module: signal.in_module,
        name: signal.name,
    }
}

// The key of a register, where these are the numbers of the instances' paths.
pub fn key_at(numbers: &[usize], signal: &Signal) -> RegisterKey
    requires { signal.now.instance < length numbers.now }
    ensures number { result.instance ≡ slice_index numbers.now signal.now.instance }
    ensures called { (paths : List (List ℕ)) → name_of result.called ≡ called (register_of paths signal.now) }
{
    let place = signal.instance.index();
    RegisterKey {
        instance: numbers[place],
        called: name_at(signal),
    }
}
