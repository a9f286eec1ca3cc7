// A register of 65 bits and one of 1 bit, put together by hand; and the limit.
ghost use Rattle.std.specs.Prelude.{◌≡◌, ◌≤◌, ◌∷◌, [], IfOk};
ghost use Rattle.std.specs.Arc.{arc_value};

use bits::Bits;
use ls_text::{NameId, NoMemory, Refusal};
use state_layout::{Layout, SlotState, laid_out};
use std::alloc::Global;
use std::sync::Arc;
use std::test::Fail;
use typed_ir::{InstanceId, RegisterId, Signal, SignalId};

/// A register of so many bits.
fn register(width: u8) -> Signal
    requires at_least_one { 1 ≤ width }
    requires at_most_128 { width ≤ 128 }
    ensures { result.width ≡ width }
{
    Signal {
        in_module: NameId(0),
        instance: InstanceId(0),
        name: NameId(0),
        lsb: 0,
        signed: false,
        width,
        initial: 0,
    }
}

/// A register of 65 bits, and one of 1 bit.
fn two_registers(alloc: Global) -> Result<Arc<Layout, Global>, Refusal>
    ensures { IfOk result (λ l. arc_value l ≡ 65 ∷ 1 ∷ []) }
{
    let signals = [register(65), register(1)];
    let layout = laid_out(alloc, &signals, &[SignalId(0), SignalId(1)])?;
    Ok(Arc::new(alloc, layout)?)
}

/// Both values, once the first is written in a state of zeros, and once the second is written then in a share of it.
fn written(alloc: Global, layout: &Arc<Layout, Global>) -> Result<([u128; 4], bool), NoMemory>
    requires { arc_value layout.now ≡ 65 ∷ 1 ∷ [] }
{
    let mut one = SlotState::zeros(alloc, layout)?;
    one.write(RegisterId(0), Bits::new(65, (1 << 64) + 5))?;
    let mut other = one.share()?;
    other.write(RegisterId(1), Bits::new(1, 1))?;
    Ok((
        [
            one.read(RegisterId(0)).value,
            one.read(RegisterId(1)).value,
            other.read(RegisterId(0)).value,
            other.read(RegisterId(1)).value,
        ],
        one.same(&other),
    ))
}

/// Both values of a state that is filled with them.
fn filled(alloc: Global, layout: &Arc<Layout, Global>) -> Result<[u128; 2], NoMemory>
    requires { arc_value layout.now ≡ 65 ∷ 1 ∷ [] }
{
    let values = [Bits::new(65, 1 << 64), Bits::new(1, 1)];
    let state = SlotState::filled(alloc, layout, &values)?;
    Ok([
        state.read(RegisterId(0)).value,
        state.read(RegisterId(1)).value,
    ])
}

/// The first words of both slots and the number of words.
fn words(layout: &Layout) -> [u32; 3]
    requires { layout.now ≡ 65 ∷ 1 ∷ [] }
{
    [
        layout.slot(RegisterId(0)).first,
        layout.slot(RegisterId(1)).first,
        layout.words(),
    ]
}

/// Whether so many registers of a width have room.
#[tactic(auto, using(crate::proofs::Firsts::firsts_below))]
fn have_room(alloc: Global, width: u8, count: usize) -> Result<bool, NoMemory>
    requires at_least_one { 1 ≤ width }
    requires at_most_128 { width ≤ 128 }
{
    let registers = vec![in alloc; SignalId(0); count]?;
    Ok(laid_out(alloc, &[register(width)], &registers).is_ok())
}

fn crossed<T: Send + Sync>(value: T) -> T {
    value
}

#[test]
fn states_by_hand(rt: HostRuntime) -> Result<(), Fail> {
    let alloc = rt.alloc();
    let layout = two_registers(alloc)?;
    let five = (1 << 64) + 5;
    assert_eq!(rt; words(&layout), [0, 2, 3]);
    assert_eq!(rt; written(alloc, &layout)?, ([five, 0, five, 1], false));
    assert_eq!(rt; filled(alloc, &layout)?, [1 << 64, 1]);
    Ok(())
}

#[test]
fn limit_by_hand(rt: HostRuntime) -> Result<(), Fail> {
    let alloc = rt.alloc();
    assert!(rt; have_room(alloc, 64, 65_536)?);
    assert!(rt; !have_room(alloc, 64, 65_537)?);
    assert!(rt; have_room(alloc, 65, 32_768)?);
    assert!(rt; !have_room(alloc, 65, 32_769)?);
    Ok(())
}

/// States may go to another thread and be read there.
#[test]
fn cross_threads(rt: HostRuntime) -> Result<(), Fail> {
    let layout = two_registers(rt.alloc())?;
    let state = crossed(SlotState::zeros(rt.alloc(), &layout)?);
    assert_eq!(rt; state.len(), 2);
    Ok(())
}
