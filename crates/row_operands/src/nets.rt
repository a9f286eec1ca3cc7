// The names that rows of sizes and of statements speak of.
ghost use Rattle.std.specs.Prelude.{◌≤◌};

use bits::Bits;
use ls_text::{Names, NoMemory};
use std::alloc::Global;
use typed_ir::{Const, Env, SignalId};
use width_rules::{Entry, Scope, SignalEntry, Writer};

// Nets: each with its width in bits, the lower bound of its range, its sign and its value.
const NETS: &[(&[u8], u8, u32, bool, u128)] = &[
    (b"a", 8, 0, false, 0xc5),
    (b"b", 8, 0, true, 0xf9),
    (b"c", 4, 0, false, 9),
    (b"d", 16, 0, true, 0x8123),
    (b"e", 1, 0, false, 1),
    (b"f", 33, 0, false, 0x1_0000_0005),
    (b"g", 64, 0, true, 0xfedc_ba98_7654_3210),
    (b"h", 12, 4, false, 0xabc),
    (b"k", 5, 0, true, 0x15),
    (b"m", 100, 0, false, 0x9_1234_5678_9abc_def0_1234_5678),
    (b"n", 3, 0, false, 5),
    (b"s", 1, 0, true, 1),
];

// Constants: each with its width in bits, its sign and its value.
const CONSTANTS: &[(&[u8], u8, bool, u128)] = &[
    (b"T", 32, true, 3),
    (b"P", 32, true, 0),
    (b"Q", 32, true, 0xffff_ffff),
    (b"R", 32, true, 129),
    (b"U", 8, false, 5),
];

// A width of 1 to 128 bits.
fn width_of(width: u8) -> u8
    ensures least { 1 ≤ result }
    ensures most { result ≤ 128 }
{
    width.clamp(1, 128)
}

fn declare_constants(scope: &mut Scope, names: &mut Names) -> Result<(), NoMemory> {
    for (name, width, signed, value) in CONSTANTS {
        let id = names.intern(name)?;
        let bits = Bits::new(width_of(*width), *value);
        scope.declare(
            id,
            Entry::Constant(Const {
                bits,
                signed: *signed,
            }),
        )?;
    }
    let genvar = names.intern(b"i")?;
    scope.declare(genvar, Entry::Genvar)?;
    let label = names.intern(b"l")?;
    scope.declare(label, Entry::Unknown)
}

/// The names in reach, and the values of the nets among them.
pub fn operands(alloc: Global, names: &mut Names) -> Result<(Scope, Env), NoMemory> {
    let mut scope = Scope::new(alloc);
    let mut values = Vec::new(alloc);
    let mut signal = 0u32;
    for (name, width, lsb, signed, value) in NETS {
        let id = names.intern(name)?;
        let width = width_of(*width);
        let entry = SignalEntry {
            signal: SignalId(signal),
            width,
            lsb: lsb % 1024,
            signed: *signed,
            writer: Writer::Continuous,
        };
        scope.declare(id, Entry::Signal(entry))?;
        values.push(Bits::new(width, *value))?;
        signal = signal.saturating_add(1);
    }
    declare_constants(&mut scope, names)?;
    Ok((scope, Env { values }))
}
