// The names that rows of statements write.
use bits::Bits;
use ls_text::{Names, NoMemory};
use typed_ir::{Env, SignalId};
use width_rules::{Entry, Scope, SignalEntry, Writer};

// Each with its width in bits, the lower bound of its range, its sign and what may write it; its value is 0.
const VARIABLES: &[(&[u8], u8, u32, bool, Writer)] = &[
    (b"y", 16, 0, false, Writer::Combinational),
    (b"z", 8, 0, true, Writer::Combinational),
    (b"x", 8, 4, false, Writer::Combinational),
    (b"w", 16, 0, false, Writer::Continuous),
    (b"v", 8, 0, true, Writer::Continuous),
    (b"r", 16, 0, false, Writer::Clocked),
    (b"j", 8, 0, false, Writer::Nothing),
];

/// Declares them behind the names that are there; answers the place of their first value.
pub fn declare_variables(
    names: &mut Names,
    scope: &mut Scope,
    env: &mut Env,
) -> Result<usize, NoMemory> {
    let first = env.values.len();
    for (name, width, lsb, signed, writer) in VARIABLES {
        let id = names.intern(name)?;
        let width = (*width).clamp(1, 128);
        let entry = SignalEntry {
            signal: SignalId((env.values.len() % 4096) as u32),
            width,
            lsb: lsb % 1024,
            signed: *signed,
            writer: *writer,
        };
        scope.declare(id, Entry::Signal(entry))?;
        env.values.push(Bits::new(width, 0))?;
    }
    Ok(first)
}
