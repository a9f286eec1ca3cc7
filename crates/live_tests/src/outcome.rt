// What a test asks of each run.
use crate::ran::Ran;
use crate::replay::Replay;
use crate::running::replayed;
use crate::scripts::joined;
use std::alloc::Global;
use std::process::Abort;
use std::test::Fail;

/// The run ended so and wrote the lines of these parts. The plain replay takes its history, in which version n adds the n-th number, and ends with the
/// book closed and no ticket out.
pub fn right<R: Abort>(
    rt: &R,
    alloc: Global,
    ran: &Ran,
    status: u8,
    lines: &[&[u8]],
    adds: &[u8],
) -> Result<Replay, Fail> {
    let wanted = joined(alloc, lines)?;
    assert_eq!(rt; ran.status, status);
    assert!(rt; ran.lines.as_slice() == wanted.as_slice());
    let Some(replay) = replayed(alloc, ran, Vec::from_slice(alloc, adds)?)? else {
        return Err("the history isn't right")?;
    };
    assert!(rt; replay.is_over());
    Ok(replay)
}
