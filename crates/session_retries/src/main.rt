// Asks a session command after command, and the same again where memory runs out in one: a session goes on behind that.
//
// `rows` are the commands (`row`), each with its reply and what `status` and `show` answer behind it. `asking` asks one, and looks where the session stands
// where it has no reply; `running` asks all, over a shelf that has no memory once (`dry_shelf`), and has the history looked at.
//
// A line is written for each run: by its number that load wants memory, and none in the last one. What isn't right is named. The status is 5 where memory runs out outside of a
// command, 10 where it does in one by more than a load, 11 where a load that wants memory wasn't told as that, and 0 elsewhere.
#![tactic(auto)]

mod asking;
mod dry_shelf;
mod row;
mod rows;
mod running;

use crate::rows::LOADS;
use crate::running::run;
use std::process::ExitCode;

// Writes what isn't right in the run of this number: whether it could be written.
fn tell(rt: &HostRuntime, number: u64, wrong: Option<&'static [u8]>) -> bool {
    let told = match wrong {
        None => println!(rt; "run {number}: all is right"),
        Some(command) => {
            let text = str::from_utf8(command).unwrap_or("");
            println!(rt; "run {number}: not right is {text}")
        }
    };
    told.is_ok()
}

fn main(rt: HostRuntime) -> ExitCode {
    let mut refusals = 0u64;
    for load in 0..LOADS + 1 {
        match run(&rt, rt.alloc(), load, &mut refusals) {
            Ok(wrong) => {
                if !tell(&rt, load, wrong) {
                    return ExitCode::from(5);
                }
            }
            Err(_) => return ExitCode::from(5),
        }
    }
    let status: u8 = if refusals > LOADS {
        10
    } else if refusals < LOADS {
        11
    } else {
        0
    };
    ExitCode::from(status)
}
