// The program: a script on standard input, its replies on standard output, files below the folder that it is run in.
#![tactic(auto)]

ghost use Rattle.std.specs.Prelude.{◌≡◌, ◌↔◌, ◌⊎◌};
ghost use Rattle.std.specs.declared.io.ErrorKind.TheVariants.{OutOfMemory};

use livesim::live_run;
use ls_port::{FileShelf, OpenGate, StdSink, StdSource};
use std::process::ExitCode;
use std::{env, io};

// The status where the words of the command line can't be had: 5 where memory ran out, else 2.
fn status_without_words(kind: io::ErrorKind) -> u8
    ensures memory { (result ≡ 5) ↔ (kind ≡ OutOfMemory) }
    ensures known { (result ≡ 2) ⊎ (result ≡ 5) }
{
    match kind {
        io::ErrorKind::OutOfMemory => 5,
        _ => 2,
    }
}

fn main(rt: HostRuntime) -> ExitCode {
    let args = match env::args(&rt) {
        Ok(args) => args,
        Err(e) => return ExitCode::from(status_without_words(e.kind())),
    };
    let mut words = Vec::new(rt.alloc());
    if words.extend(args).is_err() {
        return ExitCode::from(5);
    }
    let mut source = StdSource::new(rt.reader());
    let mut sink = StdSink::new(io::writer(&rt));
    let mut shelf = FileShelf::new(&rt);
    let outcome = live_run(
        &rt,
        rt.alloc(),
        &words,
        &mut source,
        &mut sink,
        &mut shelf,
        &OpenGate,
    );
    ExitCode::from(outcome.status)
}
