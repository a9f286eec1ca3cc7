// That the words of a command line ask for these options.
use live_options::{Options, read_options};
use ls_text::NoMemory;
use std::alloc::Global;
use std::test::Fail;

// What a line of words asks for, in which one space stands between two words.
fn read(alloc: Global, line: &str) -> Result<Option<Options>, NoMemory> {
    let mut words = Vec::new(alloc);
    for word in line.split(' ') {
        words.push(String::from_str(alloc, word)?)?;
    }
    read_options(alloc, words.as_slice())
}

fn options(workers: u8, interval: u64, lookback: u64) -> Option<Options> {
    Some(Options {
        workers,
        interval,
        lookback,
        load: None,
    })
}

// The defaults, with a made script of so many stages.
fn made(stages: u32) -> Option<Options> {
    Some(Options {
        workers: 2,
        interval: 10_000,
        lookback: 10_000,
        load: Some(stages),
    })
}

#[test]
fn no_words_ask_for_nothing(rt: HostRuntime) -> Result<(), Fail> {
    let words: Vec<String> = Vec::new(rt.alloc());
    assert!(rt; read_options(rt.alloc(), words.as_slice())? == None);
    Ok(())
}

#[test]
fn words_ask_for_options(rt: HostRuntime) -> Result<(), Fail> {
    let rows = [
        ("livesim", options(2, 10_000, 10_000)),
        ("any", options(2, 10_000, 10_000)),
        ("livesim --", options(2, 10_000, 10_000)),
        ("livesim --workers 0", options(0, 10_000, 10_000)),
        ("livesim --workers 64", options(64, 10_000, 10_000)),
        ("livesim --workers=7", options(7, 10_000, 10_000)),
        (
            "livesim --workers 0000000000003",
            options(3, 10_000, 10_000),
        ),
        ("livesim --interval 1", options(2, 1, 10_000)),
        (
            "livesim --interval 1000000000",
            options(2, 1_000_000_000, 10_000),
        ),
        ("livesim --lookback 0", options(2, 10_000, 0)),
        (
            "livesim --lookback 1099511627776",
            options(2, 10_000, 1_099_511_627_776),
        ),
        (
            "livesim --lookback=5 --workers 1 --interval=20 --",
            options(1, 20, 5),
        ),
        ("livesim --load 4", made(4)),
        ("livesim --load=1", made(1)),
        ("livesim --load 0000000004096", made(4096)),
        (
            "livesim --interval 2 --workers 0 --lookback 1",
            options(0, 2, 1),
        ),
    ];
    for (line, wanted) in rows {
        assert!(rt; read(rt.alloc(), line)? == wanted, "{line}");
    }
    Ok(())
}

#[test]
fn faulty_words_ask_for_nothing(rt: HostRuntime) -> Result<(), Fail> {
    let rows = [
        // out of bounds
        "livesim --workers 65",
        "livesim --interval 0",
        "livesim --interval=0",
        "livesim --interval 1000000001",
        "livesim --lookback 1099511627777",
        "livesim --workers 9999999999999",
        "livesim --load 0",
        "livesim --load 4097",
        // no 1 to 13 digits
        "livesim --workers 00000000000003",
        "livesim --workers +3",
        "livesim --workers -3",
        "livesim --workers=-3",
        "livesim --workers 0x3",
        "livesim --workers 3a",
        "livesim --workers ",
        "livesim --workers=",
        "livesim --workers \u{663}",
        // repeated
        "livesim --workers 1 --workers 1",
        "livesim --workers=1 --interval 5 --workers=2",
        // without a value
        "livesim --workers",
        "livesim --lookback --workers 1",
        "livesim --load",
        "livesim --workers --",
        // unknown
        "livesim --help",
        "livesim -h",
        "livesim --version",
        "livesim -V",
        "livesim --worker 1",
        "livesim -workers 1",
        "livesim --Workers 1",
        "livesim -w 1",
        "livesim help",
        "livesim 3",
        "livesim ",
        "livesim -",
        "livesim -- 3",
        "livesim -- --",
        "livesim -- --workers 3",
        "livesim --workers 3 4",
    ];
    for line in rows {
        assert!(rt; read(rt.alloc(), line)? == None, "{line}");
    }
    Ok(())
}
