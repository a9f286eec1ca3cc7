// The lines of each kind of reply, written by hand.
use ls_text::{NoMemory, TextBytes};
use std::alloc::Global;
use std::process::Abort;
use std::test::Fail;
use wave_report::{ReplyKind, UnitLine, UnitLines, reply_line};

// A unit of this name, whose digest begins with this byte and is 255 for the rest.
fn unit(alloc: Global, name: &[u8], first: u8) -> Result<UnitLine, NoMemory> {
    let mut digest = [255u8; 32];
    digest[0] = first;
    Ok(UnitLine {
        module: TextBytes::new(Vec::from_slice(alloc, name)?),
        digest,
    })
}

fn status(alloc: Global) -> Result<ReplyKind, NoMemory> {
    let mut lines = Vec::new(alloc);
    lines.push(unit(alloc, b"top", 0)?)?;
    lines.push(unit(alloc, b"counter", 171)?)?;
    Ok(ReplyKind::Status {
        version: 3,
        cycle: 1_099_511_627_776,
        marks: 1024,
        units: UnitLines::new(lines),
    })
}

// Each of these replies has the line beside it.
fn have_lines(rt: &impl Abort, alloc: Global, rows: &[(ReplyKind, &str)]) -> Result<(), Fail> {
    for (kind, line) in rows {
        assert_eq!(rt; reply_line(alloc, kind)?.as_slice(), line.as_bytes());
    }
    Ok(())
}

#[test]
fn commands(rt: HostRuntime) -> Result<(), Fail> {
    let edit = ReplyKind::Edit {
        version: 12,
        built: 3,
        kept: 1022,
        from: 48_000,
    };
    let rows = [
        (edit, "ok edit v=12 built=3 kept=1022 from=48000\n"),
        (ReplyKind::Set, "ok set\n"),
        (ReplyKind::Run { cycle: 0 }, "ok run cycle=0\n"),
        (ReplyKind::Quit, "ok quit\n"),
    ];
    have_lines(&rt, rt.alloc(), &rows)
}

#[test]
fn displays(rt: HostRuntime) -> Result<(), Fail> {
    let cycle = 25;
    let version = 2;
    let estimate = ReplyKind::ShowEstimate {
        cycle,
        version,
        settled_to: 10,
    };
    let unsettled = ReplyKind::Unsettled { settled_to: 20 };
    let rows = [
        (
            ReplyKind::ShowSettled { cycle, version },
            "show cycle=25 settled v=2\n",
        ),
        (estimate, "show cycle=25 estimate v=2 settled_to=10\n"),
        (
            ReplyKind::Settled { cycle, version },
            "settled cycle=25 v=2\n",
        ),
        (unsettled, "unsettled settled_to=20\n"),
    ];
    have_lines(&rt, rt.alloc(), &rows)
}

const STATUS: &str = "status v=3 cycle=1099511627776 marks=1024 units=2\n\
    unit top 00ffffffffffffffffffffffffffffffffffffffffffffffffffffffffffffff\n\
    unit counter abffffffffffffffffffffffffffffffffffffffffffffffffffffffffffffff\n";

#[test]
fn units(rt: HostRuntime) -> Result<(), Fail> {
    let kind = status(rt.alloc())?;
    assert_eq!(rt;
        reply_line(rt.alloc(), &kind)?.as_slice(),
        STATUS.as_bytes()
    );
    Ok(())
}
