// Displays, rows and pages, read by hand.
use script_lines::displays::last_settled;
use script_lines::example::Example;
use script_lines::page::{agrees, example_of, has, row_of};
use script_lines::row::are_of_every_schedule;
use std::test::Fail;

// The registers of the last display, where that is settled: the replies, and the lines of these.
#[test]
fn displays_that_are_settled(rt: HostRuntime) -> Result<(), Fail> {
    let alloc = rt.alloc();
    let settled =
        "show cycle=1 estimate v=2 settled_to=0\na.r 00\nsettled cycle=1 v=2\nshow cycle=1 settled v=2\na.r 01\nb.s 1\nok quit\n";
    let lines = last_settled(alloc, settled)?;
    assert!(rt; lines == Some(vec![in alloc; "a.r 01", "b.s 1"]?));
    let none = "show cycle=1 settled v=1\nok run cycle=2\n";
    assert!(rt; last_settled(alloc, none)? == Some(Vec::new(alloc)));
    let estimate =
        "show cycle=1 settled v=1\na.r 01\nshow cycle=1 estimate v=2 settled_to=0\na.r 00\n";
    assert!(rt; last_settled(alloc, estimate)? == None);
    assert!(rt; last_settled(alloc, "ok run cycle=2\n")? == None);
    Ok(())
}

const PAGE: &str =
    "| code | comes for | examples | mend by |\n|---|---|---|---|\n| 13 BadToken | a byte that begins no token | a/one; a/two: `refused 13 BadToken a.v:1:1` | leave it out |\n";

// A row of the page with two examples, of which the second tells its line; the head of the table is no row.
#[test]
fn rows_of_a_page(rt: HostRuntime) -> Result<(), Fail> {
    let alloc = rt.alloc();
    let mut found = Vec::new(alloc);
    for line in PAGE.lines() {
        if let Some(entry) = row_of(line) {
            found.push((entry.fault, entry.examples))?;
        }
    }
    let examples = "a/one; a/two: `refused 13 BadToken a.v:1:1`";
    assert!(rt; found == vec![in alloc; ("13 BadToken", examples)]?);
    let parts = ["a/one", "a/two: `refused 13 BadToken a.v:1:1`", "(a test)"];
    let wanted = [
        Some(("a/one", None)),
        Some(("a/two", Some("refused 13 BadToken a.v:1:1"))),
        None,
    ];
    for (part, want) in parts.iter().zip(wanted.iter()) {
        let example = example_of(part);
        assert!(rt; example.map(|e| (e.script, e.line)) == *want);
    }
    Ok(())
}

// A line that shows a fault is on the page, one with another code or name isn't; and what is written agrees with an example where it shows the
// fault, by just the line that the example tells.
#[test]
fn lines_and_pages_agree(rt: HostRuntime) -> Result<(), Fail> {
    assert!(rt; has(PAGE, "refused 13 BadToken a.v:9:9"));
    assert!(rt; !has(PAGE, "refused 13 BadTokens a.v:9:9"));
    assert!(rt; !has(PAGE, "refused 3 BadToken a.v:9:9"));
    assert!(rt; !has(PAGE, "ok 13 BadToken a.v:9:9"));
    let written = "ok edit v=1\nrefused 13 BadToken a.v:1:1\n";
    let rows = [
        ("13 BadToken", None, true),
        ("13 BadToken", Some("refused 13 BadToken a.v:1:1"), true),
        ("13 BadToken", Some("refused 13 BadToken a.v:1:2"), false),
        ("15 Syntax", None, false),
    ];
    for (fault, line, want) in rows.iter() {
        let example = Example {
            script: "a/one",
            line: *line,
        };
        assert_eq!(rt; agrees(written, fault, &example), *want);
    }
    Ok(())
}

// An estimate, and a settle that ended before all was settled, depend on the schedule; other lines don't.
#[test]
fn lines_of_every_schedule(rt: HostRuntime) -> Result<(), Fail> {
    let settled = "show cycle=1 settled v=2\na.r 01\nsettled cycle=1 v=2\nok quit\n";
    assert!(rt; are_of_every_schedule(settled));
    assert!(rt; !are_of_every_schedule("ok quit\nunsettled cycle=1 v=2 settled_to=0\n"));
    assert!(rt; !are_of_every_schedule("show cycle=1 estimate v=2 settled_to=0\n"));
    Ok(())
}
