// A history without entries, and histories that cross threads.
ghost use Rattle.std.specs.Prelude.{◌≡◌, []};

use book_history::history::History;
use book_history::rooms::Rooms;
use book_history::who::Who;
use machine::tally::TallyMachine;
use std::test::Fail;

fn crossed<T: Send>(value: T) -> T {
    value
}

#[test]
fn begins_empty(rt: HostRuntime) -> Result<(), Fail> {
    let rooms = Rooms {
        session: 1,
        workers: 1,
    };
    let history = crossed(History::<TallyMachine>::empty(rt.alloc(), 2, 1, rooms));
    assert_eq!(rt; history.entries().len(), 0);
    assert!(rt; Who::Session != Who::Worker(0));
    Ok(())
}
