// That the shelves give what they hold, in the order of the calls, and that no name leaves the folder.
use ls_port::{
    FileShelf, MemShelf, NamedText, Shelf, ShelfAnswer, ShelfRefusal, SolidShelf, stays_below,
    whole_text,
};
use ls_text::TextBytes;
use std::alloc::{AllocError, Global};
use std::test::Fail;
use std::{fs, io};

const FOLDER: &str = "command_tests_shelf";

fn named(alloc: Global, name: &[u8], text: &[u8]) -> Result<NamedText, AllocError> {
    Ok(NamedText {
        name: TextBytes::new(Vec::from_slice(alloc, name)?),
        text: TextBytes::new(Vec::from_slice(alloc, text)?),
    })
}

fn two_texts(alloc: Global) -> Result<Vec<NamedText>, AllocError> {
    let mut texts = Vec::new(alloc);
    texts.push(named(alloc, b"a.v", b"one")?)?;
    texts.push(named(alloc, b"b.v", b"two\r\n")?)?;
    texts.push(named(alloc, b"a.v", b"three")?)?;
    Ok(texts)
}

fn gives<F: Shelf>(shelf: &mut F, alloc: Global, name: &[u8], text: &[u8]) -> bool {
    match shelf.read(alloc, name) {
        Ok(given) => given.as_slice() == text,
        Err(_) => false,
    }
}

fn fails<F: Shelf>(shelf: &mut F, alloc: Global, name: &[u8]) -> bool {
    match shelf.read(alloc, name) {
        Ok(_) => false,
        Err(refusal) => refusal == ShelfRefusal::Failed,
    }
}

// How many bytes a read gives.
fn given_len<F: Shelf>(shelf: &mut F, alloc: Global, name: &[u8]) -> usize {
    match shelf.read(alloc, name) {
        Ok(given) => given.len(),
        Err(_) => 0,
    }
}

fn was_given(answer: &ShelfAnswer, name: &[u8], text: &[u8]) -> bool {
    match answer {
        ShelfAnswer::Given(asked, given) => asked.bytes() == name && given.bytes() == text,
        ShelfAnswer::Failed(_) => false,
    }
}

fn has_failed(answer: &ShelfAnswer, name: &[u8]) -> bool {
    match answer {
        ShelfAnswer::Given(_, _) => false,
        ShelfAnswer::Failed(asked) => asked.bytes() == name,
    }
}

#[test]
fn a_shelf_in_memory_fails_at_the_calls_that_are_told(rt: HostRuntime) -> Result<(), Fail> {
    let alloc = rt.alloc();
    let mut shelf = MemShelf::new(alloc, two_texts(alloc)?, vec![in alloc; 1, 4]?);
    assert!(rt; gives(&mut shelf, alloc, b"a.v", b"one"));
    assert!(rt; fails(&mut shelf, alloc, b"a.v"));
    assert!(rt; fails(&mut shelf, alloc, b"c.v"));
    assert!(rt; gives(&mut shelf, alloc, b"b.v", b"two\r\n"));
    assert!(rt; fails(&mut shelf, alloc, b"c.v"));
    let answers = shelf.answers();
    assert!(rt; answers.len() == 5);
    assert!(rt; was_given(&answers[0], b"a.v", b"one"));
    assert!(rt; has_failed(&answers[1], b"a.v"));
    assert!(rt; has_failed(&answers[2], b"c.v"));
    assert!(rt; was_given(&answers[3], b"b.v", b"two\r\n"));
    Ok(())
}

#[test]
fn a_solid_shelf_fails_at_a_name_that_it_lacks(rt: HostRuntime) -> Result<(), Fail> {
    let alloc = rt.alloc();
    let mut texts = two_texts(alloc)?;
    let long = vec![in alloc; b'x'; 4_194_306]?;
    texts.push(named(alloc, b"long.v", &long)?)?;
    let mut shelf = SolidShelf::new(alloc, texts);
    assert!(rt; gives(&mut shelf, alloc, b"a.v", b"one"));
    assert!(rt; fails(&mut shelf, alloc, b"a"));
    assert!(rt; given_len(&mut shelf, alloc, b"long.v") == 4_194_305);
    assert!(rt; shelf.answers().len() == 3);
    assert!(rt; has_failed(&shelf.answers()[1], b"a"));
    Ok(())
}

#[test]
fn files_are_read_below_the_folder(rt: HostRuntime) -> Result<(), Fail> {
    let alloc = rt.alloc();
    let _ = fs::remove_dir_all(&rt, FOLDER);
    fs::create_dir(&rt, FOLDER)?;
    fs::write(&rt, "command_tests_shelf/a.v", b"one\r\n".as_slice())?;
    let mut long = vec![in alloc; b'x'; 4_194_306]?;
    fs::write(&rt, "command_tests_shelf/cut.v", long.as_slice())?;
    long.truncate(4_194_305);
    fs::write(&rt, "command_tests_shelf/above.v", long.as_slice())?;
    long.truncate(4_194_304);
    fs::write(&rt, "command_tests_shelf/most.v", long.as_slice())?;
    let mut shelf = FileShelf::new(&rt);
    assert!(rt; gives(&mut shelf, alloc, b"command_tests_shelf/a.v", b"one\r\n"));
    assert!(rt; gives(&mut shelf, alloc, b"./command_tests_shelf//a.v", b"one\r\n"));
    assert!(rt; given_len(&mut shelf, alloc, b"command_tests_shelf/most.v") == 4_194_304);
    assert!(rt; given_len(&mut shelf, alloc, b"command_tests_shelf/above.v") == 4_194_305);
    assert!(rt; given_len(&mut shelf, alloc, b"command_tests_shelf/cut.v") == 4_194_305);
    // not there; a folder; back into the folder by a way up; a file of the host
    assert!(rt; fails(&mut shelf, alloc, b"command_tests_shelf/b.v"));
    assert!(rt; fails(&mut shelf, alloc, b"command_tests_shelf"));
    assert!(rt;
        fails(
            &mut shelf,
            alloc,
            b"command_tests_shelf/../command_tests_shelf/a.v"
        )
    );
    assert!(rt; fs::exists(&rt, "/proc/self/status")?);
    assert!(rt; fails(&mut shelf, alloc, b"/proc/self/status"));
    fs::remove_dir_all(&rt, FOLDER)?;
    Ok(())
}

#[test]
fn no_name_leaves_the_folder(rt: HostRuntime) -> Result<(), Fail> {
    let below: [&[u8]; 7] = [
        b"a",
        b"a.v",
        b"Lib_0/a-1.v",
        b"./a.v",
        b"a..v",
        b"..a/b..",
        b".../a.v",
    ];
    for name in below {
        assert!(rt; stays_below(name));
    }
    let outside: [&[u8]; 11] = [
        b"",
        b"/",
        b"/a.v",
        b"//a.v",
        b"..",
        b"../a.v",
        b"a/..",
        b"a/../b.v",
        b"a b",
        b"a\0",
        b"~/a+b",
    ];
    for name in outside {
        assert!(rt; !stays_below(name));
    }
    let long = vec![in rt.alloc(); b'a'; 256]?;
    assert!(rt; stays_below(&long[..255]));
    assert!(rt; !stays_below(&long));
    Ok(())
}

// Gives a byte at each of so many reads, then fails.
#[derive(Drop)]
struct Broken {
    reads: u8,
}

impl io::Read for Broken {
    fn read(&mut self, buf: &mut [u8]) -> io::Result<usize> {
        if self.reads == 0 || buf.is_empty() {
            return Err(io::ErrorKind::Other.into());
        }
        self.reads -= 1;
        buf[0] = b'x';
        Ok(1)
    }
}

#[test]
fn a_reader_that_fails_in_the_middle_gives_no_text(rt: HostRuntime) -> Result<(), Fail> {
    let alloc = rt.alloc();
    match whole_text(alloc, &mut Broken { reads: 2 }) {
        Ok(_) => assert!(rt; false),
        Err(refusal) => assert!(rt; refusal == ShelfRefusal::Failed),
    }
    match whole_text(alloc, &mut b"abc".as_slice()) {
        Ok(text) => assert!(rt; text.as_slice() == b"abc".as_slice()),
        Err(_) => assert!(rt; false),
    }
    Ok(())
}
