// A few words, put in and read by hand.
use ls_text::NoMemory;
use state_pages::Pages;
use std::alloc::Global;
use std::test::Fail;

/// Of three words the last becomes 9.
fn three_words(alloc: Global) -> Result<[u64; 3], NoMemory> {
    let mut pages = Pages::zero(alloc, 3)?;
    pages.replace_word(0, 7)?;
    pages.replace_word(2, 9)?;
    Ok([pages.word(0), pages.word(1), pages.word(2)])
}

/// A list and its share, of which one is written: a word of each, and whether they are the same before, after, and once both have the word.
fn shared_words(alloc: Global) -> Result<(u64, u64, [bool; 3]), NoMemory> {
    let mut one = Pages::zero(alloc, 65)?;
    let mut other = one.share()?;
    let before = one.same(&other);
    one.replace_word(64, 5)?;
    let after = one.same(&other);
    let words = (one.word(64), other.word(64));
    other.replace_word(64, 5)?;
    Ok((words.0, words.1, [before, after, one.same(&other)]))
}

/// The words at both sides of the border of two pages, and how many words there are.
fn border(alloc: Global) -> Result<([u64; 3], u32), NoMemory> {
    let mut pages = Pages::zero(alloc, 65)?;
    pages.replace_two(63, 1, u64::MAX)?;
    Ok((
        [pages.word(62), pages.word(63), pages.word(64)],
        pages.len(),
    ))
}

/// Two lists written apart, of which one then shares with the other what is equal: a word of each, in the page that is equal and in the one
/// that isn't, after a write of the one and then of the other.
fn shared_later(alloc: Global) -> Result<([u64; 3], [u64; 3]), NoMemory> {
    let mut one = Pages::zero(alloc, 66)?;
    let mut other = Pages::zero(alloc, 130)?;
    one.replace_word(0, 3)?;
    one.replace_word(64, 4)?;
    other.replace_word(0, 3)?;
    one.share_with(&other);
    one.replace_word(1, 5)?;
    other.replace_word(2, 6)?;
    Ok((
        [one.word(1), one.word(2), one.word(64)],
        [other.word(1), other.word(2), other.word(64)],
    ))
}

fn crossed<T: Send + Sync>(value: T) -> T {
    value
}

#[test]
fn words_by_hand(rt: HostRuntime) -> Result<(), Fail> {
    let alloc = rt.alloc();
    assert_eq!(rt; three_words(alloc)?, [7, 0, 9]);
    assert_eq!(rt; shared_words(alloc)?, (5, 0, [true, false, true]));
    assert_eq!(rt; shared_later(alloc)?, ([5, 0, 4], [0, 6, 0]));
    assert_eq!(rt; border(alloc)?, ([0, 1, u64::MAX], 65));
    Ok(())
}

/// Pages may go to another thread and be read there.
#[test]
fn cross_threads(rt: HostRuntime) -> Result<(), Fail> {
    let pages = crossed(Pages::zero(rt.alloc(), 0)?);
    assert_eq!(rt; pages.len(), 0);
    Ok(())
}
