// Writes to pages that may be shared: what is shared is copied before it is written.
ghost use Rattle.std.specs.Prelude.{◌≡◌, ◌<◌, ◌+◌, length, slice_set, OnOk, OnErr};
ghost use Rattle.std.specs.Arc.{arc_value};
ghost use Rattle.state_pages.specs.Words.{page_words, words_in};

use crate::page::Page;
use ls_text::NoMemory;
use std::alloc::Global;
use std::sync::Arc;

// Writes a word of a page. A page with other owners is copied before.
fn put_word(page: &mut Arc<Page, Global>, at: usize, value: u64) -> Result<(), NoMemory>
    requires { at < 64 }
    ensures ok { OnOk result (page_words page.new ≡ slice_set (page_words page.old) at value) }
    ensures err { OnErr result (page_words page.new ≡ page_words page.old) }
{
    let page = Arc::make_mut(page)?;
    page.words[at] = value;
    Ok(())
}

// Writes a word of these pages, whose owner is alone.
fn put_within(pages: &mut Vec<Arc<Page, Global>>, at: usize, value: u64) -> Result<(), NoMemory>
    requires { at < length (words_in pages.old.items) }
    ensures ok { OnOk result (words_in pages.new.items ≡ slice_set (words_in pages.old.items) at value) }
    ensures err { OnErr result (words_in pages.new.items ≡ words_in pages.old.items) }
    ensures many { length pages.new.items ≡ length pages.old.items }
{
    put_word(&mut pages[at / 64], at % 64, value)
}

// Writes two words of a page, one behind the other. A page with other owners is copied before.
fn put_pair(page: &mut Arc<Page, Global>, at: usize, low: u64, high: u64) -> Result<(), NoMemory>
    requires { at + 1 < 64 }
    ensures ok { OnOk result (page_words page.new ≡ slice_set (slice_set (page_words page.old) at low) (at + 1) high) }
    ensures err { OnErr result (page_words page.new ≡ page_words page.old) }
{
    let words = &mut Arc::make_mut(page)?.words;
    words[at] = low;
    words[at + 1] = high;
    Ok(())
}

// Writes two words of these pages, one behind the other, whose owner is alone. Where they stand in two pages, what may fail comes first.
fn put_two_within(
    pages: &mut Vec<Arc<Page, Global>>,
    at: usize,
    low: u64,
    high: u64,
) -> Result<(), NoMemory>
    requires { at + 1 < length (words_in pages.old.items) }
    ensures ok { OnOk result (words_in pages.new.items ≡ slice_set (slice_set (words_in pages.old.items) at low) (at + 1) high) }
    ensures err { OnErr result (words_in pages.new.items ≡ words_in pages.old.items) }
    ensures many { length pages.new.items ≡ length pages.old.items }
{
    let place = at / 64;
    if at % 64 < 63 {
        return put_pair(&mut pages[place], at % 64, low, high);
    }
    let mut last = Arc::try_clone(&pages[place])?;
    put_word(&mut last, 63, low)?;
    put_word(&mut pages[place + 1], 0, high)?;
    pages[place] = last;
    Ok(())
}

/// Writes a word of these pages. A list with other owners is copied before, and so is a page with other owners; all other pages stay shared.
pub(crate) fn put(
    pages: &mut Arc<Vec<Arc<Page, Global>>, Global>,
    at: usize,
    value: u64,
) -> Result<(), NoMemory>
    requires { at < length (words_in (arc_value pages.old).items) }
    ensures ok { OnOk result (words_in (arc_value pages.new).items ≡ slice_set (words_in (arc_value pages.old).items) at value) }
    ensures err { OnErr result (words_in (arc_value pages.new).items ≡ words_in (arc_value pages.old).items) }
    ensures many { length (arc_value pages.new).items ≡ length (arc_value pages.old).items }
{
    let pages = Arc::make_mut(pages)?;
    put_within(pages, at, value)
}

/// Writes two words of these pages, one behind the other, or none of them, as `put` writes one.
pub(crate) fn put_two(
    pages: &mut Arc<Vec<Arc<Page, Global>>, Global>,
    at: usize,
    low: u64,
    high: u64,
) -> Result<(), NoMemory>
    requires { at + 1 < length (words_in (arc_value pages.old).items) }
    ensures ok { OnOk result (words_in (arc_value pages.new).items ≡ slice_set (slice_set (words_in (arc_value pages.old).items) at low) (at + 1) high) }
    ensures err { OnErr result (words_in (arc_value pages.new).items ≡ words_in (arc_value pages.old).items) }
    ensures many { length (arc_value pages.new).items ≡ length (arc_value pages.old).items }
{
    let pages = Arc::make_mut(pages)?;
    put_two_within(pages, at, low, high)
}
