// A list of words in shared pages.
ghost use Rattle.std.specs.Prelude.{◌≡◌, ◌<◌, ◌+◌, ◌*◌, true, length, replicate, slice_index, slice_set, IfOk, OnOk, OnErr};
ghost use Rattle.state_pages.specs.Words.{page_words, words_in};

use crate::own_pages::{put, put_two};
use crate::page::Page;
use crate::sharing::share_alike;
use ls_text::NoMemory;
use std::alloc::Global;
use std::marker::Model;
use std::sync::Arc;

/// A list of words of 64 bits, in a shared list of shared pages of 64 words. Words behind the last one are 0.
#[derive(Drop)]
pub struct Pages {
    count: u32,
    pages: Arc<Vec<Arc<Page, Global>>, Global>,
}

impl Model for Pages {
    ghost use Rattle.std.specs.Prelude.{ℕ, List, take};
    ghost use Rattle.std.specs.Arc.{arc_value};
    ghost use Rattle.state_pages.specs.Words.{words_in, AreFilled};

    ghost Value = { List ℕ };

    ghost view = { λ p. take p.count (words_in (arc_value p.pages).items) };

    ghost invariant = { λ p. AreFilled p.count (arc_value p.pages).items };
}

// So many pages of zeros, which are one shared page.
fn zero_pages(alloc: Global, many: usize) -> Result<Vec<Arc<Page, Global>>, NoMemory>
    ensures many { IfOk result (λ pages. length pages.items ≡ many) }
    ensures words { IfOk result (λ pages. words_in pages.items ≡ replicate (64 * many) 0) }
{
    let page = Arc::new(alloc, Page { words: [0; 64] })?;
    let mut pages = Vec::with_capacity(alloc, many)?;
    for _index in 0..many {
        pages.push(Arc::try_clone(&page)?)?;
    }
    Ok(pages)
}

// Whether two pages have the same words.
fn same_page(one: &Arc<Page, Global>, other: &Arc<Page, Global>) -> bool
    ensures same { result ≡ true → page_words one.now ≡ page_words other.now }
    ensures all { page_words one.now ≡ page_words other.now → result ≡ true }
{
    one.words == other.words
}

// Whether these pages, of which there are as many, have the same words.
fn same_pages(ones: &[Arc<Page, Global>], others: &[Arc<Page, Global>]) -> bool
    requires { length ones.now ≡ length others.now }
    ensures same { result ≡ true → words_in ones.now ≡ words_in others.now }
    ensures all { words_in ones.now ≡ words_in others.now → result ≡ true }
{
    for index in 0..ones.len() {
        if !same_page(&ones[index], &others[index]) {
            return false;
        }
    }
    true
}

impl Pages {
    /// So many words, each 0. It takes memory for one page and for the list of pages.
    pub fn zero(alloc: Global, words: u32) -> Result<Pages, NoMemory>
        ensures { IfOk result (λ pages. pages ≡ replicate words 0) }
    {
        let many = (words as usize + 63) / 64;
        let pages = zero_pages(alloc, many)?;
        Ok(Pages {
            count: words,
            pages: Arc::new(alloc, pages)?,
        })
    }

    /// How many words there are.
    pub fn len(&self) -> u32
        ensures { result ≡ length self.now }
    {
        self.count
    }

    /// A word, counted from 0.
    pub fn word(&self, i: u32) -> u64
        requires { i < length self.now }
        ensures { result ≡ slice_index self.now i }
    {
        let at = i as usize;
        self.pages[at / 64].words[at % 64]
    }

    /// Writes a word, counted from 0, and leaves all others. Where it is the same already nothing is written, and so nothing is
    /// copied. What is shared is copied before it is written: the page of the word, and the list of pages. After want of memory all words
    /// are as before.
    pub fn replace_word(&mut self, i: u32, value: u64) -> Result<(), NoMemory>
        requires { i < length self.old }
        ensures ok { OnOk result (self.new ≡ slice_set self.old i value) }
        ensures err { OnErr result (self.new ≡ self.old) }
    {
        if self.word(i) == value {
            return Ok(());
        }
        put(&mut self.pages, i as usize, value)
    }

    /// Writes two words, one behind the other, as `replace_word` writes one. After want of memory both are as before.
    pub fn replace_two(&mut self, i: u32, low: u64, high: u64) -> Result<(), NoMemory>
        requires { i + 1 < length self.old }
        ensures ok { OnOk result (self.new ≡ slice_set (slice_set self.old i low) (i + 1) high) }
        ensures err { OnErr result (self.new ≡ self.old) }
    {
        if self.word(i) == low {
            return self.replace_word(i + 1, high);
        }
        if self.word(i + 1) == high {
            return self.replace_word(i, low);
        }
        put_two(&mut self.pages, i as usize, low, high)
    }

    /// The same words once more. It takes no memory, and time that doesn't grow with the words.
    pub fn share(&self) -> Result<Pages, NoMemory>
        ensures { IfOk result (λ pages. pages ≡ self.now) }
    {
        Ok(Pages {
            count: self.count,
            pages: Arc::try_clone(&self.pages)?,
        })
    }

    /// Shares each page that has the words of the other list's page at the same place with that list. The words stay. Where the list of
    /// pages has other owners nothing is done. It takes no memory.
    pub fn share_with(&mut self, other: &Pages)
        ensures { self.new ≡ self.old }
    {
        share_alike(&mut self.pages, &other.pages);
    }

    /// Whether both have the same words, in the same order.
    pub fn same(&self, other: &Pages) -> bool
        ensures same { result ≡ true → self.now ≡ other.now }
        ensures all { self.now ≡ other.now → result ≡ true }
    {
        self.count == other.count && same_pages(&self.pages, &other.pages)
    }
}
