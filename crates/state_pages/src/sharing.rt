// Pages of the same words become one page with two owners.
ghost use Rattle.std.specs.Prelude.{◌≡◌, length};
ghost use Rattle.std.specs.Arc.{arc_value};
ghost use Rattle.state_pages.specs.Words.{page_words, words_in};

use crate::page::Page;
use std::alloc::Global;
use std::sync::Arc;

// Lets a page be the other one, where both have the same words.
fn share_page(page: &mut Arc<Page, Global>, other: &Arc<Page, Global>)
    ensures { page_words page.new ≡ page_words page.old }
{
    if page.words == other.words {
        if let Ok(shared) = Arc::try_clone(other) {
            *page = shared;
        }
    }
}

// Lets these pages, whose owner is alone, be the others at the same places, where they have the same words.
fn share_within(pages: &mut Vec<Arc<Page, Global>>, others: &[Arc<Page, Global>])
    ensures words { words_in pages.new.items ≡ words_in pages.old.items }
    ensures many { length pages.new.items ≡ length pages.old.items }
{
    for index in 0..pages.len().min(others.len()) {
        share_page(&mut pages[index], &others[index]);
    }
}

/// Lets these pages be the others at the same places, where they have the same words. A list with other owners stays as it is.
pub(crate) fn share_alike(
    pages: &mut Arc<Vec<Arc<Page, Global>>, Global>,
    others: &[Arc<Page, Global>],
)
    ensures words { words_in (arc_value pages.new).items ≡ words_in (arc_value pages.old).items }
    ensures many { length (arc_value pages.new).items ≡ length (arc_value pages.old).items }
{
    if let Some(owned) = Arc::get_mut(pages) {
        share_within(owned, others);
    }
}
