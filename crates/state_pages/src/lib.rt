// Words of 64 bits in shared pages, which are copied where they change.
//
// `page` is a page of 64 words, and `pages` a shared list of shared pages: what a list says of its words. `own_pages` writes to a page that
// may be shared, and `sharing` makes pages of the same words one.
#![tactic(auto)]

mod own_pages;
mod page;
mod pages;
mod sharing;

pub use pages::Pages;
