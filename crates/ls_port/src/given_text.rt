// What a shelf in memory gives of its texts.
ghost use Rattle.std.specs.Prelude.{◌≡◌, ◌≤◌, [], ◌∷◌, ◌++◌, length, vec_len, IfSome, IfOk, OnErr};
ghost use Rattle.std.specs.Option.{option_map};
ghost use Rattle.ls_port.specs.declared.shelf_answer.ShelfAnswer.TheVariants.{Given};
ghost use Rattle.ls_port.specs.Texts.{cut, text_named, given_of};

use crate::{NamedText, ShelfAnswer};
use ls_text::{TextBytes, front};
use std::alloc::{AllocError, Global};

/// The most bytes that a read gives of a text: one above the most that a file of a design has.
pub(crate) const MOST_GIVEN: usize = 4_194_305;

// As much of a text as a read gives.
#[tactic(auto, unfolding(crate::specs::Texts::cut))]
fn cut(text: &[u8]) -> &[u8]
    ensures value { result.now ≡ cut text.now }
    ensures few { length result.now ≤ 4194305 }
{
    front(text, MOST_GIVEN)
}

// The first text of this name.
fn text_named<'a>(name: &[u8], texts: &'a [NamedText]) -> Option<&'a [u8]>
    ensures { option_map (λ t. t.now) result ≡ text_named name.now texts.now }
{
    texts
        .iter()
        .find(|t| t.name.bytes() == name)
        .map(|t| t.text.bytes())
}

// What a read of this name gives of these texts.
#[tactic(auto, unfolding(crate::specs::Texts::given_of))]
pub(crate) fn given_of<'a>(name: &[u8], texts: &'a [NamedText]) -> Option<&'a [u8]>
    ensures value { option_map (λ t. t.now) result ≡ given_of name.now texts.now }
    ensures few { IfSome result (λ t. length t.now ≤ 4194305) }
{
    match text_named(name, texts) {
        Some(text) => Some(cut(text)),
        None => None,
    }
}

// Gives these bytes under this name, and writes it down.
pub(crate) fn give(
    alloc: Global,
    answered: &mut Vec<ShelfAnswer>,
    name: &[u8],
    text: &[u8],
) -> Result<Vec<u8>, AllocError>
    ensures given { IfOk result (λ t. t.items ≡ text.now) }
    ensures len { IfOk result (λ t. vec_len t ≡ length text.now) }
    ensures added { IfOk result (λ t. answered.new.items ≡ answered.old.items ++ Given name.now text.now ∷ []) }
    ensures kept { OnErr result (answered.new.items ≡ answered.old.items) }
{
    let given = Vec::from_slice(alloc, text)?;
    let name = TextBytes::new(Vec::from_slice(alloc, name)?);
    let copy = TextBytes::new(Vec::from_slice(alloc, text)?);
    answered.push(ShelfAnswer::Given(name, copy))?;
    Ok(given)
}
