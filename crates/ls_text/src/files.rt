// Stretches of the texts of files.
ghost use Rattle.std.specs.Prelude.{◌≡◌, slice_get};
ghost use Rattle.ls_text.specs.Files.{text_of, text_between};

use crate::SourceFile;

/// The text of the file with that number; an empty one where there is none.
pub fn text_of(files: &[SourceFile], file: u16) -> &[u8]
    ensures { result.now ≡ text_of (slice_get files.now file) }
{
    match files.get(file as usize) {
        Some(file) => file.text.bytes(),
        None => &[],
    }
}

/// The bytes from `start` up to `end` of the file with that number; none where it has no such bytes.
#[tactic(auto, unfolding(crate::specs::Files::text_between))]
pub fn text_between(files: &[SourceFile], file: u16, start: u32, end: u32) -> &[u8]
    ensures { result.now ≡ text_between files.now file start end }
{
    let text = text_of(files, file);
    if start <= end && end as usize <= text.len() {
        &text[start as usize..end as usize]
    } else {
        &[]
    }
}
