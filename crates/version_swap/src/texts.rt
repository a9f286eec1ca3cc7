// The texts of a version.
use crate::file_list::FileList;
use ls_text::NameId;

/// The files of a version, in the order in which they were first named, with its top, where one is named, and its clock.
#[derive(Debug, Drop)]
pub struct Texts {
    pub files: FileList,
    pub top: Option<NameId>,
    pub clock: NameId,
}
