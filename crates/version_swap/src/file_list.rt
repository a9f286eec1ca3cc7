// A list of files.
ghost use Rattle.std.specs.Prelude.{◌≡◌};

use ls_text::SourceFile;
use std::marker::Model;

/// A list of files. Contracts see it as the list of these.
#[derive(Debug, Drop)]
pub struct FileList {
    files: Vec<SourceFile>,
}

impl Model for FileList {
    ghost use Rattle.std.specs.Prelude.{List};
    ghost use Rattle.ls_text.specs.declared.source_file.SourceFile.{SourceFile};

    ghost Value = { List SourceFile };

    ghost view = { λ l. l.files.items };
}

impl FileList {
    /// The list of these files. It takes no memory.
    pub fn new(files: Vec<SourceFile>) -> Self
        ensures { result ≡ files.items }
    {
        FileList { files }
    }

    /// The files of the list, from the first one on.
    pub fn as_slice(&self) -> &[SourceFile]
        ensures { result.now ≡ self.now }
    {
        &self.files
    }

    /// Gives the files back. It takes no memory.
    pub fn into_vec(self) -> Vec<SourceFile>
        ensures { result.items ≡ self }
    {
        self.files
    }
}
