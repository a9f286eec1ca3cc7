// Places in a text.
ghost use Rattle.std.specs.Prelude.{◌≡◌};
ghost use Rattle.ls_text.specs.Places.{place_after, file_start};

/// A place in a text: the number of its file, and the line and the byte column, both counted from 1.
#[derive(Clone, Copy, Debug, PartialEq, Eq)]
pub struct Place {
    pub file: u16,
    pub line: u32,
    pub col: u32,
}

/// Where a file begins.
pub fn file_start(file: u16) -> Place
    ensures { result ≡ file_start file }
{
    Place {
        file,
        line: 1,
        col: 1,
    }
}

/// The place after a stretch of bytes that begins at a place. A newline ends its line.
///
/// A line or a column that would pass 4,294,967,295 stands still there.
pub fn place_after(at: Place, bytes: &[u8]) -> Place
    ensures { result ≡ place_after at bytes.now }
{
    let mut line = at.line;
    let mut col = at.col;
    for byte in bytes {
        if *byte == b'\n' {
            line = line.saturating_add(1);
            col = 1;
        } else {
            col = col.saturating_add(1);
        }
    }
    Place {
        file: at.file,
        line,
        col,
    }
}
