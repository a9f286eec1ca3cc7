// The lines of bytes.
ghost use Rattle.std.specs.Prelude.{◌≡◌, ◌<◌, [], ◌∷◌, length, MatchOption, IfSome, true};
ghost use Rattle.std.specs.Str.Lines.{strip_carriage_return};
ghost use Rattle.command_read.specs.Lines.{script_lines};

use ls_text::line_len;

/// The line without a carriage return at its end.
pub fn without_return(line: &[u8]) -> &[u8]
    ensures { result.now ≡ strip_carriage_return line.now }
{
    match line {
        [front @ .., b'\r'] => front,
        _ => line,
    }
}

/// The first line of bytes behind which nothing comes, and what follows it.
pub fn next_line(bytes: &[u8]) -> Option<(&[u8], &[u8])>
    ensures line { MatchOption result (script_lines true bytes.now ≡ [])
        (λ x. script_lines true bytes.now ≡ x.0.now ∷ script_lines true x.1.now) }
    ensures shorter { IfSome result (λ x. length x.1.now < length bytes.now) }
{
    let n = line_len(bytes);
    if bytes.is_empty() {
        None
    } else if n < bytes.len() {
        Some((without_return(bytes.split_at(n).0), bytes.split_at(n + 1).1))
    } else {
        Some((bytes, bytes.split_at(bytes.len()).1))
    }
}
