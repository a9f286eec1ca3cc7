// Reading a directive's word and the name behind it.
ghost use Rattle.std.specs.Prelude.{◌≡◌, ◌≤◌, length, map, IfSome};
ghost use Rattle.std.specs.Option.{option_map};
ghost use Rattle.verilog_pre.specs.Directives.{directive_in, directives, directive_of, is_conditional, is_use, name_at};

use crate::directive::Directive;
use ls_text::{behind, blank_len, byte_at, front, is_letter, word_len};

const DIRECTIVES: [(&[u8], Directive); 11] = [
    (b"define", Directive::Define),
    (b"undef", Directive::Undef),
    (b"ifdef", Directive::Ifdef),
    (b"ifndef", Directive::Ifndef),
    (b"elsif", Directive::Elsif),
    (b"else", Directive::Else),
    (b"endif", Directive::Endif),
    (b"timescale", Directive::RestOfLine),
    (b"default_nettype", Directive::RestOfLine),
    (b"celldefine", Directive::NoEffect),
    (b"endcelldefine", Directive::NoEffect),
];

// What a table gives a word.
fn directive_in(table: &[(&[u8], Directive)], word: &[u8]) -> Option<Directive>
    ensures { result ≡ directive_in (map (λ e. (e.0.now, e.1)) table.now) word.now }
{
    for (known, directive) in table {
        if *known == word {
            return Some(*directive);
        }
    }
    None
}

// The directive of a word of the table.
#[tactic(auto, unfolding(crate::specs::Directives::directives))]
fn listed(word: &[u8]) -> Option<Directive>
    ensures { result ≡ directive_in directives word.now }
{
    directive_in(&DIRECTIVES, word)
}

/// What the word behind a backquote says.
#[tactic(auto, unfolding(crate::specs::Directives::directive_of))]
pub fn directive_of(word: &[u8]) -> Directive
    ensures { result ≡ directive_of word.now }
{
    match listed(word) {
        Some(directive) => directive,
        None => Directive::Use,
    }
}

/// Whether it is one of the five that skipped text is read for.
pub fn is_conditional(directive: Directive) -> bool
    ensures { result ≡ is_conditional directive }
{
    matches!(
        directive,
        Directive::Ifdef | Directive::Ifndef | Directive::Elsif | Directive::Else | Directive::Endif
    )
}

/// Whether it is the use of a macro, and so no directive's name.
pub fn is_use(directive: Directive) -> bool
    ensures { result ≡ is_use directive }
{
    matches!(directive, Directive::Use)
}

/// The name behind a directive, on its line, and how many bytes end with it.
#[tactic(auto, unfolding(crate::specs::Directives::name_at))]
pub fn name_at(rest: &[u8]) -> Option<(&[u8], usize)>
    ensures name { option_map (λ r. (r.0.now, r.1)) result ≡ name_at rest.now }
    ensures within { IfSome result (λ r. r.1 ≤ length rest.now) }
{
    let blank = blank_len(rest);
    let name = behind(rest, blank);
    let n = word_len(name);
    if is_letter(byte_at(name, 0)) {
        Some((front(name, n), blank + n))
    } else {
        None
    }
}
