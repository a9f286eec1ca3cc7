// Conditionals that a file leaves open.
ghost use Rattle.std.specs.Prelude.{◌≡◌, ◌<◌, ◌≤◌, ◌+◌, ◌^◌, length, All, IfOk};
ghost use Rattle.ls_text.specs.Texts.{Grows};
ghost use Rattle.ls_text.specs.Readings.{fault_view};
ghost use Rattle.verilog_pre.specs.Heads.{depth_behind, passed, stays_open, Within};
ghost use Rattle.verilog_pre.specs.Reading.{opening_word, left_open, earlier};

use crate::conditional::Conditional;
use crate::directive::Directive;
use crate::directives::directive_of;
use crate::expand::bad_directive;
use crate::head::Head;
use crate::heads::head_of;
use ls_text::{Fault, Names, NoMemory, behind, front};
use std::alloc::Global;

// How many conditionals are open behind a directive's word, of so many before it.
fn depth_behind(depth: usize, directive: Directive) -> usize
    requires { depth + 1 < 2 ^ 64 }
    ensures value { result ≡ depth_behind depth directive }
    ensures room { result ≤ depth + 1 }
{
    match directive {
        Directive::Ifdef | Directive::Ifndef => depth + 1,
        Directive::Endif => depth.saturating_sub(1),
        Directive::Define
        | Directive::Undef
        | Directive::Elsif
        | Directive::Else
        | Directive::RestOfLine
        | Directive::NoEffect
        | Directive::Use => depth,
    }
}

// How many conditionals are open behind the head of a text, and how many bytes it has.
fn passed(depth: usize, text: &[u8], head: Head) -> (usize, usize)
    requires room { depth + length text.now < 2 ^ 64 }
    requires some { 0 < length text.now }
    requires within { Within (length text.now) head }
    ensures value { result ≡ passed depth text.now head }
    ensures some { 0 < result.1 }
    ensures within { result.1 ≤ length text.now }
    ensures depth { result.0 ≤ depth + 1 }
{
    match head {
        Head::Comment(n) | Head::Run(n) => (depth, n),
        Head::OpenComment => (depth, text.len()),
        Head::Word(n) => {
            let word = front(behind(text, 1), n);
            (depth_behind(depth, directive_of(word)), 1 + n)
        }
    }
}

// Whether some of so many open conditionals stay open to the end of a text. It is read as skipped text is.
#[tactic(auto, unfolding(crate::specs::Heads::stays_open))]
fn stays_open(depth: usize, text: &[u8]) -> bool
    requires room { length text.now ≤ 4194304 }
    requires depth { depth < 2 ^ 63 }
    ensures { result ≡ stays_open depth text.now }
{
    let mut depth = depth;
    let mut rest = text;
    while !rest.is_empty() {
        if depth == 0 {
            return false;
        }
        let (next, n) = passed(depth, rest, head_of(rest));
        depth = next;
        rest = behind(rest, n);
    }
    depth > 0
}

// The word that opens a conditional, without its mark.
fn opening_word(negated: bool) -> &'static [u8]
    ensures { result.now ≡ opening_word negated }
{
    if negated { b"ifndef" } else { b"ifdef" }
}

/// The fault of a conditional that its file leaves open: 12 at its opening.
pub fn left_open(
    alloc: Global,
    names: &mut Names,
    conditional: Conditional,
) -> Result<Fault, NoMemory>
    ensures fault { IfOk result (λ f. fault_view names.new f ≡ left_open conditional) }
    ensures known { IfOk result (λ f. All (λ id. id.0 < length names.new) f.names) }
    ensures grows { Grows names.old names.new }
{
    bad_directive(
        alloc,
        names,
        conditional.at,
        opening_word(conditional.negated),
    )
}

/// The earlier of a fault before the rest of its file and of the opening of the outermost conditional there, where that
/// stays open; `depth` conditionals are open at the fault.
pub fn earlier(
    alloc: Global,
    names: &mut Names,
    outermost: Option<Conditional>,
    depth: usize,
    rest: &[u8],
    fault: Fault,
) -> Result<Fault, NoMemory>
    requires room { length rest.now ≤ 4194304 }
    requires depth { depth < 2 ^ 63 }
    requires known { All (λ id. id.0 < length names.old) fault.names }
    ensures fault { IfOk result (λ f. fault_view names.new f ≡ earlier outermost (stays_open depth rest.now) (fault_view names.old fault)) }
    ensures known { IfOk result (λ f. All (λ id. id.0 < length names.new) f.names) }
    ensures grows { Grows names.old names.new }
{
    match outermost {
        None => Ok(fault),
        Some(conditional) => {
            if stays_open(depth, rest) {
                left_open(alloc, names, conditional)
            } else {
                Ok(fault)
            }
        }
    }
}
