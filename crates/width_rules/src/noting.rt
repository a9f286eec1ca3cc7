// One name for a list of mentions.
ghost use Rattle.std.specs.Prelude.{◌∷◌, [], IfOk};
ghost use Rattle.width_rules.specs.Adding.{Notes};
ghost use Rattle.width_rules.specs.Names.{signal_name};
ghost use Rattle.width_rules.specs.Entries.{scope_of};

use crate::constants::is_signal;
use crate::scope::Scope;
use ls_text::NoMemory;
use typed_ir::Mention;
use verilog_ast::Identifier;

/// Adds a name with this number, and answers the next one. Above 2^32 names are want of memory.
pub fn note(name: Identifier, from: u32, list: &mut Vec<Mention>) -> Result<u32, NoMemory>
    ensures { IfOk result (λ next. Notes list.old.items list.new.items from next (name ∷ [])) }
{
    let Some(next) = from.checked_add(1) else {
        return Err(NoMemory);
    };
    list.push(Mention {
        name: name.name,
        at: name.at,
        order: from,
    })?;
    Ok(next)
}

/// Adds a name where it is that of a net or variable.
pub fn note_signal(
    scope: &Scope,
    name: Identifier,
    from: u32,
    list: &mut Vec<Mention>,
) -> Result<u32, NoMemory>
    ensures { IfOk result (λ next. Notes list.old.items list.new.items from next (signal_name (scope_of scope.now) name)) }
{
    if !is_signal(scope, name.name) {
        return Ok(from);
    }
    note(name, from, list)
}
