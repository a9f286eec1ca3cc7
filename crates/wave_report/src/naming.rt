// Signals to their paths, by the table of names.
ghost use Rattle.std.specs.Prelude.{◌≡◌, ◌++◌, OnOk};
ghost use Rattle.typed_ir.specs.Flats.{signal_of};
ghost use Rattle.typed_ir.specs.Paths.{path_above, paths_of, dotted, joined};

use ls_text::{Names, NoMemory};
use typed_ir::{InstanceId, InstanceName, Signal};

// The path of an instance, each of its names with a dot behind it; nothing above the top.
fn push_instance(
    out: &mut Vec<u8>,
    names: &Names,
    rows: &[InstanceName],
    instance: Option<InstanceId>,
) -> Result<(), NoMemory>
    ensures { OnOk result (out.new.items ≡ out.old.items ++ dotted names.now (path_above (paths_of rows.now) instance)) }
{
    let number = match instance {
        None => return Ok(()),
        Some(number) => number,
    };
    let at = number.index();
    if at >= rows.len() {
        return Ok(());
    }
    let (earlier, _) = rows.split_at(at);
    let this = rows[at];
    push_instance(out, names, earlier, this.parent)?;
    out.extend_from_slice(names.text(this.name))?;
    out.push(b'.')?;
    Ok(())
}

/// Adds the path of a signal, where these are the instances: the names of those that it stands in, from the top on, and its own.
pub fn push_path(
    out: &mut Vec<u8>,
    names: &Names,
    rows: &[InstanceName],
    signal: &Signal,
) -> Result<(), NoMemory>
    ensures { OnOk result (out.new.items ≡ out.old.items ++ joined names.now (signal_of rows.now signal.now).path) }
{
    push_instance(out, names, rows, Some(signal.instance))?;
    out.extend_from_slice(names.text(signal.name))?;
    Ok(())
}
