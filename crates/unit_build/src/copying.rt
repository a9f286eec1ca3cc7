// Copies of the shapes of instances.
ghost use Rattle.std.specs.Prelude.{◌≡◌, IfOk};

use ls_text::NoMemory;
use std::alloc::Global;
use typed_ir::{ChildShape, PortList, PortShape, ShapeList};

fn copied_ports(alloc: Global, ports: &[PortShape]) -> Result<PortList, NoMemory>
    ensures { IfOk result (λ copy. copy ≡ ports.now) }
{
    let copy = Vec::from_slice(alloc, ports)?;
    Ok(PortList::new(copy))
}

fn copied_child(alloc: Global, child: &ChildShape) -> Result<ChildShape, NoMemory>
    ensures { IfOk result (λ copy. copy ≡ child.now) }
{
    let ports = copied_ports(alloc, child.ports.as_slice())?;
    Ok(ChildShape {
        instance: child.instance,
        clock: child.clock,
        ports,
    })
}

/// A list of its own with the same shapes; or want of memory.
pub fn copied_shapes(alloc: Global, shapes: &[ChildShape]) -> Result<ShapeList, NoMemory>
    ensures { IfOk result (λ copy. copy ≡ shapes.now) }
{
    let mut copy = Vec::with_capacity(alloc, shapes.len())?;
    for shape in shapes {
        copy.push(copied_child(alloc, shape)?)?;
    }
    Ok(ShapeList::new(copy))
}
