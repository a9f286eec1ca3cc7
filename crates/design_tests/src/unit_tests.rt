// A node that is shifted, lists that give back what they were made from, and tables that fit.
use bits::Bits;
use ls_text::{NameId, NoMemory};
use std::alloc::Global;
use std::test::Fail;
use typed_ir::{
    Const, ConstList, Form, InstanceId, InstanceName, InstanceTable, Lane, Node, SignalId, Span,
    TargetForm, Typed, shifted_node,
};

// Whether a node drives bit 3 of signal 6 with signal 7, as a bit.
fn drives_from_seven(node: &Node) -> bool {
    match node {
        Node::Drive { form, lanes, value } => {
            let is_bit = matches!(form, TargetForm::Bit);
            let mut is_six = lanes.len() == 1;
            for lane in lanes {
                is_six = is_six && lane.span.signal == SignalId(6) && lane.span.low == 3;
            }
            let is_seven = match &value.form {
                Form::Name { signal, width } => *signal == SignalId(7) && *width == 1,
                _ => false,
            };
            is_bit && is_six && is_seven
        }
        Node::Block { .. } => false,
    }
}

// assign s1[3] = s2; of the module is, five signals on, assign s6[3] = s7;
#[test]
fn an_assignment_five_signals_on(rt: HostRuntime) -> Result<(), Fail> {
    let alloc = rt.alloc();
    let span = Span {
        signal: SignalId(1),
        low: 3,
        width: 1,
    };
    let mut lanes = Vec::new(alloc);
    lanes.push(Lane { shift: 0, span })?;
    let node = Node::Drive {
        form: TargetForm::Bit,
        lanes,
        value: Typed::name(SignalId(2), 1),
    };
    let Ok(shifted) = shifted_node(alloc, &node, 5) else {
        assert!(rt; false);
        return Ok(());
    };
    assert!(rt; drives_from_seven(&shifted));
    Ok(())
}

#[test]
fn values_of_parameters(rt: HostRuntime) -> Result<(), Fail> {
    let eight = Const {
        bits: Bits::new(32, 8),
        signed: true,
    };
    let three = Const {
        bits: Bits::new(2, 3),
        signed: false,
    };
    let list = ConstList::new(vec![in rt.alloc(); eight, three]?);
    assert_eq!(rt; list.as_slice(), [eight, three].as_slice());
    let values = list.into_vec();
    assert_eq!(rt; values.as_slice(), [eight, three].as_slice());
    Ok(())
}

// Whether instances that stand in these make a table.
fn is_table(alloc: Global, parents: &[Option<u32>]) -> Result<bool, NoMemory> {
    let mut instances = Vec::new(alloc);
    for parent in parents {
        let parent = match parent {
            Some(number) => Some(InstanceId(*number)),
            None => None,
        };
        instances.push(InstanceName {
            parent,
            name: NameId(0),
        })?;
    }
    Ok(InstanceTable::new(instances).is_some())
}

#[test]
fn tables_of_instances(rt: HostRuntime) -> Result<(), Fail> {
    let alloc = rt.alloc();
    assert!(rt; is_table(alloc, &[None, Some(0), Some(1), Some(0)])?);
    // an instance in one behind it, a first one that stands in itself, and two tops
    assert!(rt; !is_table(alloc, &[None, Some(2), Some(0)])?);
    assert!(rt; !is_table(alloc, &[Some(0)])?);
    assert!(rt; !is_table(alloc, &[None, None])?);
    Ok(())
}
