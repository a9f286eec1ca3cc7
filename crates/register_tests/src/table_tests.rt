// Tables of a design of four instances, written by hand.
ghost use Rattle.std.specs.Prelude.{◌≡◌, IfOk};
ghost use Rattle.cycle_eval.specs.Designs.{design_flat};
ghost use Rattle.cycle_eval.specs.Kits.{Fits};

use bits::Bits;
use comb_order::{Parts, checked_flat, linked, no_block};
use cycle_eval::Design;
use ls_text::{Names, NoMemory};
use machine::Machine;
use std::alloc::Global;
use std::process::Abort;
use std::test::Fail;
use typed_ir::{InstanceId, InstanceName, InstanceTable, Signal, SignalId};
use wave_report::table;

// The instances cpu, cpu.alu, cpu.alu.add and cpu.bus.
fn instances(rt: &impl Abort, alloc: Global, names: &mut Names) -> Result<InstanceTable, NoMemory> {
    let list: [(Option<u32>, &[u8]); 4] = [
        (None, b"cpu"),
        (Some(0), b"alu"),
        (Some(1), b"add"),
        (Some(0), b"bus"),
    ];
    let mut rows = Vec::new(alloc);
    for (parent, name) in list {
        let parent = match parent {
            None => None,
            Some(p) => Some(InstanceId(p)),
        };
        rows.push(InstanceName {
            parent,
            name: names.intern(name)?,
        })?;
    }
    Ok(InstanceTable::new(rows).expect(rt, "a table"))
}

// A signal of this instance, width and value at the beginning.
fn signal(
    rt: &impl Abort,
    names: &mut Names,
    instance: u32,
    name: &[u8],
    width: u8,
    value: u128,
) -> Result<Signal, NoMemory> {
    assert!(rt; 1 <= width && width <= 128);
    let name = names.intern(name)?;
    Ok(Signal {
        in_module: name,
        instance: InstanceId(instance),
        name,
        lsb: 0,
        signed: false,
        width,
        initial: Bits::new(width, value).value(),
    })
}

// All but the second are registers.
fn signals(rt: &impl Abort, alloc: Global, names: &mut Names) -> Result<Vec<Signal>, NoMemory> {
    let list: [(u32, &[u8], u8, u128); 7] = [
        (0, b"pc", 9, 0x1ff),
        (0, b"wire", 4, 0),
        (0, b"alum", 1, 1),
        (1, b"flag", 4, 10),
        (2, b"carry", 5, 3),
        (2, b"sum", 128, 0xfedc),
        (3, b"pc", 8, 0),
    ];
    let mut all = Vec::new(alloc);
    for (instance, name, width, value) in list {
        all.push(signal(rt, names, instance, name, width, value)?)?;
    }
    Ok(all)
}

fn ids(alloc: Global, numbers: &[u32]) -> Result<Vec<SignalId>, NoMemory> {
    let mut ids = Vec::new(alloc);
    for number in numbers {
        ids.push(SignalId(*number))?;
    }
    Ok(ids)
}

#[tactic(auto, using(comb_order::proofs::Flatten::complete_of, comb_order::proofs::Flatten::first_of))]
fn design(rt: &impl Abort, alloc: Global, names: &mut Names) -> Result<Design, NoMemory> {
    let parts = Parts {
        instances: instances(rt, alloc, names)?,
        signals: signals(rt, alloc, names)?,
        registers: ids(alloc, &[0, 2, 3, 4, 5, 6])?,
        inputs: Vec::new(alloc),
        nodes: Vec::new(alloc),
        clocked: Vec::new(alloc),
    };
    assert!(rt; no_block(&parts.nodes));
    assert!(rt; parts.nodes.len() < 1_000_000);
    let flat = checked_flat(alloc, parts)?.expect(rt, "a design");
    match linked(alloc, flat) {
        Ok(linked) => Ok(Design::make(alloc, linked).expect(rt, "few words")),
        Err(_) => Err(NoMemory),
    }
}

// The table at the beginning.
fn beginning(
    alloc: Global,
    names: &Names,
    design: &Design,
    prefix: &[u8],
) -> Result<Vec<u8>, NoMemory> {
    let state = design.reset(alloc)?;
    table(alloc, names, design, &state, prefix)
}

const ALL: &str = "cpu.pc 1ff\n\
    cpu.alum 1\n\
    cpu.alu.flag a\n\
    cpu.alu.add.carry 03\n\
    cpu.alu.add.sum 0000000000000000000000000000fedc\n\
    cpu.bus.pc 00\n";

const ALU: &str = "cpu.alum 1\n\
    cpu.alu.flag a\n\
    cpu.alu.add.carry 03\n\
    cpu.alu.add.sum 0000000000000000000000000000fedc\n";

#[test]
fn prefixes(rt: HostRuntime) -> Result<(), Fail> {
    let alloc = rt.alloc();
    let mut names = Names::new(alloc);
    let design = design(&rt, alloc, &mut names)?;
    let rows = [
        ("", ALL),
        ("cpu.", ALL),
        ("cpu.alu", ALU),
        ("cpu.bus.pc", "cpu.bus.pc 00\n"),
        ("cpu.alu.add.sums", ""),
        ("pc", ""),
        ("alu.", ""),
    ];
    for (prefix, text) in rows {
        let shown = beginning(alloc, &names, &design, prefix.as_bytes())?;
        assert_eq!(rt; shown.as_slice(), text.as_bytes());
    }
    Ok(())
}
