// That a script's commands are those of the format, whatever the pieces are in which it comes.
use command_read::{Command, Edit, ReadEnd, Reader};
use ls_port::{Failed, MemSource, Source};
use ls_text::{NameId, Names, NoMemory, fault_line, push_decimal};
use reg_ops::RegOp;
use std::alloc::Global;
use std::test::Fail;

/// A source in memory that gives at most so many bytes at a time.
#[derive(Drop)]
struct Dribble {
    bytes: Vec<u8>,
    at: usize,
    most: usize,
}

impl Source for Dribble {
    ghost use Rattle.std.specs.Prelude.{None};

    ghost left = { λ _. None };

    ghost faults = { λ _. 0 };

    fn read(&mut self, buf: &mut [u8]) -> Result<usize, Failed> {
        let rest = self.bytes.len().saturating_sub(self.at);
        let count = buf.len().min(rest).min(self.most);
        if count > 0 && self.at < self.bytes.len() {
            buf[..count].copy_from_slice(&self.bytes[self.at..self.at + count]);
            self.at += count;
        }
        Ok(count)
    }
}

fn push_name(text: &mut Vec<u8>, names: &Names, id: NameId) -> Result<(), NoMemory> {
    text.extend_from_slice(names.text(id))?;
    Ok(())
}

fn push_named(text: &mut Vec<u8>, word: &[u8], names: &Names, id: NameId) -> Result<(), NoMemory> {
    text.push(b' ')?;
    text.extend_from_slice(word)?;
    text.push(b'=')?;
    push_name(text, names, id)
}

fn push_op(text: &mut Vec<u8>, names: &Names, op: RegOp) -> Result<(), NoMemory> {
    match op {
        RegOp::Rename {
            in_module,
            from,
            to,
        } => {
            push_named(text, b"rename", names, in_module)?;
            push_named(text, b"from", names, from)?;
            push_named(text, b"to", names, to)
        }
        RegOp::Create {
            in_module,
            reg,
            value,
        } => {
            push_named(text, b"create", names, in_module)?;
            push_named(text, b"reg", names, reg)?;
            text.push(b' ')?;
            push_large(text, value)
        }
        RegOp::Delete { in_module, reg } => {
            push_named(text, b"delete", names, in_module)?;
            push_named(text, b"reg", names, reg)
        }
    }
}

// A number below 2^128, by its two halves.
fn push_large(text: &mut Vec<u8>, value: u128) -> Result<(), NoMemory> {
    push_decimal(text, (value >> 64) as u64)?;
    text.push(b':')?;
    push_decimal(text, (value & 0xffff_ffff_ffff_ffff) as u64)
}

fn push_block(text: &mut Vec<u8>, names: &Names, block: &Edit) -> Result<(), NoMemory> {
    if let Some(top) = block.top {
        push_named(text, b"top", names, top)?;
    }
    if let Some(clock) = block.clock {
        push_named(text, b"clock", names, clock)?;
    }
    for given in block.files.as_slice() {
        text.extend_from_slice(b" @")?;
        push_decimal(text, given.line)?;
        push_named(text, b"file", names, given.file.name)?;
        text.push(b' ')?;
        push_decimal(text, given.file.text.bytes().len() as u64)?;
    }
    for load in block.loads.as_slice() {
        text.extend_from_slice(b" @")?;
        push_decimal(text, load.line)?;
        push_named(text, b"load", names, load.name)?;
    }
    for op in block.ops.as_slice() {
        text.extend_from_slice(b" @")?;
        push_decimal(text, op.line)?;
        push_op(text, names, op.op)?;
    }
    Ok(())
}

fn push_head(text: &mut Vec<u8>, line: u64, word: &[u8]) -> Result<(), NoMemory> {
    push_decimal(text, line)?;
    text.push(b' ')?;
    text.extend_from_slice(word)?;
    Ok(())
}

fn push_command(text: &mut Vec<u8>, names: &Names, command: &Command) -> Result<(), NoMemory> {
    match command {
        Command::Edit(block) => {
            push_head(text, block.line, b"edit")?;
            push_block(text, names, block)?;
        }
        Command::Set { line, values } => {
            push_head(text, *line, b"set")?;
            for value in values.as_slice() {
                push_named(text, b"port", names, value.port)?;
                text.push(b' ')?;
                push_large(text, value.value)?;
            }
        }
        Command::Run { line, n } => {
            push_head(text, *line, b"run ")?;
            push_decimal(text, *n)?;
        }
        Command::Show { line, prefix } => {
            push_head(text, *line, b"show ")?;
            text.extend_from_slice(prefix.bytes())?;
        }
        Command::Settle { line, passes } => {
            push_head(text, *line, b"settle ")?;
            if let Some(passes) = passes {
                push_decimal(text, u64::from(*passes))?;
            }
        }
        Command::Status { line } => push_head(text, *line, b"status")?,
        Command::Quit { line } => push_head(text, *line, b"quit")?,
    }
    text.push(b'\n')?;
    Ok(())
}

// The answers of a reader, a line each, up to the one at which it stops.
fn answers<S: Source>(alloc: Global, source: &mut S) -> Result<Vec<u8>, NoMemory> {
    let mut names = Names::new(alloc);
    let mut reader = Reader::new(alloc)?;
    let mut text = Vec::new(alloc);
    for _ in 0..u64::MAX {
        match reader.read_command(&mut names, source) {
            ReadEnd::Command(command) => push_command(&mut text, &names, &command)?,
            ReadEnd::Refused(fault) => {
                text.extend_from_slice(&fault_line(alloc, &names, &[], 0, &fault)?)?;
            }
            ReadEnd::End => {
                text.extend_from_slice(b"end\n")?;
                break;
            }
            ReadEnd::Fault => {
                text.extend_from_slice(b"fault\n")?;
                break;
            }
            ReadEnd::TooMuch => {
                text.extend_from_slice(b"too much\n")?;
                break;
            }
            ReadEnd::NoMemory => return Err(NoMemory),
        }
    }
    Ok(text)
}

fn in_pieces(alloc: Global, script: &[u8], most: usize) -> Result<Vec<u8>, NoMemory> {
    let mut source = Dribble {
        bytes: Vec::from_slice(alloc, script)?,
        at: 0,
        most,
    };
    answers(alloc, &mut source)
}

// Scripts, and what the format makes of them.
const ROWS: [(&[u8], &[u8]); 57] = [
    (b"", b"end\n"),
    (b"\n \t\n# run 1\n  #\nrun 1", b"5 run 1\nend\n"),
    (b"run 00000000000000000001\r\n", b"1 run 1\nend\n"),
    (
        b"run 18446744073709551615\n",
        b"1 run 18446744073709551615\nend\n",
    ),
    (
        b"run 18446744073709551616\n",
        b"refused 61 BadValue @1 18446744073709551616\nend\n",
    ),
    (
        b"run 000000000000000000001\n",
        b"refused 61 BadValue @1 000000000000000000001\nend\n",
    ),
    (b"run x\n", b"refused 61 BadValue @1 x\nend\n"),
    (b"run -1\n", b"refused 61 BadValue @1 -1\nend\n"),
    (b"run 1_0\n", b"refused 61 BadValue @1 1_0\nend\n"),
    (b"run\n", b"refused 60 BadCommand @1 -\nend\n"),
    (b"run 1 2\n", b"refused 60 BadCommand @1 -\nend\n"),
    (b"run 0\n", b"1 run 0\nend\n"),
    (
        b"frob\nrun 1\n",
        b"refused 60 BadCommand @1 frob\n2 run 1\nend\n",
    ),
    (b"Run 1\n", b"refused 60 BadCommand @1 Run\nend\n"),
    (
        b"set d=0F e_$1=ffffffffffffffffffffffffffffffff d=1\n",
        b"1 set port=d 0:15 port=e_$1 18446744073709551615:18446744073709551615 port=d 0:1\nend\n",
    ),
    (b"set\n", b"refused 60 BadCommand @1 -\nend\n"),
    (b"set d\n", b"refused 61 BadValue @1 d\nend\n"),
    (b"set d=\n", b"refused 61 BadValue @1 d\nend\n"),
    (b"set d=g\n", b"refused 61 BadValue @1 d\nend\n"),
    (b"set 1d=g\n", b"refused 61 BadValue @1 1d=g\nend\n"),
    (b"set =1\n", b"refused 61 BadValue @1 =1\nend\n"),
    (b"set a.b=1\n", b"refused 61 BadValue @1 a.b=1\nend\n"),
    (b"set a=1=2\n", b"refused 61 BadValue @1 a\nend\n"),
    (
        b"set d=000000000000000000000000000000001\n",
        b"refused 61 BadValue @1 d\nend\n",
    ),
    (b"set a=1 b=x c=y\n", b"refused 61 BadValue @1 b\nend\n"),
    (
        b"show\nshow top.\nshow a b\n",
        b"1 show \n2 show top.\nrefused 60 BadCommand @3 -\nend\n",
    ),
    (
        b"settle\nsettle 1024\nsettle 1\n",
        b"1 settle \n2 settle 1024\n3 settle 1\nend\n",
    ),
    (
        b"settle 0\nsettle 1025\nsettle x\n",
        b"refused 61 BadValue @1 0\nrefused 61 BadValue @2 1025\nrefused 61 BadValue @3 x\nend\n",
    ),
    (b"settle 1 2\n", b"refused 60 BadCommand @1 -\nend\n"),
    (
        b"status\nstatus now\nquit\nquit 1\n",
        b"1 status\nrefused 60 BadCommand @2 -\n3 quit\nrefused 60 BadCommand @4 -\nend\n",
    ),
    (b"end\n", b"refused 60 BadCommand @1 end\nend\n"),
    (
        b"edit x\nrun 1\n",
        b"refused 60 BadCommand @1 -\n2 run 1\nend\n",
    ),
    (
        b"file a.v\n.\n",
        b"refused 60 BadCommand @1 file\nrefused 60 BadCommand @2 .\nend\n",
    ),
    (b"edit\nend\n", b"1 edit\nend\n"),
    (b"edit\nend", b"1 edit\nend\n"),
    (b"edit\ntop top\n", b"refused 66 Unfinished @1 -\nend\n"),
    (
        b"run 1\nedit",
        b"1 run 1\nrefused 66 Unfinished @2 -\nend\n",
    ),
    (
        b"edit\nfile a.v\nend\n",
        b"refused 66 Unfinished @1 -\nend\n",
    ),
    (b"edit\nfile a.v\n.\nend\n", b"1 edit @2 file=a.v 0\nend\n"),
    (
        b"edit\n# c\n\ntop a\ntop b\nclock c\nfile a.v\n# t\r\n\n run\n..\n.\r\nload b/c-d_.v\nrename m.a m.b\ncreate m.g[0].r=1F\ndelete m.c\nend\nrun 2\n",
        b"1 edit top=b clock=c @7 file=a.v 13 @13 load=b/c-d_.v @14 rename=m from=a to=b @15 create=m reg=g[0].r 0:31 @16 delete=m reg=c\n18 run 2\nend\n",
    ),
    (
        b"edit\nrun 1\nfrob\nend\nrun 1\n",
        b"refused 60 BadCommand @2 run\n5 run 1\nend\n",
    ),
    (b"edit\nend x\nend\n", b"refused 60 BadCommand @2 -\nend\n"),
    (
        b"edit\nedit\nend\n",
        b"refused 60 BadCommand @2 edit\nend\n",
    ),
    (
        b"edit\nfrob\nfile\nend\n.\nend\nrun 3\n",
        b"refused 60 BadCommand @2 frob\n7 run 3\nend\n",
    ),
    (
        b"edit\ntop\nend\nedit\nclock a b\nend\n",
        b"refused 60 BadCommand @2 -\nrefused 60 BadCommand @5 -\nend\n",
    ),
    (
        b"edit\ntop 1x\nend\nedit\nclock a.b\nend\n",
        b"refused 61 BadValue @2 1x\nrefused 61 BadValue @5 a.b\nend\n",
    ),
    (
        b"edit\nfile a*b\n.\nend\n",
        b"refused 61 BadValue @2 a*b\nend\n",
    ),
    (
        b"edit\nfile a b\n.\nend\n",
        b"refused 60 BadCommand @2 -\nend\n",
    ),
    (
        b"edit\nload a$b\nend\n",
        b"refused 61 BadValue @2 a$b\nend\n",
    ),
    (
        b"edit\nload a\nfile a\n.\nend\n",
        b"refused 61 BadValue @3 a\nend\n",
    ),
    (
        b"edit\nfile a\n.\nload a\nend\n",
        b"refused 61 BadValue @4 a\nend\n",
    ),
    (
        b"edit\nload a\nload b\nload a\nend\n",
        b"refused 61 BadValue @4 a\nend\n",
    ),
    (
        b"edit\nrename a.b\nend\nedit\nrename a.b c.d e.f\nend\n",
        b"refused 60 BadCommand @2 -\nrefused 60 BadCommand @5 -\nend\n",
    ),
    (
        b"edit\nrename a.b c.d\nend\nedit\nrename a. a.b\nend\nedit\nrename a.b 1a.b\nend\n",
        b"refused 61 BadValue @2 c.d\nrefused 61 BadValue @5 a.\nrefused 61 BadValue @8 1a.b\nend\n",
    ),
    (
        b"edit\ncreate a.b\nend\nedit\ncreate a=1\nend\nedit\ncreate a.b=\nend\nedit\ncreate a.b=1 c\nend\n",
        b"refused 61 BadValue @2 a.b\nrefused 61 BadValue @5 a=1\nrefused 61 BadValue @8 a.b=\nrefused 60 BadCommand @11 -\nend\n",
    ),
    (
        b"edit\ndelete ab\nend\nedit\ndelete\nend\n",
        b"refused 61 BadValue @2 ab\nrefused 60 BadCommand @5 -\nend\n",
    ),
    (b"show a\r", b"1 show a\r\nend\n"),
];

#[test]
fn rows_are_read_in_pieces_of_any_length(rt: HostRuntime) -> Result<(), Fail> {
    let alloc = rt.alloc();
    for (script, expected) in ROWS {
        assert!(rt; in_pieces(alloc, script, 65_536)?.as_slice() == expected);
        assert!(rt; in_pieces(alloc, script, 1)?.as_slice() == expected);
        assert!(rt; in_pieces(alloc, script, 3)?.as_slice() == expected);
    }
    Ok(())
}

// Every command once.
const SCRIPT: &[u8] =
    b"# all\nedit\ntop t\nclock c\nfile a.v\nmodule t;\nend\n.\nload b.v\nrename t.a t.b\ncreate t.d=f\ndelete t.e\nend\nset a=1 b=2\nrun 5\nshow t.\nsettle 3\nstatus\nquit\n";

#[test]
fn a_script_may_be_cut_behind_each_byte(rt: HostRuntime) -> Result<(), Fail> {
    let alloc = rt.alloc();
    let whole = in_pieces(alloc, SCRIPT, 65_536)?;
    let expected =
        b"2 edit top=t clock=c @5 file=a.v 14 @9 load=b.v @10 rename=t from=a to=b @11 create=t reg=d 0:15 @12 delete=t reg=e\n14 set port=a 0:1 port=b 0:2\n15 run 5\n16 show t.\n17 settle 3\n18 status\n19 quit\nend\n";
    assert!(rt; whole.as_slice() == expected.as_slice());
    for cut in 0..SCRIPT.len() {
        let front = SCRIPT.split_at(cut).0;
        let slow = in_pieces(alloc, front, 1)?;
        let fast = in_pieces(alloc, front, 65_536)?;
        assert!(rt; slow.as_slice() == fast.as_slice());
    }
    Ok(())
}

#[test]
fn a_text_has_at_most_four_mebibytes(rt: HostRuntime) -> Result<(), Fail> {
    let alloc = rt.alloc();
    let mut script = Vec::from_slice(alloc, b"edit\nfile a\n")?;
    let line = vec![in alloc; b'x'; 4_194_303]?;
    script.extend_from_slice(&line)?;
    script.extend_from_slice(b"\n.\nend\n")?;
    let read = in_pieces(alloc, &script, 65_536)?;
    assert!(rt; read.as_slice() == b"1 edit @2 file=a 4194304\nend\n".as_slice());
    let mut script = Vec::from_slice(alloc, b"edit\nfile a\nx")?;
    script.extend_from_slice(&line)?;
    script.extend_from_slice(b"\n.\nfrob\nend\n")?;
    let read = in_pieces(alloc, &script, 65_536)?;
    assert!(rt; read.as_slice() == b"refused 10 TextTooLong @2 a\nend\n".as_slice());
    Ok(())
}

#[test]
fn a_stopped_reader_answers_the_same_again(rt: HostRuntime) -> Result<(), Fail> {
    let alloc = rt.alloc();
    let mut names = Names::new(alloc);
    let mut source = MemSource::new(Vec::from_slice(alloc, b"run 1\n")?, vec![in alloc; 1]?);
    let mut reader = Reader::new(alloc)?;
    assert!(rt;
        matches!(
            &reader.read_command(&mut names, &mut source),
            ReadEnd::Command(_)
        )
    );
    assert!(rt;
        matches!(
            &reader.read_command(&mut names, &mut source),
            ReadEnd::Fault
        )
    );
    assert!(rt;
        matches!(
            &reader.read_command(&mut names, &mut source),
            ReadEnd::Fault
        )
    );
    assert!(rt; reader.taken() == 6);
    Ok(())
}
