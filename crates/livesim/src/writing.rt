// Writing replies.
ghost use Rattle.std.specs.Prelude.{◌≡◌, ◌⊎◌, OnOk, IsErrOf};
ghost use Rattle.std.specs.Io.KnownBytes.{Appends};
ghost use Rattle.ls_port.specs.Causes.{Rose};
ghost use Rattle.livesim.specs.Writing.{Writes};

use ls_port::{Sink, SinkRefusal};

/// Writes all the bytes, or a front of them where the sink refuses.
pub fn write_all<K: Sink>(sink: &mut K, bytes: &[u8]) -> Result<(), SinkRefusal>
    ensures written { OnOk result (Appends (K.written sink.old) (K.written sink.new) bytes.now) }
    ensures front { Writes (K.written sink.old) (K.written sink.new) bytes.now }
    ensures once { (K.faults sink.new ≡ K.faults sink.old) ⊎ Rose (K.faults sink.old) (K.faults sink.new) }
    ensures failed { IsErrOf result SinkRefusal.Failed → Rose (K.faults sink.old) (K.faults sink.new) }
    ensures kept { OnOk result (K.faults sink.new ≡ K.faults sink.old) }
    ensures full { IsErrOf result SinkRefusal.NoMemory → K.faults sink.new ≡ K.faults sink.old }
{
    let mut rest = bytes;
    while !rest.is_empty() {
        let n = sink.write(rest)?;
        rest = &rest[n..];
    }
    Ok(())
}
