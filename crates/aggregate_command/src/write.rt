//! Writing to a sink.

ghost use Rattle.std.specs.Prelude.{OnOk, IsErrOf};
ghost use Rattle.std.specs.Io.KnownBytes.{Appends};
ghost use Rattle.mq_ports.specs.Causes.{Caused};
ghost use Rattle.aggregate_command.specs.Sent.{AppendsFront};

use mq_ports::{IoError, Sink};

/// Puts all the bytes, in as many pieces as the sink takes. After an error a front of them was taken.
pub fn put_all<O: Sink>(out: &mut O, bytes: &[u8]) -> Result<(), IoError>
    ensures all { OnOk result (Appends (O.taken out.old) (O.taken out.new) bytes.now) }
    ensures front { AppendsFront (O.taken out.old) (O.taken out.new) bytes.now }
    ensures cause { Caused (O.faults out.old) (O.faults out.new) (IsErrOf result IoError.Failed) }
{
    let mut at = 0;
    'pieces: while at < bytes.len() {
        at += out.put(&bytes[at..])?;
    }
    Ok(())
}
