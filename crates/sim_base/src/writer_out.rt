ghost use Rattle.std.specs.Prelude.{◌≡◌, ◌<◌, None, length};
ghost use Rattle.sim_base.specs.Outside.{PutCause, PutsAtMost, PutsOnce, PutsTo};

use crate::{Put, Sink};
use std::io::{ErrorKind, Stderr, Stdout, Write};
use std::marker::Model;

/// A writer, as a sink. Each write is flushed. A write that a signal interrupted is made again; any
/// other error, a write of no byte and a refused flush are failures. After a refused flush the
/// writer may hold bytes of the piece, so a sink of this kind tells nothing of what was written.
#[derive(Drop)]
pub struct WriterOut<W: Write> {
    writer: W,
    faults: u64,
}

/// Standard output. It tells nothing of what it got.
pub type StdOut = WriterOut<Stdout>;

/// Standard error. It tells nothing of what it got.
pub type StdErr = WriterOut<Stderr>;

impl<W: Write> Model for WriterOut<W> {
    ghost use Rattle.sim_base.specs.Ends.{Outflow};

    ghost Value = { Outflow };

    ghost view = { λ s. record { held = W.contents s.writer; faults = s.faults } };
}

impl<W: Write> WriterOut<W> {
    /// A sink into this writer, with no failure yet.
    pub fn new(writer: W) -> WriterOut<W>
        ensures { result ≡ record { held = W.contents writer; faults = 0 } }
    {
        WriterOut { writer, faults: 0 }
    }
}

impl<W: Write> Sink for WriterOut<W> {
    ghost written = { λ _. None };

    ghost faults = { λ s. s.faults };

    fn put(&mut self, piece: &[u8]) -> Put
        requires { 0 < length piece.now }
        ensures count { PutsAtMost result piece.now }
        ensures bytes { PutsTo None None result piece.now }
        ensures held { PutsOnce self.old.held self.new.held result piece.now }
        ensures cause { PutCause self.old.faults self.new.faults result }
    {
        let put = put_into(&mut self.writer, piece);
        if put == Put::Failed {
            self.faults = self.faults.saturating_add(1);
        }
        put
    }
}

/// Writes once and flushes, and writes again where a signal interrupted it.
fn put_into<W: Write>(writer: &mut W, piece: &[u8]) -> Put
    ensures count { PutsAtMost result piece.now }
    ensures held { PutsOnce (W.contents writer.old) (W.contents writer.new) result piece.now }
{
    for _ in 0..u64::MAX {
        match writer.write(piece) {
            Ok(0) => return Put::Failed,
            Ok(count) => {
                return match writer.flush() {
                    Ok(()) => Put::Bytes(count),
                    Err(_) => Put::Failed,
                };
            }
            Err(e) if e.kind() == ErrorKind::Interrupted => {}
            Err(_) => return Put::Failed,
        }
    }
    Put::Failed
}
