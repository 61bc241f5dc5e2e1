ghost use Rattle.std.specs.Prelude.{◌≡◌, ◌<◌, ◌≤◌, List, ℕ, Option, length, IfErr, OnErr, OnOk};
ghost use Rattle.std.specs.Io.KnownBytes.{Appends};
ghost use Rattle.sim_base.specs.Outside.{one_more, PutCause, PutsAtMost, PutsFront, PutsTo};

/// What one call of `put` came to.
#[derive(Clone, Copy, Debug, PartialEq, Eq)]
pub enum Put {
    /// So many bytes of the piece were written, at least one.
    Bytes(usize),
    /// The sink failed, and nothing was written.
    Failed,
}

/// Where bytes go to.
pub trait Sink {
    /// The bytes that were written, where the sink tells them.
    ghost written: { Self → Option (List ℕ) };

    /// How often it has failed; the count stands still at the end of u64, and rises at a failure alone.
    ghost faults: { Self → ℕ };

    /// Writes some bytes from the front of a piece.
    fn put(&mut self, piece: &[u8]) -> Put
        requires { 0 < length piece.now }
        ensures count { PutsAtMost result piece.now }
        ensures bytes { PutsTo (written self.old) (written self.new) result piece.now }
        ensures cause { PutCause (faults self.old) (faults self.new) result };
}

/// Writes all of the bytes. Each call of `put` is handed the whole rest. Err says that the sink
/// failed, and how many bytes it had written by then.
pub fn write_all_of<O: Sink>(sink: &mut O, bytes: &[u8]) -> Result<(), usize>
    ensures ok { OnOk result (Appends (O.written sink.old) (O.written sink.new) bytes.now) }
    ensures err { IfErr result (λ n. PutsFront (O.written sink.old) (O.written sink.new) bytes.now n) }
    ensures part { IfErr result (λ n. n < length bytes.now) }
    ensures fault { OnErr result (O.faults sink.new ≡ one_more (O.faults sink.old)) }
    ensures no_fault { OnOk result (O.faults sink.new ≡ O.faults sink.old) }
    ensures later { O.faults sink.old ≤ O.faults sink.new }
{
    let mut at = 0;
    while at < bytes.len() {
        match sink.put(&bytes[at..]) {
            Put::Bytes(n) => at += n,
            Put::Failed => return Err(at),
        }
    }
    Ok(())
}
