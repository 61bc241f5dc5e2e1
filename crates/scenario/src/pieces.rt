//! Lines that are written piece by piece to a sink. They take no memory.
ghost use Rattle.std.specs.Prelude.{◌++◌};
ghost use Rattle.std.specs.Fmt.{decimal, signed_decimal};
ghost use Rattle.scenario.specs.Pieces.{Writes};

use itoa::Buffer;
use sim_base::{Sink, write_all_of};

/// The sink failed within a piece.
#[derive(Clone, Copy, Debug, PartialEq, Eq)]
pub struct Broken;

/// Writes these bytes, or a front of them where the sink fails.
pub fn write_piece<E: Sink>(sink: &mut E, piece: &[u8]) -> Result<(), Broken>
    ensures { Writes E.written E.faults sink.old sink.new result piece.now }
{
    write_all_of(sink, piece).map_err(|_| Broken)
}

fn write_number<E: Sink>(sink: &mut E, n: u64) -> Result<(), Broken>
    ensures { Writes E.written E.faults sink.old sink.new result (decimal n) }
{
    let mut buffer = Buffer::new();
    write_piece(sink, buffer.format(n).as_bytes())
}

pub(crate) fn write_signed<E: Sink>(sink: &mut E, n: i128) -> Result<(), Broken>
    ensures { Writes E.written E.faults sink.old sink.new result (signed_decimal n) }
{
    let mut buffer = Buffer::new();
    write_piece(sink, buffer.format(n).as_bytes())
}

/// Writes a label and a number, or a front of the two where the sink fails.
pub fn write_numbered<E: Sink>(sink: &mut E, label: &[u8], n: u64) -> Result<(), Broken>
    ensures { Writes E.written E.faults sink.old sink.new result (label.now ++ decimal n) }
{
    write_piece(sink, label)?;
    write_number(sink, n)
}
