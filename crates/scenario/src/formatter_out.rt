ghost use Rattle.std.specs.Prelude.{◌<◌, None, length};
ghost use Rattle.sim_base.specs.Outside.{PutCause, PutsAtMost, PutsTo};

use crate::pieces::Broken;
use sim_base::{Put, Sink};
use std::fmt;

/// A formatter, as a sink. It tells nothing of what it got. A piece that isn't UTF-8 is a failure.
#[derive(Drop)]
pub(crate) struct FormatterOut<'a, W: fmt::Write> {
    formatter: &'a mut fmt::Formatter<W>,
    faults: u64,
}

impl<'a, W: fmt::Write> FormatterOut<'a, W> {
    pub(crate) fn new(formatter: &'a mut fmt::Formatter<W>) -> FormatterOut<'a, W> {
        FormatterOut {
            formatter,
            faults: 0,
        }
    }
}

impl<'a, W: fmt::Write> Sink for FormatterOut<'a, W> {
    ghost written = { λ _. None };

    ghost faults = { λ s. s.faults };

    fn put(&mut self, piece: &[u8]) -> Put
        requires { 0 < length piece.now }
        ensures count { PutsAtMost result piece.now }
        ensures bytes { PutsTo None None result piece.now }
        ensures cause { PutCause self.old.faults self.new.faults result }
    {
        match put_text(self.formatter, piece) {
            Ok(()) => Put::Bytes(piece.len()),
            Err(_) => {
                self.faults = self.faults.saturating_add(1);
                Put::Failed
            }
        }
    }
}

fn put_text<W: fmt::Write>(formatter: &mut fmt::Formatter<W>, piece: &[u8]) -> fmt::Result {
    let text = str::from_utf8(piece).map_err(|_| fmt::Error)?;
    formatter.write_str(text)
}

impl From<Broken> for fmt::Error {
    fn from(_: Broken) -> fmt::Error {
        fmt::Error
    }
}
