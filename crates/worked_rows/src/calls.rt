//! Calls of the program in memory, from the words and the bytes of a scenario to what came of it.
use crate::rows::{ENDS, End, Ends, PLANS, Run};
use sim_base::{BytesIn, BytesOut, Gate, Items, OpenGate, Source, Status, Taken};
use sim_top::simulate;
use std::alloc::Global;
use std::process::Abort;
use std::test::Fail;
use std::thread::Threads;

pub(crate) fn bytes_of(alloc: Global, text: &str) -> Result<Items<u8>, Fail> {
    Ok(Items::of(text.as_bytes().to_vec(alloc)?))
}

fn words_of(alloc: Global, texts: &[&str]) -> Result<Vec<Items<u8>>, Fail> {
    let mut words = Vec::new(alloc);
    for text in texts {
        words.push(bytes_of(alloc, text)?)?;
    }
    Ok(words)
}

fn source(alloc: Global, bytes: Items<u8>, end: End) -> Result<BytesIn, Fail> {
    if end.cut == 0 {
        return Err(Fail::from("no cut"));
    }
    let fails = Items::of(vec![in alloc; end.failing; 1]?);
    Ok(BytesIn::new(bytes, end.cut, fails))
}

/// A sink with much room.
fn sink(alloc: Global, end: End) -> Result<BytesOut, Fail> {
    if end.cut == 0 {
        return Err(Fail::from("no cut"));
    }
    let fails = Items::of(vec![in alloc; end.failing; 1]?);
    Ok(BytesOut::new(alloc, 4000, end.cut, fails)?)
}

/// What a call came to.
#[derive(Drop)]
pub(crate) struct Came {
    pub(crate) status: Status,
    pub(crate) rounds: [u64; 3],
    pub(crate) input: BytesIn,
    pub(crate) output: BytesOut,
    pub(crate) error: BytesOut,
}

impl Came {
    /// Whether the call came to this status, this output, and this on the error sink.
    pub(crate) fn is(&self, status: Status, output: &str, error: &str) -> bool {
        self.status == status
            && self.output.as_slice() == output.as_bytes()
            && self.error.as_slice() == error.as_bytes()
    }
}

pub(crate) fn call<R: AllocGlobal + Sync + Threads, G: Gate + Sync>(
    rt: &R,
    words: &[&str],
    input: Items<u8>,
    ends: Ends,
    gate: &G,
) -> Result<Came, Fail> {
    let alloc = rt.alloc();
    let words = words_of(alloc, words)?;
    let mut input = source(alloc, input, ends.input)?;
    let mut output = sink(alloc, ends.output)?;
    let mut error = sink(alloc, ends.error)?;
    let words = words.as_slice();
    let ran = simulate(rt, alloc, words, &mut input, &mut output, &mut error, gate);
    Ok(Came {
        status: ran.status,
        rounds: ran.rounds.numbers(),
        input,
        output,
        error,
    })
}

/// How many bytes are left in the input, of at most 256.
pub(crate) fn left(input: &mut BytesIn) -> usize {
    match input.take(&mut [0; 256]) {
        Taken::Bytes(count) => count,
        Taken::Failed => usize::MAX,
    }
}

/// The scenario comes to this under these words, and nothing is told on the error sink.
pub(crate) fn comes_to<R: Abort + AllocGlobal + Sync + Threads>(
    rt: &R,
    words: &[&str],
    run: &Run<'_>,
) -> Result<(), Fail> {
    let input = bytes_of(rt.alloc(), run.scenario)?;
    let came = call(rt, words, input, ENDS, &OpenGate)?;
    let is_so = came.is(run.status, run.text, "") && came.rounds == run.rounds;
    assert!(rt; is_so, "{words:?} {}", run.scenario);
    Ok(())
}

/// The run of the scenario comes to this without options, and by few and many workers and managers.
pub(crate) fn runs_to<R: Abort + AllocGlobal + Sync + Threads>(
    rt: &R,
    run: &Run<'_>,
) -> Result<(), Fail> {
    comes_to(rt, &["run"], run)?;
    for &(workers, managers) in &PLANS {
        comes_to(
            rt,
            &["run", "--workers", workers, "--managers", managers],
            run,
        )?;
    }
    Ok(())
}
