ghost use Rattle.std.specs.Prelude.{◌<◌};

use sim_base::{
    BytesIn, BytesOut, Gate, Items, Memory, NullOut, OpenGate, ReadFault, SteadyIn, read_all,
    write_all_of,
};
use std::process::Abort;
use std::test::Fail;

fn bytes(rt: &impl AllocGlobal, text: &[u8]) -> Result<Items<u8>, Fail> {
    Ok(Items::of(Vec::from_slice(rt.alloc(), text)?))
}

fn calls(rt: &impl AllocGlobal, numbers: &[u32]) -> Result<Items<u32>, Fail> {
    Ok(Items::of(Vec::from_slice(rt.alloc(), numbers)?))
}

/// So much is read of a source that gives at most so many bytes a call.
fn reads<R: Abort + AllocGlobal>(
    rt: &R,
    text: &[u8],
    cut: u32,
    limit: usize,
    want: Result<usize, ReadFault>,
) -> Result<(), Fail>
    requires { 0 < cut }
{
    let mut source = SteadyIn::new(bytes(rt, text)?, cut);
    let all = read_all(rt.alloc(), &mut source, limit).map(|all| all.len());
    assert_eq!(rt; all, want, "limit {limit}");
    Ok(())
}

#[test]
fn all_of_a_source_is_read(rt: HostRuntime) -> Result<(), Fail> {
    let alloc = rt.alloc();
    reads(&rt, b"abcdef", 4, 6, Ok(6))?;
    reads(&rt, b"abcdef", 1, 5, Err(ReadFault::TooLong))?;
    reads(&rt, b"", 4, 0, Ok(0))?;
    let mut failing = BytesIn::new(bytes(&rt, b"abcdef")?, 4, calls(&rt, &[2])?);
    let all = read_all(alloc, &mut failing, 9).map(|all| all.len());
    assert_eq!(rt; all, Err(ReadFault::Fault));
    let rest = read_all(alloc, &mut failing, 9).map_err(|_| Memory)?;
    assert_eq!(rt; rest.as_slice(), b"ef".as_slice());
    Ok(())
}

/// So much of a text is held by a sink with room for so many bytes that fails at this call.
fn writes<R: Abort + AllocGlobal>(
    rt: &R,
    room: usize,
    failing: u32,
    want: Result<(), usize>,
    held: &[u8],
) -> Result<(), Fail> {
    let mut out = BytesOut::new(rt.alloc(), room, 4, calls(rt, &[failing])?)?;
    assert_eq!(rt; write_all_of(&mut out, b"abcdef"), want);
    assert_eq!(rt; out.as_slice(), held);
    Ok(())
}

#[test]
fn all_of_a_text_is_written(rt: HostRuntime) -> Result<(), Fail> {
    writes(&rt, 9, 9, Ok(()), b"abcdef")?;
    writes(&rt, 9, 2, Err(4), b"abcd")?;
    writes(&rt, 5, 9, Err(5), b"abcde")?;
    assert_eq!(rt; write_all_of(&mut NullOut, b"abc"), Ok(()));
    OpenGate.pass(0, 0);
    Ok(())
}
