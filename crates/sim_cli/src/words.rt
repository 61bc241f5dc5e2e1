use sim_base::{Items, Memory};
use std::alloc::Global;
use std::env::FillError;
use std::rt::Env;

/// Room for a word at the first try.
const ROOM: usize = 256;

/// The program's argument with this number, as raw bytes. One that is too long for the room is asked
/// for again with twice the room.
fn word<R: Env>(rt: &R, alloc: Global, number: usize) -> Result<Option<Items<u8>>, Memory> {
    let mut room = ROOM;
    'rooms: loop {
        let mut bytes = vec![in alloc; 0; room]?;
        match rt.arg(number, bytes.as_mut_slice()) {
            Ok(count) => {
                bytes.truncate(count);
                return Ok(Some(Items::of(bytes)));
            }
            Err(FillError::NotPresent) => return Ok(None),
            Err(FillError::TooLong) => room = room.checked_mul(2).ok_or(Memory)?,
        }
    }
}

/// The command words: all arguments but the program's name. Err is want of memory.
pub(crate) fn command_words<R: Env>(rt: &R, alloc: Global) -> Result<Vec<Items<u8>>, Memory> {
    let mut words = Vec::new(alloc);
    for number in 1..usize::MAX {
        match word(rt, alloc, number)? {
            Some(word) => words.push(word)?,
            None => break,
        }
    }
    Ok(words)
}
