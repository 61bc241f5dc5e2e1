use sim_base::{ActorId, Ending, Moment, Name, Status};
use std::process::Abort;

/// Whether the text is a name.
fn is_read(rt: &impl Abort, text: &[u8], good: bool) {
    match Name::read(text) {
        Some(name) => assert!(rt; good && name.as_bytes() == text),
        None => assert!(rt; !good),
    }
}

#[test]
fn names_are_of_their_grammar(rt: HostRuntime) {
    is_read(&rt, b"c", true);
    is_read(&rt, b"a234567890_234567890_234567890_2", true);
    is_read(&rt, b"", false);
    is_read(&rt, b"a234567890_234567890_234567890_23", false);
    is_read(&rt, b"b-c", false);
    is_read(&rt, b"B", false);
    is_read(&rt, b"\xc3\xa4", false);
    assert_eq!(rt; Name::word("beats").as_bytes(), b"beats".as_slice());
    assert_eq!(rt;
        Name::born("refill", ActorId(4)).as_bytes(),
        b"refill-4".as_slice()
    );
    let last = Name::born("abcdefghij_123456789", ActorId(u32::MAX));
    assert_eq!(rt;
        last.as_bytes(),
        b"abcdefghij_123456789-4294967295".as_slice()
    );
}

#[test]
fn endings_have_their_exit_codes(rt: HostRuntime) {
    let fault = Ending::Fault {
        actor: ActorId(1),
        code: 41,
    };
    assert_eq!(rt; Status::of_ending(Ending::Exhausted).code(), 0);
    assert_eq!(rt; Status::InputFault.code(), 1);
    assert_eq!(rt; Status::OutputFault.code(), 2);
    assert_eq!(rt; Status::WordsRefused.code(), 3);
    assert_eq!(rt; Status::ScenarioRefused.code(), 4);
    assert_eq!(rt; Status::of_ending(fault).code(), 5);
    assert_eq!(rt; Status::of_ending(Ending::DiascaLimit).code(), 6);
    assert_eq!(rt; Status::NoMemory.code(), 7);
    assert_eq!(rt; Status::of_ending(Ending::TickLimit).code(), 0);
}

/// Whether the moment is before diasca 1 of tick 2.
fn is_before(rt: &impl Abort, tick: u64, diasca: u32, before: bool) {
    let at = Moment { tick, diasca };
    let than = Moment { tick: 2, diasca: 1 };
    assert_eq!(rt; at.is_before(than), before, "{tick} {diasca}");
}

#[test]
fn moments_have_their_order(rt: HostRuntime) {
    is_before(&rt, 1, 9, true);
    is_before(&rt, 2, 0, true);
    is_before(&rt, 2, 1, false);
    is_before(&rt, 3, 0, false);
}
