//! The line of a refusal, written piece by piece.
ghost use Rattle.std.specs.Prelude.{◌≡◌, ◌++◌, codes, map};
ghost use Rattle.std.specs.Fmt.{signed_decimal};
ghost use Rattle.scenario.specs.Pieces.{Writes};
ghost use Rattle.scenario.specs.RefusalLine.{actor_text, field_text, place_text, refusal_text, scenario_line, shown};

use crate::pieces::{Broken, write_numbered, write_piece, write_signed};
use crate::refusal::{FieldText, Place, Refusal};
use sim_base::{Name, Sink};

/// A byte of a field's name, or `?` where it isn't printable ASCII.
fn shown(byte: u8) -> u8
    ensures { result ≡ shown byte }
{
    match byte {
        b' '..=b'~' => byte,
        _ => b'?',
    }
}

pub(crate) fn write_field<E: Sink>(sink: &mut E, field: &FieldText) -> Result<(), Broken>
    ensures { Writes E.written E.faults sink.old sink.new result (map shown field.now) }
{
    let bytes = field.as_bytes();
    let mut text = [0; 64];
    for (at, byte) in bytes.iter().enumerate() {
        text[at] = shown(*byte);
    }
    write_piece(sink, &text[..bytes.len()])
}

/// The field of an actor, where it has a name.
fn write_actor_field<E: Sink>(sink: &mut E, field: &FieldText) -> Result<(), Broken>
    ensures { Writes E.written E.faults sink.old sink.new result (field_text field.now) }
{
    if field.as_bytes().is_empty() {
        return Ok(());
    }
    write_piece(sink, b" ")?;
    write_field(sink, field)
}

fn write_actor<E: Sink>(sink: &mut E, place: &Place) -> Result<(), Broken>
    ensures { Writes E.written E.faults sink.old sink.new result (actor_text place.now.actor place.now.field) }
{
    write_numbered(sink, b"actor ", u64::from(place.actor))?;
    write_actor_field(sink, &place.field)
}

pub(crate) fn write_place<E: Sink>(sink: &mut E, place: &Place) -> Result<(), Broken>
    ensures { Writes E.written E.faults sink.old sink.new result (place_text place.now) }
{
    if place.actor == 0 {
        write_field(sink, &place.field)
    } else {
        write_actor(sink, place)
    }
}

/// A label, and the place that it is said of.
fn write_at<E: Sink>(sink: &mut E, label: &[u8], place: &Place) -> Result<(), Broken>
    ensures { Writes E.written E.faults sink.old sink.new result (label.now ++ place_text place.now) }
{
    write_piece(sink, label)?;
    write_place(sink, place)
}

fn write_out_of_range<E: Sink>(sink: &mut E, place: &Place, n: i128) -> Result<(), Broken>
    ensures { Writes E.written E.faults sink.old sink.new result (codes "out of range " ++ place_text place.now ++ codes " " ++ signed_decimal n) }
{
    write_at(sink, b"out of range ", place)?;
    write_piece(sink, b" ")?;
    write_signed(sink, n)
}

fn write_twice<E: Sink>(sink: &mut E, name: &Name) -> Result<(), Broken>
    ensures { Writes E.written E.faults sink.old sink.new result (codes "name twice " ++ name.now) }
{
    write_piece(sink, b"name twice ")?;
    write_piece(sink, name.as_bytes())
}

pub(crate) fn write_refusal<E: Sink>(sink: &mut E, refusal: &Refusal) -> Result<(), Broken>
    ensures { Writes E.written E.faults sink.old sink.new result (refusal_text refusal.now) }
{
    match refusal {
        Refusal::NotJson => write_piece(sink, b"not JSON"),
        Refusal::Missing(place) => write_at(sink, b"missing ", place),
        Refusal::WrongType(place) => write_at(sink, b"wrong type ", place),
        Refusal::OutOfRange(place, value) => write_out_of_range(sink, place, *value),
        Refusal::BadName(id) => write_numbered(sink, b"bad name of actor ", u64::from(*id)),
        Refusal::Twice(name) => write_twice(sink, name),
        Refusal::UnknownKind(id) => {
            write_numbered(sink, b"unknown kind of actor ", u64::from(*id))
        }
        Refusal::UnknownField(place) => write_at(sink, b"unknown field ", place),
        Refusal::UnknownActor(place) => write_at(sink, b"unknown actor ", place),
        Refusal::BadRule(number) => write_numbered(sink, b"bad rule ", u64::from(*number)),
        Refusal::TooManyActors(number) => write_numbered(sink, b"too many actors ", *number),
    }
}

/// Writes the line of a refused scenario: exactly its bytes, or a front of them where the sink fails.
pub fn write_scenario_line<E: Sink>(sink: &mut E, refusal: &Refusal) -> Result<(), Broken>
    ensures { Writes E.written E.faults sink.old sink.new result (scenario_line refusal.now) }
{
    write_piece(sink, b"scenario: ")?;
    write_refusal(sink, refusal)?;
    write_piece(sink, b"\n")
}
