ghost use Rattle.std.specs.Prelude.{◌≡◌, ◌≤◌, length, take};

use crate::formatter_out::FormatterOut;
use crate::refusal_line::{write_field, write_place, write_refusal};
use sim_base::Name;
use std::alloc::{AllocError, AllocFailed};
use std::fmt;
use std::marker::Model;
use thiserror::Error;

const MOST: usize = 64;

/// The first 64 bytes of a field's name. Contracts see the list of its bytes.
#[derive(Drop, PartialEq, Eq)]
pub struct FieldText {
    bytes: [u8; MOST],
    len: usize,
}

impl Model for FieldText {
    ghost use Rattle.std.specs.Prelude.{◌≡◌, ◌-◌, ◌++◌, ◌≤◌, List, ℕ, drop, length, replicate, take};

    ghost Value = { List ℕ };

    ghost view = { λ t. take t.len t.bytes };

    ghost invariant = { λ t. (t.len ≤ 64) × (length t.bytes ≡ 64) × (drop t.len t.bytes ≡ replicate (64 - t.len) 0) };

    ghost inverse = { λ bytes. record { bytes = bytes ++ replicate (64 - length bytes) 0; len = length bytes } };

    ghost use Rattle.scenario.specs.FieldBytes.{fields_back};

    ghost inverse_ok = { fields_back };
}

impl FieldText {
    /// The first 64 bytes of this name.
    pub fn of(name: &[u8]) -> FieldText
        ensures { result ≡ take 64 name.now }
    {
        let len = MOST.min(name.len());
        let mut bytes = [0; MOST];
        bytes[..len].copy_from_slice(&name[..len]);
        FieldText { bytes, len }
    }

    /// The bytes, at most 64.
    pub fn as_bytes(&self) -> &[u8]
        ensures bytes { result.now ≡ self.now }
        ensures most { length result.now ≤ 64 }
    {
        &self.bytes[..self.len]
    }
}

impl fmt::Display for FieldText {
    /// The bytes, with `?` for each that isn't printable ASCII.
    fn fmt<W: fmt::Write>(&self, f: &mut fmt::Formatter<W>) -> fmt::Result {
        Ok(write_field(&mut FormatterOut::new(f), self)?)
    }
}

/// Where a check failed.
#[derive(Drop, PartialEq, Eq)]
pub struct Place {
    /// The actor's number; 0 for a field of the whole.
    pub actor: u32,
    /// The field; empty for an actor that is no object. The whole, where it is no object, is called
    /// `scenario`.
    pub field: FieldText,
}

impl fmt::Display for Place {
    /// The field of the whole; else `actor`, its number, and the field where it has a name.
    fn fmt<W: fmt::Write>(&self, f: &mut fmt::Formatter<W>) -> fmt::Result {
        Ok(write_place(&mut FormatterOut::new(f), self)?)
    }
}

/// Why a text is no scenario. The first check that fails, in the order of the format, is the refusal.
#[derive(Drop, PartialEq, Eq)]
pub enum Refusal {
    /// The bytes are no JSON text.
    NotJson,
    /// A field that has to be there isn't.
    Missing(Place),
    /// A value is of the wrong type.
    WrongType(Place),
    /// This whole number, or number of items, is outside the field's range.
    OutOfRange(Place, i128),
    /// This actor's name isn't 1 to 32 of `a` to `z`, `0` to `9` and `_`.
    BadName(u32),
    /// Two actors have this name.
    Twice(Name),
    /// This actor's kind is none that a scenario may name.
    UnknownKind(u32),
    /// A field that isn't one of the scenario's or of the actor's kind: the least such by bytes.
    UnknownField(Place),
    /// This field names no actor of the scenario.
    UnknownActor(Place),
    /// The rule with this number, counted from 1, is no rule.
    BadRule(u32),
    /// There are so many actors, more than the scenario allows.
    TooManyActors(u64),
}

impl fmt::Display for Refusal {
    /// What its line says, in the same pieces and without memory.
    fn fmt<W: fmt::Write>(&self, f: &mut fmt::Formatter<W>) -> fmt::Result {
        Ok(write_refusal(&mut FormatterOut::new(f), self)?)
    }
}

impl fmt::Debug for Refusal {
    fn fmt<W: fmt::Write>(&self, f: &mut fmt::Formatter<W>) -> fmt::Result {
        write!(f, "{self}")
    }
}

impl std::error::Error for Refusal {}

/// Why a text gave no scenario.
#[derive(Debug, Drop, Error)]
pub enum ScenarioFault {
    /// The text is none.
    #[error("{0}")]
    Refused(Refusal),
    /// A growth was refused; nothing is known of the text.
    #[error("no memory")]
    Memory,
}

impl From<Refusal> for ScenarioFault {
    ghost use Rattle.std.specs.Prelude.{◌≡◌};
    ghost use Rattle.scenario.specs.declared.refusal.ScenarioFault.TheVariants as fault;

    ghost from_gives = { λ refusal e. e ≡ fault.Refused refusal };

    fn from(refusal: Refusal) -> ScenarioFault {
        ScenarioFault::Refused(refusal)
    }
}

impl From<AllocError> for ScenarioFault {
    ghost use Rattle.std.specs.Prelude.{◌≡◌};
    ghost use Rattle.scenario.specs.declared.refusal.ScenarioFault.TheVariants as fault;

    ghost from_gives = { λ _ e. e ≡ fault.Memory };

    fn from(_: AllocError) -> ScenarioFault {
        ScenarioFault::Memory
    }
}

impl<T: Drop> From<AllocFailed<T>> for ScenarioFault {
    ghost use Rattle.std.specs.Prelude.{◌≡◌};
    ghost use Rattle.scenario.specs.declared.refusal.ScenarioFault.TheVariants as fault;

    ghost from_gives = { λ _ e. e ≡ fault.Memory };

    fn from(_: AllocFailed<T>) -> ScenarioFault {
        ScenarioFault::Memory
    }
}
