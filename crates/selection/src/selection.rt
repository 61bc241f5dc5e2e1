ghost use Rattle.std.specs.Prelude.{◌≡◌, ◌++◌, IfOk, OnOk};
ghost use Rattle.sim_model.specs.Cast.{members_from};
ghost use Rattle.selection.specs.Selecting.{RunTextStays, Selects, flags_of};

use actor_trait::Actor;
use probes::Sieve;
use result_store::Rules;
use sim_base::{ActorId, Memory};
use sim_model::{Setup, Start};
use std::alloc::Global;
use std::marker::Model;

/// The flags of an actor: so many from `start` on, one for each probe.
#[derive(Clone, Copy)]
pub(crate) struct Span {
    pub(crate) start: usize,
    pub(crate) len: usize,
}

/// Which samples of a run may stand in its text, by the rules that select series: for each actor that is
/// there from the start a flag a probe, so that patterns are matched once a series and not once a row.
#[derive(Drop)]
pub struct Selection {
    /// By actor: the places of its flags. The first is that of number 0, which is nobody's.
    spans: Vec<Span>,
    /// Whether the series is kept.
    flags: Vec<bool>,
}

impl Model for Selection {
    ghost use Rattle.std.specs.Prelude.{length};
    ghost use Rattle.selection.specs.SelectionParts.{AreWithin, SelectionParts};

    ghost Value = { SelectionParts };

    ghost view = { λ s. record { spans = s.spans.items; flags = s.flags.items } };

    ghost invariant = { λ s. AreWithin s.spans.items (length s.flags.items) };
}

impl Sieve for Selection {
    ghost use Rattle.selection.specs.SelectionParts.{may_show};

    ghost keeps = { may_show };

    /// Whether a sample of this actor and this probe may stand in the text. It may where nothing is
    /// known of the actor or of the probe.
    fn keeps(&self, actor: ActorId, probe: u32) -> bool {
        let Some(span) = self.spans.get(actor.0 as usize) else {
            return true;
        };
        let probe = probe as usize;
        if probe < span.len {
            self.flags[span.start + probe]
        } else {
            true
        }
    }
}

impl Selection {
    /// The samples that may stand in the text of a run of this setup: those of the series that the rules
    /// keep, and all of whoever is born in it. Err is want of memory.
    pub fn of<A: Actor>(alloc: Global, rules: &Rules, setup: &Setup<A>) -> Result<Selection, Memory>
        ensures selects { IfOk result (λ s. Selects rules.now (members_from A.meaning 1 setup.now.actors) s) }
        ensures text { IfOk result (λ s. RunTextStays A.meaning setup.now rules.now s) }
    {
        let starts = setup.actors.as_slice();
        let mut spans = Vec::with_capacity(alloc, starts.len() + 1)?;
        let mut flags = Vec::new(alloc);
        spans.push(Span { start: 0, len: 0 })?;
        for start in starts {
            let first = flags.len();
            add_flags(&mut flags, rules, start)?;
            spans.push(Span {
                start: first,
                len: flags.len() - first,
            })?;
        }
        Ok(Selection { spans, flags })
    }
}

/// Appends for each probe of an actor whether its series is kept.
fn add_flags<A: Actor>(flags: &mut Vec<bool>, rules: &Rules, start: &Start<A>) -> Result<(), Memory>
    ensures { OnOk result (flags.new.items ≡ flags.old.items ++ flags_of rules.now start.now.name (A.meaning.probes start.now.state)) }
{
    for n in 0..start.state.probes() {
        flags.push(rules.keeps(&start.name, start.state.probe(n)))?;
    }
    Ok(())
}
