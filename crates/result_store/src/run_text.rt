ghost use Rattle.std.specs.Prelude.{◌≡◌, ◌<◌, ◌≤◌, ◌++◌, length, IfOk, OnOk};
ghost use Rattle.std.specs.Fmt.{decimal, signed_decimal};
ghost use Rattle.std.specs.List.{flat_map};
ghost use Rattle.result_store.specs.Chains.{AreCovered, AreSeries, span_of};
ghost use Rattle.result_store.specs.Series.{rows_of_series};
ghost use Rattle.result_store.specs.Text.{end_line, ending_text, member_text, moment_text, row_line, series_text, text_of};

use crate::Rules;
use crate::chains::Chains;
use crate::pattern::SeriesName;
use itoa::Buffer;
use sim_base::{Ending, Items, Memory, Moment, Name, Row};
use sim_model::{Member, Results};
use std::alloc::Global;

/// How many bytes a sample's line has, as a rule.
const USUAL_LINE: usize = 32;

/// How many bytes the first and the last line have together, at most.
const ENDS: usize = 128;

fn add(text: &mut Vec<u8>, piece: &[u8]) -> Result<(), Memory>
    ensures { OnOk result (text.new.items ≡ text.old.items ++ piece.now) }
{
    text.extend_from_slice(piece)?;
    Ok(())
}

fn add_number(text: &mut Vec<u8>, n: u64) -> Result<(), Memory>
    ensures { OnOk result (text.new.items ≡ text.old.items ++ decimal n) }
{
    let mut buffer = Buffer::new();
    add(text, buffer.format(n).as_bytes())
}

fn add_signed(text: &mut Vec<u8>, n: i64) -> Result<(), Memory>
    ensures { OnOk result (text.new.items ≡ text.old.items ++ signed_decimal n) }
{
    let mut buffer = Buffer::new();
    add(text, buffer.format(n).as_bytes())
}

fn add_moment(text: &mut Vec<u8>, at: Moment) -> Result<(), Memory>
    ensures { OnOk result (text.new.items ≡ text.old.items ++ moment_text at) }
{
    add_number(text, at.tick)?;
    add(text, b",")?;
    add_number(text, u64::from(at.diasca))?;
    add(text, b",")
}

fn add_row(text: &mut Vec<u8>, actor: &Name, probe: &Name, row: Row) -> Result<(), Memory>
    ensures { OnOk result (text.new.items ≡ text.old.items ++ row_line actor.now probe.now row) }
{
    add_moment(text, row.at)?;
    add(text, actor.as_bytes())?;
    add(text, b",")?;
    add(text, probe.as_bytes())?;
    add(text, b",")?;
    add_signed(text, row.value)?;
    add(text, b"\n")
}

/// Adds the rows of one probe.
fn add_series(
    text: &mut Vec<u8>,
    chains: &Chains<'_>,
    member: &Member,
    n: usize,
    probe: &Name,
) -> Result<(), Memory>
    requires linked { AreSeries chains.now }
    requires covered { n < (span_of chains.now.spans.items member.now.id.0).len }
    ensures { OnOk result (text.new.items ≡ text.old.items ++ flat_map (row_line member.now.name probe.now) (rows_of_series member.now.id.0 n chains.now.rows.now)) }
{
    let mut at = chains.first_of(member.id, n);
    'rows: while at < chains.rows.len() {
        add_row(text, &member.name, probe, chains.rows[at])?;
        at = chains.next[at];
    }
    Ok(())
}

/// Adds the rows of one probe, if the rules keep its series.
fn add_kept(
    text: &mut Vec<u8>,
    rules: &Rules,
    chains: &Chains<'_>,
    member: &Member,
    n: usize,
    probe: &Name,
) -> Result<(), Memory>
    requires linked { AreSeries chains.now }
    requires covered { n < (span_of chains.now.spans.items member.now.id.0).len }
    ensures { OnOk result (text.new.items ≡ text.old.items ++ series_text rules.now chains.now.rows.now member.now n probe.now) }
{
    let series = SeriesName {
        actor: member.name.as_bytes(),
        probe: probe.as_bytes(),
    };
    if rules.keeps_series(&series) {
        add_series(text, chains, member, n, probe)?;
    }
    Ok(())
}

/// Adds the series of one actor.
fn add_member(
    text: &mut Vec<u8>,
    rules: &Rules,
    chains: &Chains<'_>,
    member: &Member,
) -> Result<(), Memory>
    requires linked { AreSeries chains.now }
    requires covered { length member.now.kind.probes ≤ (span_of chains.now.spans.items member.now.id.0).len }
    ensures { OnOk result (text.new.items ≡ text.old.items ++ member_text rules.now chains.now.rows.now member.now) }
{
    for (n, probe) in member.kind.get().probes.as_slice().iter().enumerate() {
        add_kept(text, rules, chains, member, n, probe)?;
    }
    Ok(())
}

fn add_cast(
    text: &mut Vec<u8>,
    rules: &Rules,
    chains: &Chains<'_>,
    cast: &[Member],
) -> Result<(), Memory>
    requires linked { AreSeries chains.now }
    requires covered { AreCovered chains.now.spans.items cast.now }
    ensures { OnOk result (text.new.items ≡ text.old.items ++ flat_map (member_text rules.now chains.now.rows.now) cast.now) }
{
    for member in cast {
        add_member(text, rules, chains, member)?;
    }
    Ok(())
}

fn add_ending(text: &mut Vec<u8>, ending: Ending) -> Result<(), Memory>
    ensures { OnOk result (text.new.items ≡ text.old.items ++ ending_text ending) }
{
    match ending {
        Ending::Exhausted => add(text, b"exhausted"),
        Ending::TickLimit => add(text, b"tick_limit"),
        Ending::DiascaLimit => add(text, b"diasca_limit"),
        Ending::Fault { actor, code } => {
            add(text, b"fault:")?;
            add_number(text, u64::from(actor.0))?;
            add(text, b":")?;
            add_number(text, u64::from(code))
        }
    }
}

/// Adds the last line of a run's text: the last moment, the ending and the dead letters. Err is want of
/// memory; a front of the line may then stand there.
pub fn add_end_line(text: &mut Vec<u8>, results: &Results) -> Result<(), Memory>
    ensures { OnOk result (text.new.items ≡ text.old.items ++ end_line results.now.last results.now.ending results.now.dead_letters) }
{
    add(text, b"end,")?;
    add_moment(text, results.last)?;
    add_ending(text, results.ending)?;
    add(text, b",")?;
    add_number(text, results.dead_letters)?;
    add(text, b"\n")
}

/// The text of a run: the header, then for each actor in the order of the cast and each of its probes
/// whose series the rules keep the samples in their order, then the end line. Err is want of memory.
#[tactic(auto, unfolding(crate::specs::Text::text_of))]
pub fn text(alloc: Global, results: &Results, rules: &Rules) -> Result<Items<u8>, Memory>
    ensures { IfOk result (λ t. t ≡ text_of rules.now results.now) }
{
    let rows = results.rows.as_slice();
    let cast = results.cast.as_slice();
    let chains = Chains::of(alloc, rows, cast)?;
    let room = rows.len().saturating_mul(USUAL_LINE).saturating_add(ENDS);
    let mut text = Vec::with_capacity(alloc, room)?;
    add(&mut text, b"tick,diasca,actor,probe,value\n")?;
    add_cast(&mut text, rules, &chains, cast)?;
    add_end_line(&mut text, results)?;
    Ok(Items::of(text))
}
