ghost use Rattle.std.specs.Prelude.{◌≡◌, ◌+◌, ◌<◌, ◌≤◌, ◌++◌, [], ◌==◌, false, length, if◌then◌else◌, nat_lt, slice_get, slice_range, slice_set, OnOk};
ghost use Rattle.std.specs.List.{All};
ghost use Rattle.std.specs.Option.{option_map_or};
ghost use Rattle.sim_base.specs.declared.ids.ActorId.{ActorId};
ghost use Rattle.actor_trait.specs.InboxOrder.{in_order};
ghost use Rattle.inbox_order.specs.Inboxes.{inbox_of};
ghost use Rattle.inbox_store.specs.Letters.{list_of};
ghost use Rattle.sim_model.specs.Moment.{is_among};
ghost use Rattle.sim_model.specs.Setups.{Ascend};
ghost use Rattle.local_manager.specs.Mail.{IsAddressed, IsIndexed, IsOrdered};

use actor_trait::{Letter, Precedence};
use inbox_order::order_inbox;
use inbox_store::LetterStore;
use sim_base::{ActorId, Memory, Roomy};
use std::alloc::Global;

/// Where the letters to an actor stand among those of a moment, if the first of these is to it.
#[derive(Clone, Copy, Debug, PartialEq, Eq)]
pub struct Span {
    /// The place of the first.
    pub(crate) start: usize,
    /// The place behind the last.
    pub(crate) end: usize,
}

/// Whether the letter at a place is to this actor.
fn begins_at(letters: &[Letter], start: usize, to: ActorId) -> bool
    ensures { result ≡ option_map_or (λ l. l.to.0 == to.0) (slice_get letters.now start) false }
{
    match letters.get(start) {
        Some(letter) => letter.to.0 == to.0,
        None => false,
    }
}

/// The span that is kept for an actor.
fn span_of(spans: &[Span], to: ActorId) -> Option<Span>
    ensures { result ≡ slice_get spans.now to.0 }
{
    spans.get(to.0 as usize).copied()
}

/// The letters from a place up to another.
fn part(letters: &[Letter], start: usize, end: usize) -> &[Letter]
    requires ordered { start ≤ end }
    requires within { end ≤ length letters.now }
    ensures { result.now ≡ slice_range letters.now start end }
{
    &letters[start..end]
}

/// The letters to one. A span that isn't that of the present letters leads to none to its actor.
pub(crate) fn inbox_in<'a>(letters: &'a [Letter], spans: &[Span], to: ActorId) -> &'a [Letter]
    requires { IsIndexed letters.now spans.now }
    ensures { result.now ≡ inbox_of letters.now to }
{
    if letters.is_empty() {
        return &[];
    }
    let Some(span) = span_of(spans, to) else {
        return &[];
    };
    if begins_at(letters, span.start, to) {
        part(letters, span.start, span.end)
    } else {
        &[]
    }
}

/// Appends letters. Err is want of memory.
fn append(into: &mut Roomy<Letter>, letters: &[Letter]) -> Result<(), Memory>
    ensures { OnOk result (into.new.list ≡ into.old.list ++ letters.now) }
{
    into.reserve(letters.len())?;
    add_each(into, letters);
    Ok(())
}

fn add_each(into: &mut Roomy<Letter>, letters: &[Letter])
    requires { length letters.now ≤ into.old.spare }
    ensures { into.new.list ≡ into.old.list ++ letters.now }
{
    for letter in letters {
        into.add(*letter);
    }
}

/// Drains the list of one, in order, to the end of these letters. Err is want of memory.
fn drain_in_order(
    alloc: Global,
    store: &mut LetterStore,
    into: &mut Roomy<Letter>,
    to: ActorId,
    precedence: &Precedence<'_>,
) -> Result<(), Memory>
    ensures taken { OnOk result (into.new.list ≡ into.old.list ++ in_order precedence.now (list_of store.old to.0)) }
    ensures left { OnOk result ((id : ActorId) → list_of store.new id.0 ≡ (if id.0 == to.0 then [] else list_of store.old id.0)) }
{
    let mut part = Roomy::new(alloc);
    part.reserve(store.count_of(to))?;
    store.drain_of(to, &mut part);
    let ordered = order_inbox(alloc, part.into_items(), precedence)?;
    append(into, ordered.as_slice())
}

/// Drains the list of one as it stands to the end of these letters. Err is want of memory.
fn drain_as_is(store: &mut LetterStore, into: &mut Roomy<Letter>, to: ActorId) -> Result<(), Memory>
    ensures taken { OnOk result (into.new.list ≡ into.old.list ++ list_of store.old to.0) }
    ensures left { OnOk result ((id : ActorId) → list_of store.new id.0 ≡ (if id.0 == to.0 then [] else list_of store.old id.0)) }
{
    into.reserve(store.count_of(to))?;
    store.drain_of(to, into);
    Ok(())
}

/// Drains the list of one in the order of its inbox to the end of these letters. Only a list that a
/// birth letter joined is put in order. Err is want of memory.
fn open_box(
    alloc: Global,
    store: &mut LetterStore,
    into: &mut Roomy<Letter>,
    to: ActorId,
    creators: &[ActorId],
    precedence: &Precedence<'_>,
) -> Result<(), Memory>
    requires creators { Ascend creators.now }
    requires ordered { IsOrdered precedence.now creators.now store.old }
    ensures taken { OnOk result (into.new.list ≡ into.old.list ++ in_order precedence.now (list_of store.old to.0)) }
    ensures left { OnOk result ((id : ActorId) → list_of store.new id.0 ≡ (if id.0 == to.0 then [] else list_of store.old id.0)) }
{
    if contains(creators, to) {
        drain_in_order(alloc, store, into, to, precedence)
    } else {
        drain_as_is(store, into, to)
    }
}

/// Whether an actor is among these, which ascend.
pub(crate) fn contains(ids: &[ActorId], id: ActorId) -> bool
    requires { Ascend ids.now }
    ensures { result ≡ is_among ids.now id }
{
    ids.binary_search(&id).is_ok()
}

/// Keeps where the letters to an actor stand, if there are any.
fn keep_span(spans: &mut [Span], to: ActorId, start: usize, end: usize)
    requires { to.0 < length spans.old }
    ensures { spans.new ≡ (if nat_lt start end then slice_set spans.old to.0 (record { start = start; end = end }) else spans.old) }
{
    if start < end {
        spans[to.0 as usize] = Span { start, end };
    }
}

/// The lists of all these, each in the order of its inbox, take the place of the opened letters, and it is
/// kept where each inbox stands. Err is want of memory; some may be drained then.
fn open_boxes(
    alloc: Global,
    store: &mut LetterStore,
    opened: &mut Roomy<Letter>,
    spans: &mut [Span],
    called: &[ActorId],
    creators: &[ActorId],
    precedence: &Precedence<'_>,
) -> Result<(), Memory>
    requires called { All (λ id. id.0 < length spans.old) called.now }
    requires creators { Ascend creators.now }
    requires addressed { IsAddressed store.old }
    requires ordered { IsOrdered precedence.now creators.now store.old }
    ensures inboxes { OnOk result ((to : ActorId) → inbox_of opened.new.list to
        ≡ (if is_among called.now to then in_order precedence.now (list_of store.old to.0) else [])) }
    ensures left { OnOk result ((to : ActorId) → list_of store.new to.0 ≡ (if is_among called.now to then [] else list_of store.old to.0)) }
    ensures indexed { OnOk result (IsIndexed opened.new.list spans.new) }
{
    opened.clear();
    for to in called {
        let start = opened.len();
        open_box(alloc, store, opened, *to, creators, precedence)?;
        let end = opened.len();
        keep_span(spans, *to, start, end);
    }
    Ok(())
}

/// Makes room for the spans of so many actors. Err is want of memory, and changes nothing.
pub(crate) fn grow_spans(spans: &mut Vec<Span>, count: usize) -> Result<(), Memory>
    ensures { OnOk result (count ≤ length spans.new.items) }
{
    if spans.len() < count {
        spans.resize(count, Span { start: 0, end: 0 })?;
    }
    Ok(())
}

/// The lists of all these, each in the order of its inbox, take the place of the opened letters, and it is
/// kept where each inbox stands, for which there is room. Err is want of memory; some may be drained then.
pub(crate) fn open_all(
    alloc: Global,
    store: &mut LetterStore,
    opened: &mut Roomy<Letter>,
    spans: &mut Vec<Span>,
    called: &[ActorId],
    creators: &[ActorId],
    precedence: &Precedence<'_>,
) -> Result<(), Memory>
    requires called { All (λ id. id.0 < length spans.old.items) called.now }
    requires creators { Ascend creators.now }
    requires addressed { IsAddressed store.old }
    requires ordered { IsOrdered precedence.now creators.now store.old }
    ensures inboxes { OnOk result ((to : ActorId) → inbox_of opened.new.list to
        ≡ (if is_among called.now to then in_order precedence.now (list_of store.old to.0) else [])) }
    ensures left { OnOk result ((to : ActorId) → list_of store.new to.0 ≡ (if is_among called.now to then [] else list_of store.old to.0)) }
    ensures indexed { OnOk result (IsIndexed opened.new.list spans.new.items) }
{
    open_boxes(alloc, store, opened, spans, called, creators, precedence)
}
