ghost use Rattle.std.specs.Prelude.{◌≡◌, ◌<◌, ◌↔◌, List, [], length, map, Contains, IfOk, OnOk};
ghost use Rattle.std.specs.List.{flat_map};
ghost use Rattle.std.specs.List.Sorted.{IsNonDecreasingBy, IsPermutation, IsStrictlyIncreasing};
ghost use Rattle.sim_base.specs.declared.ids.ActorId.{ActorId};
ghost use Rattle.actor_trait.specs.InboxOrder.{AreDistinct};
ghost use Rattle.actor_trait.specs.declared.letter.Letter.{Letter};
ghost use Rattle.inbox_order.specs.Inboxes.{AreInboxesOf, inbox_of};

use crate::groups::{order_groups, sort_by_recipient};
use crate::index::Index;
use actor_trait::{Letter, Precedence};
use sim_base::{ActorId, Items, Memory};
use std::alloc::Global;
use std::marker::Model;
use std::mem;

/// The inboxes of all who have a letter. Contracts see the list of all letters, by recipient, each
/// inbox in its order.
#[derive(Drop)]
pub struct Inboxes {
    letters: Vec<Letter>,
    index: Index,
}

impl Model for Inboxes {
    ghost use Rattle.std.specs.Prelude.{List};
    ghost use Rattle.std.specs.List.Sorted.{IsNonDecreasingBy};
    ghost use Rattle.actor_trait.specs.declared.letter.Letter.{Letter};
    ghost use Rattle.inbox_order.specs.Index.{IsIndex};

    ghost Value = { List Letter };

    ghost view = { λ x. x.letters.items };

    ghost invariant = { λ x. IsNonDecreasingBy (λ l. l.to.0) x.letters.items
        × IsIndex x.letters.items x.index.recipients.items x.index.starts.items };
}

impl Inboxes {
    /// The inboxes that these letters make. No key is computed for a letter that stands alone in its
    /// inbox. Err is want of memory.
    pub fn of(
        alloc: Global,
        letters: &[Letter],
        precedence: &Precedence<'_>,
    ) -> Result<Inboxes, Memory>
        ensures inboxes { IfOk result (λ inboxes. AreInboxesOf inboxes letters.now precedence.now) }
        ensures by_recipient { IfOk result (λ inboxes. IsNonDecreasingBy (λ l. l.to.0) inboxes) }

        // The inboxes are the same in whatever order the letters came.
        ensures arrival { AreDistinct letters.now → (others : List Letter) → IsPermutation letters.now others
            → IfOk result (λ inboxes. AreInboxesOf inboxes others precedence.now) }
    {
        let mut inboxes = Inboxes::new(alloc);
        inboxes.renew(alloc, letters, precedence)?;
        Ok(inboxes)
    }

    /// No inboxes. They take no memory.
    pub fn new(alloc: Global) -> Inboxes
        ensures { result ≡ [] }
    {
        Inboxes {
            letters: Vec::new(alloc),
            index: Index::new(alloc),
        }
    }

    /// Makes the inboxes of these letters, as `of` does, in the room that is there. Err is want of memory;
    /// there may be no inboxes then.
    pub fn renew(
        &mut self,
        alloc: Global,
        letters: &[Letter],
        precedence: &Precedence<'_>,
    ) -> Result<(), Memory>
        ensures inboxes { OnOk result (AreInboxesOf self.new letters.now precedence.now) }
        ensures by_recipient { OnOk result (IsNonDecreasingBy (λ l. l.to.0) self.new) }
    {
        let mut all = self.take_room(alloc);
        all.extend_from_slice(letters)?;
        self.renew_with(alloc, all, precedence)
    }

    /// The room in which the letters stood; there are no inboxes then. It takes no memory.
    pub fn take_room(&mut self, alloc: Global) -> Vec<Letter>
        ensures none { self.new ≡ [] }
        ensures empty { result.items ≡ [] }
    {
        let mut letters = mem::replace(&mut self.letters, Vec::new(alloc));
        letters.clear();
        self.index.clear();
        letters
    }

    /// Makes the inboxes of letters that are handed over, as `of` does, without a copy of them, and with
    /// their index in the room that is there. Err is want of memory; there may be no inboxes then.
    pub fn renew_with(
        &mut self,
        alloc: Global,
        letters: Vec<Letter>,
        precedence: &Precedence<'_>,
    ) -> Result<(), Memory>
        ensures inboxes { OnOk result (AreInboxesOf self.new letters.items precedence.now) }
        ensures by_recipient { OnOk result (IsNonDecreasingBy (λ l. l.to.0) self.new) }
    {
        let Inboxes { letters: _, index } = mem::replace(self, Inboxes::new(alloc));
        *self = Inboxes::ordered(alloc, index, letters, precedence)?;
        Ok(())
    }

    /// The letters of all inboxes, by recipient, each inbox in its order.
    pub fn as_slice(&self) -> &[Letter]
        ensures letters { result.now ≡ self.now }
        ensures by_recipient { IsNonDecreasingBy (λ l. l.to.0) self.now }
    {
        &self.letters
    }

    /// Those who have a letter, ascending. The letters lie by recipient, too.
    pub fn recipients(&self) -> &[ActorId]
        ensures ascending { IsStrictlyIncreasing (map (λ r. r.0) result.now) }
        ensures each { (to : ActorId) → Contains result.now to ↔ (0 < length (inbox_of self.now to)) }
        ensures by_recipient { IsNonDecreasingBy (λ l. l.to.0) self.now }
    {
        &self.index.recipients
    }

    /// The letters to one, in order; none where it has none.
    pub fn inbox(&self, to: ActorId) -> &[Letter]
        ensures { result.now ≡ inbox_of self.now to }
    {
        self.inbox_near(0, to)
    }

    /// The letters to one, as `inbox` gives them. Whether it is the recipient at the place `near` is tried
    /// first, which spares the search of who goes through the recipients in order; any number is right.
    pub fn inbox_near(&self, near: usize, to: ActorId) -> &[Letter]
        ensures { result.now ≡ inbox_of self.now to }
    {
        let (start, end) = self.index.range(&self.letters, near, to);
        &self.letters[start..end]
    }

    /// The inboxes of all parts. Where a recipient stands in several, its letters follow one another in
    /// the order of the parts. Err is want of memory.
    pub fn join(alloc: Global, parts: Items<Inboxes>) -> Result<Inboxes, Memory>
        ensures inboxes { IfOk result (λ inboxes. (to : ActorId)
            → inbox_of inboxes to ≡ flat_map (λ part. inbox_of part to) parts) }
        ensures by_recipient { IfOk result (λ inboxes. IsNonDecreasingBy (λ l. l.to.0) inboxes) }
    {
        let mut all = all_letters(alloc, parts)?;
        sort_by_recipient(&mut all)?;
        Inboxes::indexed(Index::new(alloc), all)
    }

    /// The inboxes that these letters make, with their index in the room of this one. Err is want of memory.
    fn ordered(
        alloc: Global,
        index: Index,
        mut letters: Vec<Letter>,
        precedence: &Precedence<'_>,
    ) -> Result<Inboxes, Memory>
        ensures inboxes { IfOk result (λ inboxes. AreInboxesOf inboxes letters.items precedence.now) }
        ensures by_recipient { IfOk result (λ inboxes. IsNonDecreasingBy (λ l. l.to.0) inboxes) }
    {
        sort_by_recipient(&mut letters)?;
        order_groups(alloc, &mut letters, precedence)?;
        Inboxes::indexed(index, letters)
    }

    /// The inboxes of letters that stand by recipient, with their index in the room of this one.
    fn indexed(index: Index, letters: Vec<Letter>) -> Result<Inboxes, Memory>
        requires { IsNonDecreasingBy (λ l. l.to.0) letters.items }
        ensures same { IfOk result (λ inboxes. inboxes ≡ letters.items) }
        ensures by_recipient { IfOk result (λ inboxes. IsNonDecreasingBy (λ l. l.to.0) inboxes) }
    {
        let index = index.renewed(&letters)?;
        Ok(Inboxes { letters, index })
    }

    /// The letters, by recipient. It takes no memory.
    fn into_letters(self) -> Vec<Letter>
        ensures { result.items ≡ self }
    {
        let Inboxes { letters, index: _ } = self;
        letters
    }
}

/// The letters of all parts, one part after the other.
fn all_letters(alloc: Global, parts: Items<Inboxes>) -> Result<Vec<Letter>, Memory>
    ensures { IfOk result (λ all. all.items ≡ flat_map (λ part. part) parts) }
{
    let mut all = Vec::new(alloc);
    for part in parts.into_vec() {
        all.append(&mut part.into_letters())?;
    }
    Ok(all)
}
