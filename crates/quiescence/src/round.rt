ghost use Rattle.std.specs.Prelude.{◌≡◌, ◌≤◌, ◌<◌, []};
ghost use Rattle.quiet_core.specs.Rows.{put_pair};
ghost use Rattle.quiet_core.specs.Account.{knows, managers, parent, posts, reported, root, scheduled, told};
ghost use Rattle.quiet_core.specs.Step.{May, becomes, change, down, place, put_mark, stays, united, up};
ghost use Rattle.quiet_core.specs.Balance.{Sized};
ghost use Rattle.quiescence.specs.Rule.{Did, Plays, Stands};
ghost use Rattle.quiescence.specs.Answers.{Happened, Holds, IsAfter, IsClaim, IsFirstTurn, IsHigher, IsOwnTurn, IsPost, IsTurn, Took, acked_more, found_at, found_by, holding, relieved};
ghost use Rattle.quiescence.specs.Learnt.{Disjoint, Learnt};

use crate::answers::{After, Claim, Turn};
use crate::hand::Hand;
use crate::rule::{Balanced, Does, Picked, Sees, Sight, Unites};
use atomic_table::{Seat, Table};
use quiet_core::{Deed, Frame};
use sim_base::{ManagerId, NodeId};
use std::alloc::Global;
use std::marker::{Brand, Model};

/// A round that hands work on: the words of the counters, which threads share. Contracts see which
/// round it is and its shape: how many actors are scheduled at each manager, the parent of each node
/// of the tree, and how many hands there are.
#[derive(Drop)]
pub struct Round {
    pub(crate) table: Table<(), Sight, Frame, Balanced, Global>,
    pub(crate) frame: Frame,
    // As wide as the table: the words at the opening, and at the end those that are left.
    pub(crate) words: Vec<u64>,
}

impl Model for Round {
    ghost use Rattle.std.specs.Prelude.{◌≡◌, ◌≤◌, length};
    ghost use Rattle.quiescence.specs.Rule.{RoundId};
    ghost use Rattle.quiet_core.specs.Step.{word_count};
    ghost use Rattle.quiet_core.specs.Balance.{Sized};

    ghost Value = { RoundId };

    ghost view = { λ r. record { table = r.table.shared.table_id; shape = r.frame } };

    ghost invariant = { λ r. (r.table.shared.key ≡ r.frame)
        × (r.table.shared.table_id.words ≡ word_count r.frame)
        × Sized r.frame
        × (r.table.shared.table_id.slots ≡ 0)
        × (length r.words.items ≡ word_count r.frame)
        × (1 ≤ r.frame.hands) };
}

impl Round {
    /// How many managers there are: 1 to 16. A caller learns here that the shape is within the limits
    /// of a round, and that a node's parent has a greater number than the node.
    pub fn managers(&self) -> usize
        ensures managers { result ≡ managers self.now.shape }
        ensures sized { Sized self.now.shape }
    {
        self.frame.managers()
    }

    /// How many actors are scheduled at a manager.
    pub fn scheduled(&self, m: ManagerId) -> u32
        requires { m.0 < managers self.now.shape }
        ensures { result ≡ scheduled self.now.shape m.0 }
    {
        self.frame.scheduled(m.0)
    }

    /// How many hands the round was opened with.
    pub fn hands(&self) -> u32
        ensures { result ≡ self.now.shape.hands }
    {
        self.frame.hands()
    }

    // A fetch-and-add.
    fn add<E: Picked>(&self, seat: &mut Seat<(), Sight>, word: usize, k: u64, deed: Deed) -> u64
        requires picked { (E.shape ≡ self.now.shape) × (E.deed ≡ deed) }
        requires of { seat.old.table_id ≡ self.now.table }
        requires word { word ≡ place self.now.shape deed }
        requires change { change deed ≡ up k }
        requires may { May self.now.shape deed seat.old.me.0.account }
        ensures of { seat.new.table_id ≡ seat.old.table_id }
        ensures plays { Plays self.now.shape deed seat.old.me result seat.new.me }
    {
        let _ = deed;
        self.table.shared.fetch_add::<Does<E>>(seat, word, k)
    }

    // A fetch-and-subtract.
    fn sub<E: Picked>(&self, seat: &mut Seat<(), Sight>, word: usize, k: u64, deed: Deed) -> u64
        requires picked { (E.shape ≡ self.now.shape) × (E.deed ≡ deed) }
        requires of { seat.old.table_id ≡ self.now.table }
        requires word { word ≡ place self.now.shape deed }
        requires change { change deed ≡ down k }
        requires may { May self.now.shape deed seat.old.me.0.account }
        ensures of { seat.new.table_id ≡ seat.old.table_id }
        ensures plays { Plays self.now.shape deed seat.old.me result seat.new.me }
    {
        let _ = deed;
        self.table.shared.fetch_sub::<Does<E>>(seat, word, k)
    }

    // A swap.
    fn set<E: Picked>(&self, seat: &mut Seat<(), Sight>, word: usize, value: u64, deed: Deed) -> u64
        requires picked { (E.shape ≡ self.now.shape) × (E.deed ≡ deed) }
        requires of { seat.old.table_id ≡ self.now.table }
        requires word { word ≡ place self.now.shape deed }
        requires change { change deed ≡ becomes value }
        requires may { May self.now.shape deed seat.old.me.0.account }
        ensures of { seat.new.table_id ≡ seat.old.table_id }
        ensures plays { Plays self.now.shape deed seat.old.me result seat.new.me }
    {
        let _ = deed;
        self.table.shared.swap::<Does<E>>(seat, word, value)
    }

    // A load.
    fn read<E: Picked>(&self, seat: &mut Seat<(), Sight>, word: usize, deed: Deed) -> u64
        requires picked { (E.shape ≡ self.now.shape) × (E.deed ≡ deed) }
        requires of { seat.old.table_id ≡ self.now.table }
        requires word { word ≡ place self.now.shape deed }
        requires change { change deed ≡ stays }
        requires may { May self.now.shape deed seat.old.me.0.account }
        ensures of { seat.new.table_id ≡ seat.old.table_id }
        ensures plays { Plays self.now.shape deed seat.old.me result seat.new.me }
    {
        let _ = deed;
        self.table.shared.load::<Does<E>>(seat, word)
    }

    // What became of a node whose word is now `left`.
    fn after(&self, node: u32, left: u64) -> After
        requires { node ≤ root self.now.shape }
        ensures { IsAfter self.now.shape node left result }
    {
        if left > 0 {
            After::Left(left)
        } else if node as usize == self.frame.root() {
            After::Root
        } else {
            After::Duty(NodeId(node))
        }
    }

    /// Takes the next actor of a manager, for a hand that doesn't collect and hasn't found the manager
    /// exhausted. Adds 1 to the claims of the manager.
    pub fn claim(&self, hand: &mut Hand, m: ManagerId) -> Claim
        requires of { hand.old.round ≡ self.now }
        requires may { May self.now.shape (Deed.Claim m.0) hand.old.account }
        ensures of { hand.new.round ≡ self.now }
        ensures event { Did self.now.shape (Deed.Claim m.0) hand.old.account (found_by result) hand.new.account }
        ensures claim { IsClaim self.now.shape m.0 hand.old.account result hand.new.account }
        ensures learnt { Learnt self.now.shape hand.new.account }
    {
        let word = self.frame.claim_at(m.0);
        let found = self.add::<Brand>(&mut hand.seat, word, 1, Deed::Claim { m: m.0 });
        if found < self.frame.scheduled(m.0) as u64 {
            Claim::Claimed(found as u32)
        } else {
            Claim::Exhausted(found)
        }
    }

    /// Announces `n` letters, 1 to 1,024, of an actor that the hand has claimed and of which nothing
    /// was announced. Adds `n` to the word of the manager.
    pub fn raise(&self, hand: &mut Hand, m: ManagerId, i: u32, n: u32)
        requires of { hand.old.round ≡ self.now }
        requires may { May self.now.shape (Deed.Raise m.0 i n) hand.old.account }
        ensures of { hand.new.round ≡ self.now }
        ensures event { Happened self.now.shape (Deed.Raise m.0 i n) hand.old.account hand.new.account }
        ensures raised { hand.new.account ≡ put_mark hand.old.account m.0 i (told n) }
        ensures learnt { Learnt self.now.shape hand.new.account }
    {
        let deed = Deed::Raise { m: m.0, i, n };
        self.add::<Brand>(&mut hand.seat, m.0 as usize, n as u64, deed);
    }

    /// Issues `n` of the letters that were announced and not posted to actors of the manager `to`.
    /// Adds `n` to the word of the pair of managers.
    pub fn post(&self, hand: &mut Hand, m: ManagerId, i: u32, to: ManagerId, n: u32)
        requires of { hand.old.round ≡ self.now }
        requires may { May self.now.shape (Deed.Post m.0 i to.0 n) hand.old.account }
        ensures of { hand.new.round ≡ self.now }
        ensures event { Happened self.now.shape (Deed.Post m.0 i to.0 n) hand.old.account hand.new.account }
        ensures posted { IsPost m.0 i to.0 n hand.old.account hand.new.account }
        ensures known { posts hand.new.account m.0 to.0 ≤ knows hand.new.account m.0 to.0 }
        ensures learnt { Learnt self.now.shape hand.new.account }
    {
        let word = self.frame.issued_at(m.0, to.0);
        let deed = Deed::Post {
            m: m.0,
            i,
            to: to.0,
            n,
        };
        self.add::<Brand>(&mut hand.seat, word, n as u64, deed);
    }

    /// Reports an actor that the hand has claimed and that has nothing left to post. Takes 1 from the
    /// word of the manager.
    pub fn done(&self, hand: &mut Hand, m: ManagerId, i: u32) -> After
        requires of { hand.old.round ≡ self.now }
        requires may { May self.now.shape (Deed.Done m.0 i) hand.old.account }
        ensures of { hand.new.round ≡ self.now }
        ensures event { Took self.now.shape (Deed.Done m.0 i) 1 hand.old.account result hand.new.account }
        ensures done { hand.new.account ≡ holding result (put_mark hand.old.account m.0 i reported) }
        ensures holds { Holds self.now.shape result hand.new.account }
        ensures within { i < scheduled self.now.shape m.0 }
        ensures learnt { Learnt self.now.shape hand.new.account }
    {
        let deed = Deed::Done { m: m.0, i };
        let found = self.sub::<Brand>(&mut hand.seat, m.0 as usize, 1, deed);
        hand.reported += 1;
        self.after(m.0, found - 1)
    }

    /// Becomes the one who collects the letters to a manager's actors, if nobody is. Sets the word of
    /// the collector to 1.
    pub fn collect(&self, hand: &mut Hand, to: ManagerId) -> Turn
        requires of { hand.old.round ≡ self.now }
        requires may { May self.now.shape (Deed.Collect to.0) hand.old.account }
        ensures of { hand.new.round ≡ self.now }
        ensures event { Did self.now.shape (Deed.Collect to.0) hand.old.account (found_at result) hand.new.account }
        ensures turn { IsTurn self.now.shape to.0 hand.old.account result hand.new.account }
        ensures first { IsFirstTurn to.0 hand.old.account result }
        ensures own { hand.old.account.weight ≡ self.now.shape.hands → IsOwnTurn to.0 hand.old.account result }
        ensures learnt { Learnt self.now.shape hand.new.account }
    {
        let word = self.frame.coll_at(to.0);
        let deed = Deed::Collect { to: to.0 };
        let found = self.set::<Brand>(&mut hand.seat, word, 1, deed);
        if found == 0 { Turn::Yours } else { Turn::Taken }
    }

    /// Learns how many letters were issued from one manager to another: at least as many as the hand
    /// knew of, and as it posted itself. Reads the word of the pair of managers.
    pub fn look(&self, hand: &mut Hand, m: ManagerId, to: ManagerId) -> u64
        requires of { hand.old.round ≡ self.now }
        requires may { May self.now.shape (Deed.Look m.0 to.0) hand.old.account }
        ensures of { hand.new.round ≡ self.now }
        ensures event { Did self.now.shape (Deed.Look m.0 to.0) hand.old.account result hand.new.account }
        ensures known { hand.new.account ≡ record hand.old.account { known = put_pair hand.old.account.known m.0 to.0 result } }
        ensures not_less { knows hand.old.account m.0 to.0 ≤ result }
        ensures own { posts hand.old.account m.0 to.0 ≤ result }
        ensures learnt { Learnt self.now.shape hand.new.account }
    {
        let pair = self.frame.issued_at(m.0, to.0);
        let deed = Deed::Look { m: m.0, to: to.0 };
        self.read::<Brand>(&mut hand.seat, pair, deed)
    }

    /// Acknowledges `n` letters from `m` to `to`, for the hand that collects for `to`: no more than it
    /// knows of, or posted itself. Takes `n` from the word of the manager `m`.
    pub fn ack(&self, hand: &mut Hand, m: ManagerId, to: ManagerId, n: u64) -> After
        requires of { hand.old.round ≡ self.now }
        requires may { May self.now.shape (Deed.Ack m.0 to.0 n) hand.old.account }
        ensures of { hand.new.round ≡ self.now }
        ensures event { Took self.now.shape (Deed.Ack m.0 to.0 n) n hand.old.account result hand.new.account }
        ensures acked { hand.new.account ≡ holding result (acked_more m.0 to.0 n hand.old.account) }
        ensures holds { Holds self.now.shape result hand.new.account }
        ensures learnt { Learnt self.now.shape hand.new.account }
    {
        let deed = Deed::Ack {
            m: m.0,
            to: to.0,
            n,
        };
        let found = self.sub::<Brand>(&mut hand.seat, m.0 as usize, n, deed);
        hand.acked += n;
        self.after(m.0, found - n)
    }

    // The node to which a climb leads.
    fn above(&self, node: NodeId) -> NodeId
        requires { node.0 < root self.now.shape }
        ensures { result.0 ≡ parent self.now.shape node.0 }
    {
        NodeId(self.frame.parent(node.0))
    }

    /// Passes the duty that the hand holds at a node on to the node's parent. Takes 1 from the word
    /// of the parent.
    pub fn climb(&self, hand: &mut Hand, node: NodeId) -> After
        requires of { hand.old.round ≡ self.now }
        requires may { May self.now.shape (Deed.Climb node.0) hand.old.account }
        ensures of { hand.new.round ≡ self.now }
        ensures event { Took self.now.shape (Deed.Climb node.0) 1 hand.old.account result hand.new.account }
        ensures climbed { hand.new.account ≡ holding result (relieved node.0 hand.old.account) }
        ensures holds { Holds self.now.shape result hand.new.account }
        ensures below { node.0 < root self.now.shape }
        ensures higher { IsHigher node.0 result }
        ensures learnt { Learnt self.now.shape hand.new.account }
    {
        let seat = &mut hand.seat;
        let above = self.above(node).0;
        let deed = Deed::Climb { node: node.0 };
        let found = self.sub::<Brand>(seat, above as usize, 1, deed);
        self.after(above, found - 1)
    }

    // A load that changes nothing, and shows that the account stands in the round.
    fn see(&self, seat: &mut Seat<(), Sight>)
        requires of { seat.old.table_id ≡ self.now.table }
        requires shape { seat.old.me.0.shape ≡ self.now.shape }
        ensures of { seat.new.table_id ≡ seat.old.table_id }
        ensures same { seat.new.me ≡ seat.old.me }
        ensures stands { Stands self.now.shape seat.new.me.0.account }
    {
        self.table.shared.load::<Sees>(seat, 0);
    }

    // One seat takes in the account of another.
    fn join<E: Picked>(&self, seat: &mut Seat<(), Sight>, from: Seat<(), Sight>)
        requires picked { E.shape ≡ self.now.shape }
        requires of { (seat.old.table_id ≡ self.now.table) × (from.table_id ≡ self.now.table) }
        requires no_slot { from.me.1 ≡ [] }
        requires has_weight { 1 ≤ seat.old.me.0.account.weight }
        ensures of { seat.new.table_id ≡ seat.old.table_id }
        ensures joined { seat.new.me ≡ (record seat.old.me.0 { account = united seat.old.me.0.account from.me.0.account }, seat.old.me.1) }
    {
        self.table.shared.join_seat::<Unites<E>>(seat, from);
    }

    /// Takes in the account and the weight of another hand, which is gone then.
    pub fn unite(&self, hand: &mut Hand, from: Hand)
        requires of { (hand.old.round ≡ self.now) × (from.round ≡ self.now) }
        ensures joined { hand.new ≡ record hand.old { account = united hand.old.account from.account } }
        ensures apart { Disjoint self.now.shape hand.old.account from.account }
        ensures learnt { Learnt self.now.shape hand.new.account }
    {
        let Hand {
            seat,
            reported,
            acked,
        } = from;
        self.join::<Brand>(&mut hand.seat, seat);
        self.see(&mut hand.seat);
        hand.reported += reported;
        hand.acked += acked;
    }
}
