ghost use Rattle.std.specs.Prelude.{◌≡◌, ◌<◌, ◌≤◌, ◌+◌, ◌^◌, ℕ, length};
ghost use Rattle.quiet_core.specs.Account.{managers, scheduled, root, parent};
ghost use Rattle.quiet_core.specs.Step.{word_count, claim_at, coll_at, issued_at, place};
ghost use Rattle.quiet_core.specs.Balance.{Sized};
ghost use Rattle.manager_tree.specs.Shape.{IsTree};
ghost use Rattle.quiet_core.specs.Conditions.{in_range};
ghost use Rattle.quiet_core.specs.Opening.{shape_over};
ghost use Rattle.quiet_core.specs.Noted.{Within};

use crate::deed::Deed;
use crate::ledger::NODES;
use crate::pairs::MANAGERS;
use manager_tree::Tree;
use std::marker::Model;

/// The shape of a round: how many actors are scheduled at each manager, the parent of each node but
/// the root, and how many hands there are. It is made anew for each round, so it takes no memory.
#[derive(Drop)]
pub struct Frame {
    managers: usize,
    root: usize,
    hands: u32,
    // By manager, and by node. What stands behind those of the round is not read.
    scheduled: [u32; MANAGERS],
    parents: [u32; NODES],
}

impl Model for Frame {
    ghost use Rattle.std.specs.Prelude.{◌≤◌, take};
    ghost use Rattle.quiet_core.specs.Account.{Shape};

    ghost Value = { Shape };

    ghost view = { λ f. record { sched = take f.managers f.scheduled; parents = take f.root f.parents; hands = f.hands } };

    ghost invariant = { λ f. (f.managers ≤ 16) × (f.root ≤ 31) };
}

impl Frame {
    /// The frame of a round over a tree, whose leaves are the managers.
    pub fn of(tree: &Tree, scheduled: &[u32], hands: u32) -> Frame
        requires leaves { length scheduled.now ≡ tree.now.leaves }
        ensures shape { result ≡ shape_over tree.now scheduled.now hands }
        ensures tree { IsTree tree.now }
    {
        let above = tree.parents();
        let mut parents = [0; NODES];
        parents[..above.len()].copy_from_slice(above);
        let mut numbers = [0; MANAGERS];
        numbers[..scheduled.len()].copy_from_slice(scheduled);
        Frame {
            managers: scheduled.len(),
            root: above.len(),
            hands,
            scheduled: numbers,
            parents,
        }
    }

    /// How many managers.
    pub fn managers(&self) -> usize
        ensures { result ≡ managers self.now }
    {
        self.managers
    }

    /// How many actors are scheduled at a manager.
    pub fn scheduled(&self, m: u32) -> u32
        requires { m < managers self.now }
        ensures { result ≡ scheduled self.now m }
    {
        self.scheduled[m as usize]
    }

    /// The root, which is the last node.
    pub fn root(&self) -> usize
        ensures { result ≡ root self.now }
    {
        self.root
    }

    /// The node above a node that isn't the root.
    pub fn parent(&self, node: u32) -> u32
        requires { node < root self.now }
        ensures { result ≡ parent self.now node }
    {
        self.parents[node as usize]
    }

    /// How many hands.
    pub fn hands(&self) -> u32
        ensures { result ≡ self.now.hands }
    {
        self.hands
    }

    /// How many words the counters of the round take.
    pub fn word_count(&self) -> usize
        requires { Sized self.now }
        ensures { result ≡ word_count self.now }
    {
        let managers = self.managers();
        self.root() + 1 + managers + managers + managers * managers
    }

    /// The word of the claims at a manager.
    pub fn claim_at(&self, m: u32) -> usize
        requires sized { Sized self.now }
        requires manager { m < managers self.now }
        ensures { result ≡ claim_at self.now m }
    {
        self.root() + 1 + m as usize
    }

    /// The word that tells whether somebody collects the letters to a manager.
    pub fn coll_at(&self, n: u32) -> usize
        requires sized { Sized self.now }
        requires manager { n < managers self.now }
        ensures { result ≡ coll_at self.now n }
    {
        self.root() + 1 + self.managers() + n as usize
    }

    /// The word of the letters that were issued from one manager to another.
    pub fn issued_at(&self, m: u32, n: u32) -> usize
        requires sized { Sized self.now }
        requires sender { m < managers self.now }
        requires recipient { n < managers self.now }
        ensures { result ≡ issued_at self.now m n }
    {
        let managers = self.managers();
        self.root() + 1 + managers + managers + (m as usize * managers + n as usize)
    }

    /// The word on which a hand does something.
    pub fn place(&self, deed: Deed) -> usize
        requires sized { Sized self.now }
        requires within { Within self.now deed }
        ensures { result ≡ place self.now deed }
    {
        match deed {
            Deed::Claim { m } => self.claim_at(m),
            Deed::Raise { m, .. } | Deed::Done { m, .. } | Deed::Ack { m, .. } => m as usize,
            Deed::Post { m, to, .. } | Deed::Look { m, to } => self.issued_at(m, to),
            Deed::Collect { to } => self.coll_at(to),
            Deed::Climb { node } => self.parent(node) as usize,
        }
    }

    /// Whether the managers and nodes of a deed are those of the round.
    pub fn in_range(&self, deed: Deed) -> bool
        requires { Sized self.now }
        ensures { result ≡ in_range self.now deed }
    {
        let managers = self.managers();
        match deed {
            Deed::Claim { m } | Deed::Raise { m, .. } | Deed::Done { m, .. } => {
                (m as usize) < managers
            }
            Deed::Post { m, to, .. } | Deed::Look { m, to } | Deed::Ack { m, to, .. } => {
                (m as usize) < managers && (to as usize) < managers
            }
            Deed::Collect { to } => (to as usize) < managers,
            Deed::Climb { node } => node as usize <= self.root(),
        }
    }
}
