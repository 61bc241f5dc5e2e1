ghost use Rattle.std.specs.Prelude.{◌≡◌, eqb};
ghost use Rattle.quiet_core.specs.Account.{opened, plain, owing};
ghost use Rattle.quiet_core.specs.Entries.{mark_of, passed};

/// What became of a scheduled actor, and at which hand.
#[derive(Clone, Copy)]
pub(crate) enum Entry {
    /// Nobody has claimed it.
    Free,
    /// It is claimed, and nothing was announced.
    Fresh { hand: u32 },
    /// It is claimed, and so many of its announced letters are left to post.
    Told { hand: u32, left: u32 },
    /// It is reported.
    Reported { hand: u32 },
}

impl Entry {
    /// Whether the hand has claimed the actor, and not reported it.
    pub(crate) fn is_open(self, of: u32) -> bool
        ensures { result ≡ eqb (opened (mark_of of self)) 1 }
    {
        match self {
            Entry::Fresh { hand } | Entry::Told { hand, .. } => hand == of,
            Entry::Free | Entry::Reported { .. } => false,
        }
    }

    /// Whether the actor is open at the hand, and nothing was announced for it.
    pub(crate) fn is_plain(self, of: u32) -> bool
        ensures { result ≡ eqb (plain (mark_of of self)) 1 }
    {
        match self {
            Entry::Fresh { hand } => hand == of,
            Entry::Free | Entry::Told { .. } | Entry::Reported { .. } => false,
        }
    }

    /// How many announced letters the hand has left to post for the actor.
    pub(crate) fn owing(self, of: u32) -> u32
        ensures { result ≡ owing (mark_of of self) }
    {
        match self {
            Entry::Told { hand, left } if hand == of => left,
            _ => 0,
        }
    }

    /// The entry after what was of one hand has passed to another.
    pub(crate) fn passed(self, from: u32, to: u32) -> Entry
        ensures { result ≡ passed from to self }
    {
        match self {
            Entry::Fresh { hand } if hand == from => Entry::Fresh { hand: to },
            Entry::Told { hand, left } if hand == from => Entry::Told { hand: to, left },
            Entry::Reported { hand } if hand == from => Entry::Reported { hand: to },
            entry => entry,
        }
    }
}
