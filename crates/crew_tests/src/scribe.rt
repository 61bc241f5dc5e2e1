ghost use Rattle.std.specs.Prelude.{◌≡◌, [], IfOk, refl, replicate};
ghost use Rattle.crew_tests.specs.Scribes.{heir, page_at, written};

use actor_trait::{Actor, Context, Event, FaultCode, Outcome, Parcel, Payload};
use sim_base::{ActorId, Few, Items, Memory};
use std::alloc::Global;

/// What a scribe does at an event.
#[derive(Clone, Copy)]
pub struct Page {
    /// To whom it writes.
    pub to: ActorId,
    /// How many letters.
    pub letters: u32,
    /// How many heirs it bears.
    pub births: u32,
    /// Whether it retires.
    pub retires: bool,
    /// The fault that it shows, 1 to 899; with another number none.
    pub fault: u32,
}

/// A page that says nothing.
const BLANK: Page = Page {
    to: ActorId(0),
    letters: 0,
    births: 0,
    retires: false,
    fault: 0,
};

/// An actor that does what its pages tell.
#[derive(Clone, Copy)]
pub struct Scribe {
    /// At its first event.
    pub first: Page,
    /// At each later one.
    pub later: Page,
}

/// A scribe that writes two letters to actor 5 at its first event.
const HEIR: Scribe = Scribe {
    first: Page {
        to: ActorId(5),
        letters: 2,
        births: 0,
        retires: false,
        fault: 0,
    },
    later: BLANK,
};

impl Scribe {
    /// The page of an event.
    fn page(&self, first: bool) -> Page
        ensures { result ≡ page_at self.now first }
    {
        if first { self.first } else { self.later }
    }
}

impl Page {
    fn sends(&self, alloc: Global) -> Result<Few<Parcel, 1>, Memory>
        ensures { IfOk result (λ sends. sends ≡ replicate self.now.letters (written self.now)) }
    {
        let parcel = Parcel {
            to: self.to,
            payload: Payload {
                code: 1,
                a: 0,
                b: 0,
            },
        };
        Ok(Few::of(vec![in alloc; parcel; self.letters as usize]?))
    }

    fn heirs(&self, alloc: Global) -> Result<Items<Scribe>, Memory>
        ensures { IfOk result (λ heirs. heirs ≡ replicate self.now.births heir) }
    {
        Ok(Items::of(vec![in alloc; HEIR; self.births as usize]?))
    }
}

impl Actor for Scribe {
    ghost use Rattle.crew_tests.specs.Scribes.{scribe_meaning};

    ghost meaning = { scribe_meaning };

    fn act(
        &self,
        alloc: Global,
        _context: &Context,
        event: &Event<'_>,
    ) -> Result<Outcome<Self>, Memory> {
        let page = self.page(event.first);
        Ok(Outcome {
            state: *self,
            sends: page.sends(alloc)?,
            ticks: Few::new(alloc),
            births: page.heirs(alloc)?,
            samples: Few::new(alloc),
            retire: page.retires,
            fault: FaultCode::of(page.fault),
        })
    }

    fn kind(&self) -> &str {
        "scribe"
    }

    fn probes(&self) -> u32 {
        0
    }

    fn probe(&self, _n: u32) -> &str
        ensures { result.now ≡ [] }
    {
        ""
    }

    fn copy(&self, _alloc: Global) -> Result<Self, Memory> {
        Ok(*self)
    }

    ghost lawful = { record { kind_is_word = λ _. refl; probes_are_words = λ _. refl; keeps_kind = λ _ _ _. refl; keeps_probes = λ _ _ _. refl } };
}
