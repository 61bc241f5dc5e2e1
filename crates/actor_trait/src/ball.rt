ghost use Rattle.std.specs.Prelude.{◌≡◌, ◌++◌, OnOk, refl};
ghost use Rattle.std.specs.List.{count_by, list_any};
ghost use Rattle.actor_trait.specs.Balls.{ball_to, goes_back, is_ball};

use crate::{Actor, Context, Event, Letter, Outcome, Parcel, Payload, Sample};
use sim_base::{ActorId, Few, Items, Memory};
use std::alloc::Global;
use std::marker::Model;

/// The code of a letter that is a ball; its `a` is the number of hits that are left.
const BALL: u32 = 1;

/// An actor that plays ball. It serves one ball to its peer, and returns each ball that comes to the
/// ball's sender, with one hit less, while hits are left. Its one probe, `hits`, counts what it
/// received.
#[derive(Clone, Copy, Debug, PartialEq, Eq)]
pub struct Ball {
    /// To whom it serves.
    pub peer: ActorId,
    /// The tick at which it serves, 1 to 1,000,000,000.
    pub at: u64,
    /// How many hits its ball has, 0 to 1,000,000,000; with 0 it doesn't serve.
    pub hits: i64,
    /// How many balls it received.
    pub received: i64,
}

impl Model for Ball {
    ghost use Rattle.actor_trait.specs.BallFields.{BallFields, IsBall};

    ghost Value = { BallFields };

    ghost view = { λ s. record { peer = s.peer; at = s.at; hits = s.hits; received = s.received } };

    ghost invariant = { λ s. IsBall (record { peer = s.peer; at = s.at; hits = s.hits; received = s.received }) };

    ghost inverse = { λ s. record { peer = s.peer; at = s.at; hits = s.hits; received = s.received } };
}

impl Ball {
    ghost use Rattle.std.specs.List.{flat_map, fold};
    ghost use Rattle.actor_trait.specs.Balls.{catch, ball_back};

    /// Counts a ball and returns it while hits are left; any other letter is ignored.
    fn catch(&mut self, letter: &Letter, sends: &mut Few<Parcel, 1>) -> Result<(), Memory>
        ensures state { OnOk result (self.new ≡ catch self.old letter.now) }
        ensures sends { OnOk result (sends.new ≡ sends.old ++ ball_back letter.now) }
    {
        if letter.payload.code == BALL {
            self.received = self.received.saturating_add(1);
        }
        if goes_back(letter) {
            let back = ball_to(letter.from, letter.payload.a - 1);
            sends.add(back)?;
        }
        Ok(())
    }

    fn catch_all(&mut self, inbox: &[Letter], sends: &mut Few<Parcel, 1>) -> Result<(), Memory>
        ensures state { OnOk result (self.new ≡ fold catch self.old inbox.now) }
        ensures sends { OnOk result (sends.new ≡ sends.old ++ flat_map ball_back inbox.now) }
    {
        for letter in inbox {
            self.catch(letter, sends)?;
        }
        Ok(())
    }
}

/// A ball to somebody, with so many hits left.
fn ball_to(to: ActorId, hits: i64) -> Parcel
    ensures { result ≡ ball_to to hits }
{
    Parcel {
        to,
        payload: Payload {
            code: BALL,
            a: hits,
            b: 0,
        },
    }
}

/// Whether a letter is a ball with hits left when one is taken away.
fn goes_back(letter: &Letter) -> bool
    ensures { result ≡ goes_back letter.now }
{
    letter.payload.code == BALL && letter.payload.a > 1
}

/// How many balls go back.
fn count_back(inbox: &[Letter]) -> usize
    ensures { result ≡ count_by goes_back inbox.now }
{
    inbox.iter().filter(|letter| goes_back(letter)).count()
}

fn has_ball(inbox: &[Letter]) -> bool
    ensures { result ≡ list_any is_ball inbox.now }
{
    inbox.iter().any(|letter| letter.payload.code == BALL)
}

impl Actor for Ball {
    ghost use Rattle.actor_trait.specs.Balls.{ball_meaning};

    ghost meaning = { ball_meaning };

    fn act(
        &self,
        alloc: Global,
        _context: &Context,
        event: &Event<'_>,
    ) -> Result<Outcome<Self>, Memory> {
        let sent = count_back(event.inbox).saturating_add(usize::from(event.spontaneous));
        let mut sends = Few::with_room(alloc, sent)?;
        let mut ticks = Few::new(alloc);
        let mut samples = Few::new(alloc);
        let mut state = *self;
        if event.first && self.hits > 0 {
            ticks.add(self.at)?;
        }
        if event.spontaneous {
            let served = ball_to(self.peer, self.hits);
            sends.add(served)?;
        }
        state.catch_all(event.inbox, &mut sends)?;
        if has_ball(event.inbox) {
            let sample = Sample {
                probe: 0,
                value: state.received,
            };
            samples.add(sample)?;
        }
        Ok(Outcome {
            state,
            sends,
            ticks,
            births: Items::new(alloc),
            samples,
            retire: false,
            fault: None,
        })
    }

    fn kind(&self) -> &str {
        "ball"
    }

    fn probes(&self) -> u32 {
        1
    }

    fn probe(&self, _n: u32) -> &str {
        "hits"
    }

    fn copy(&self, _alloc: Global) -> Result<Self, Memory> {
        Ok(*self)
    }

    ghost lawful = { record { kind_is_word = λ _. refl; probes_are_words = λ _. refl; keeps_kind = λ _ _ _. refl; keeps_probes = λ _ _ _. refl } };
}
