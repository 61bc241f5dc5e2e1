//! One moment by many hands: each claims actors and lets them act, and collects the letters to those
//! of the managers that it comes to first. What comes of it is what one thread would have made, and
//! the round closes exactly then.
#![tactic(auto)]

mod act_together;
mod acted;
mod acting;
mod alone;
mod blocks;
mod collect_together;
mod collecting;
mod gathering;
mod harvest;
mod moment;
mod pace;
mod publishing;
mod scene;
mod seats;
mod sending;
mod taking;
mod threads;
mod turns;
mod world_scene;

pub use acted::{Acted, Collected};
pub use acting::act_phase;
pub use blocks::Blocks;
pub use collecting::collect_phase;
pub use harvest::Harvest;
pub use moment::{crew, crew_in};
pub use scene::Scene;
