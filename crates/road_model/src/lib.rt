//! A road network: roads that let so many cars in at a time, vehicles that drive along a route, and
//! origins that bear them. A road and a vehicle are actors whose events give exactly what their
//! meaning says; an origin bears actors of another type, so it gives a bearing in place of an outcome.
#![tactic(auto)]

mod copies;
mod letters;
mod origin;
mod road;
mod threads;
mod traffic;
mod vehicle;

pub use origin::Origin;
pub use road::Road;
pub use vehicle::Vehicle;
