//! A soda shop: vending machines, the customers that buy from them, and depots that bear refills.
//! Each kind is an actor whose events give exactly what its meaning says; a depot bears actors of
//! another type, so it gives a bearing in place of an outcome.
#![tactic(auto)]

mod buyer;
mod customer;
mod depot;
mod letters;
mod machine;
mod random_customer;
mod refill;
mod threads;

pub use customer::Customer;
pub use depot::Depot;
pub use machine::Machine;
pub use random_customer::RandomCustomer;
pub use refill::Refill;
