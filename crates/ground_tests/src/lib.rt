//! Cases of the public calls of the ground: names, lists and endings, sources and sinks, keys and
//! draws. Expected values were worked out by hand, or by Python's hashlib.
#![tactic(auto)]

#[cfg(test)]
mod digests;
#[cfg(test)]
mod lists;
#[cfg(test)]
mod outside;
#[cfg(test)]
mod streams;
#[cfg(test)]
mod words;
