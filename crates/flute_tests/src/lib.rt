//! The tests of the libraries of FLUTE, which call only what these make public.
#![tactic(auto)]

#[cfg(test)]
mod join;
#[cfg(test)]
mod journal;
#[cfg(test)]
mod output;
#[cfg(test)]
mod parts;
#[cfg(test)]
mod store;
#[cfg(test)]
mod wire;
