//! The tests of `flutejoin` and `flutejoin_replicas`, which call only what these make public.
#![tactic(auto)]

#[cfg(test)]
mod tests;
