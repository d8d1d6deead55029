//! A choice of facts: those of a scope, of a selection, or all but that.
ghost use Rattle.std.specs.Prelude.{◌≡◌, Bool};
ghost use Rattle.flute_parts.specs.declared.fact.Fact.{Fact};
ghost use Rattle.flute_streams.specs.ChosenStreams.{is_passed_over};

pub(crate) mod objects;
pub(crate) mod scope;
pub(crate) mod selection;
pub(crate) mod sessions;

use crate::streams::stream::Stream;

/// A choice of facts, of each of which it says alone whether it is taken.
pub trait Choice {
    // Whether a fact is taken.
    ghost takes: { Self → Fact → Bool };

    /// Whether a stream holds a fact that is not taken.
    fn passes_over<S: Stream>(&self, stream: &S) -> bool
        ensures { result ≡ is_passed_over takes self.now (S.behaviour.held stream.now) };
}
