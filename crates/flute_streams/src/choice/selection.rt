//! A selection: the facts of an address or a kind, as commands name them.
ghost use Rattle.std.specs.Prelude.{◌≡◌, true};
ghost use Rattle.flute_parts.specs.Addresses.{fact_of};
ghost use Rattle.flute_parts.specs.declared.fact.Fact.{Fact};
ghost use Rattle.flute_streams.specs.Selections.{is_everything, leaves_out, selects};

use crate::choice::Choice;
use crate::choice::scope::Scope;
use crate::streams::stream::Stream;
use flute_parts::{Address, FactRef, Key, Part, Sender, SymbolId};
use std::collections::BTreeSet;

/// Which facts are selected. Each field narrows the others.
#[derive(Clone, Copy)]
pub struct Selection {
    /// The one sender whose facts are selected; if `None`, any.
    pub sender: Option<Sender>,
    /// The objects whose facts are selected.
    pub scope: Scope,
    /// Only this symbol of objects.
    pub symbol: Option<SymbolId>,
    /// Only the information of objects.
    pub info: bool,
    /// Only conflicts, of symbols and of information.
    pub conflicts: bool,
}

impl Selection {
    /// All facts.
    pub fn all() -> Selection
        ensures { (fact : Fact) → selects result fact ≡ true }
    {
        Selection {
            sender: None,
            scope: Scope::all(),
            symbol: None,
            info: false,
            conflicts: false,
        }
    }

    /// Whether no field narrows it: all facts are selected.
    pub fn is_all(&self) -> bool
        ensures { result ≡ is_everything self.now }
    {
        self.sender.is_none()
            && self.scope.is_all()
            && self.symbol.is_none()
            && !self.info
            && !self.conflicts
    }

    /// Whether the fact is selected.
    #[inline(always)]
    pub fn selects(&self, fact: &FactRef<'_>) -> bool
        ensures { result ≡ selects self.now (fact_of fact.now) }
    {
        let Address { key, part } = fact.address();
        let is_sender = match self.sender {
            Some(sender) => key.session.sender() == sender,
            None => true,
        };
        let is_symbol = match (self.symbol, part) {
            (None, _) => true,
            (Some(one), Part::Symbol(id)) => one.sbn == id.sbn && one.esi == id.esi,
            (Some(_), Part::Info) => false,
        };
        let is_conflict = matches!(
            fact,
            FactRef::InfoConflict { .. } | FactRef::SymbolConflict { .. }
        );
        is_sender
            && self.scope.takes(&key)
            && is_symbol
            && (!self.info || matches!(part, Part::Info))
            && (!self.conflicts || is_conflict)
    }
}

/// What is selected is taken.
impl Choice for Selection {
    ghost use Rattle.flute_streams.specs.Selections.{selects};

    ghost takes = { selects };

    #[inline(always)]
    fn passes_over<S: Stream>(&self, stream: &S) -> bool {
        match stream.head() {
            Some(fact) => !self.selects(&fact),
            None => false,
        }
    }
}

/// What is selected is left out, of the objects that are listed if there is a list, and all else is
/// taken.
#[derive(Drop)]
pub struct AllBut {
    pub selection: Selection,
    pub listed: Option<BTreeSet<Key>>,
}

impl AllBut {
    /// Whether the fact is left out.
    #[inline(always)]
    pub fn leaves_out(&self, fact: &FactRef<'_>) -> bool
        ensures { result ≡ leaves_out self.now (fact_of fact.now) }
    {
        let is_listed = match &self.listed {
            Some(keys) => keys.contains(&fact.address().key),
            None => true,
        };
        is_listed && self.selection.selects(fact)
    }
}

impl Choice for AllBut {
    ghost use Rattle.flute_streams.specs.Selections.{leaves};

    ghost takes = { leaves };

    #[inline(always)]
    fn passes_over<S: Stream>(&self, stream: &S) -> bool {
        match stream.head() {
            Some(fact) => self.leaves_out(&fact),
            None => false,
        }
    }
}
