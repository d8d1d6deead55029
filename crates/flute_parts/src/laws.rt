//! Laws that layers above rely on. Each is the contract of a function that does nothing.
ghost use Rattle.std.specs.Prelude.{◌≡◌};
ghost use Rattle.flute_parts.specs.declared.session_key.SessionKey.{SessionKey};
ghost use Rattle.flute_parts.specs.declared.object_key.ObjectKey.{ObjectKey};
ghost use Rattle.flute_parts.specs.declared.key.Key.{Key};
ghost use Rattle.flute_parts.specs.declared.symbol_id.SymbolId.{SymbolId};
ghost use Rattle.flute_parts.specs.declared.address.Address.{Address};
ghost use Rattle.flute_parts.specs.Order.{session_cmp, object_cmp, key_cmp, symbol_id_cmp};
ghost use Rattle.flute_parts.specs.Order.{address_cmp};
ghost use Rattle.flute_parts.specs.Laws.{MembersDecide, OrderIsFree, RepeatsAreFree};
ghost use Rattle.flute_parts.specs.Laws.{AppendKeepsSame};
ghost use Rattle.flute_parts.specs.Laws.{AppendKeepsBelow, BelowIsReflexive, BelowIsTransitive};
ghost use Rattle.flute_parts.specs.Laws.{BelowBothWays};
ghost use Rattle.flute_parts.specs.Laws.{OverIsMonotone, AbsentWhereNoneStands, ValueWhereAllAgree};
ghost use Rattle.flute_parts.specs.Laws.{ConflictWhereTwoDiffer, ConflictWhereOneIsTold};
ghost use Rattle.flute_parts.specs.Laws.{AnswersStandThere};
ghost use Rattle.flute_parts.specs.Laws.{RisingHasOneFact, RisingTellsItsFacts, RisingIsUnique};
ghost use Rattle.flute_parts.specs.Laws.{PlacesAreInverse, IdsRise, IdsFollow, IdsAreCounted};
ghost use Rattle.flute_parts.specs.Laws.{FitsMeans, ValidHasNoFault};

use crate::address::Address;
use crate::key::Key;
use crate::object_key::ObjectKey;
use crate::session_key::SessionKey;
use crate::symbol_id::SymbolId;

/// The value of a list of facts at an address. A list at rising addresses has one fact at each, and
/// is the only such list with the same values.
///
/// Lists with the same facts have the same value at each address, in whatever order these come and
/// however often, and lists with the same values can replace one another in longer lists. A list
/// that contains nothing more than another is below it, and this is an order. If a list is over
/// limits, each list above it is over them too.
pub fn lists_are_compared()
    ensures absent { AbsentWhereNoneStands }
    ensures value { ValueWhereAllAgree }
    ensures conflict { ConflictWhereTwoDiffer }
    ensures told_conflict { ConflictWhereOneIsTold }
    ensures address { AnswersStandThere }

    // Of a list at rising addresses:
    ensures one { RisingHasOneFact }
    ensures tells { RisingTellsItsFacts }
    ensures unique { RisingIsUnique }

    // Of two lists:
    ensures members { MembersDecide }
    ensures order { OrderIsFree }
    ensures repeats { RepeatsAreFree }
    ensures append_same { AppendKeepsSame }

    // Of lists below each other:
    ensures reflexive { BelowIsReflexive }
    ensures transitive { BelowIsTransitive }
    ensures both_ways { BelowBothWays }
    ensures append { AppendKeepsBelow }
    ensures over { OverIsMonotone }
{}

/// Names and addresses compare in the order of their definitions.
pub fn names_are_ordered()
    ensures sessions { (a b : SessionKey) → ⟦<SessionKey as Ord>⟧.cmp a b ≡ session_cmp a b }
    ensures objects { (a b : ObjectKey) → ⟦<ObjectKey as Ord>⟧.cmp a b ≡ object_cmp a b }
    ensures keys { (a b : Key) → ⟦<Key as Ord>⟧.cmp a b ≡ key_cmp a b }
    ensures symbols { (a b : SymbolId) → ⟦<SymbolId as Ord>⟧.cmp a b ≡ symbol_id_cmp a b }
    ensures addresses { (a b : Address) → ⟦<Address as Ord>⟧.cmp a b ≡ address_cmp a b }
{}

/// The symbols that transmission information asks for are in rising order, each at its place. A
/// symbol fits with the full length, and the last one also without its padding. Transmission
/// information is valid exactly if it has no fault.
pub fn symbols_are_listed()
    ensures places { PlacesAreInverse }
    ensures rise { IdsRise }
    ensures follow { IdsFollow }
    ensures count { IdsAreCounted }
    ensures fit { FitsMeans }
    ensures valid { ValidHasNoFault }
{}
