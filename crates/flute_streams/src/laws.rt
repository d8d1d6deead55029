//! Laws of the definitions: each is the contract of a function that does nothing.
ghost use Rattle.std.specs.Prelude.{◌≡◌, ◌↔◌, ◌⊎◌, ◌+◌, ℕ, Bool, List, [], ◌∷◌, ◌++◌, false};
ghost use Rattle.std.specs.List.{count_by, list_any};
ghost use Rattle.flute_parts.specs.Addresses.{address};
ghost use Rattle.flute_parts.specs.Facts.{Below, IsRising, Same, fact_at};
ghost use Rattle.flute_parts.specs.declared.address.Address.{Address};
ghost use Rattle.flute_parts.specs.declared.fact.Fact.{Fact};
ghost use Rattle.flute_journal.specs.Journal.{Collects, JournalIn};
ghost use Rattle.flute_journal.specs.declared.format.version.Version.{Version};
ghost use Rattle.flute_streams.specs.Compared.{AreRows, differs, sides_of};
ghost use Rattle.flute_streams.specs.Minus.{changes, minus};
ghost use Rattle.flute_streams.specs.StreamMerges.{Each, all_of};
ghost use Rattle.flute_streams.specs.declared.merge.sides.Row.{Row};

/// Merging what merges wrote is merging all at once: if the facts of each group were joined into
/// entries, the journal of all these entries is the journal of the facts of all groups.
pub fn merging_merged_is_merging_all()
    ensures { (v : Version) (groups joined : List (List Fact)) → Each Collects groups joined
        → (bytes : List ℕ) → JournalIn v bytes (all_of joined)
        ↔ JournalIn v bytes (all_of groups) }
{}

/// What of some facts a join would change others by is all that the join needs, and no more.
///
/// - `exact`: a fact is left out exactly if joining it changes no lookup.
/// - `enough`: joining what is left gives the same as joining all, and (`bytes`) the same journal,
///   byte for byte, in either version.
/// - `held`: of what is held already nothing is left.
/// - `after`: once what is left was joined, nothing is left.
/// - `again`: what is left is left again.
pub fn minus_is_what_a_join_needs()
    ensures exact { (held : List Fact) (f : Fact)
        → (changes held f ≡ false) ↔ Below (f ∷ []) held }
    ensures enough { (facts held : List Fact)
        → Same (held ++ minus facts held) (held ++ facts) }
    ensures bytes { (v : Version) (facts held : List Fact) (bytes : List ℕ)
        → JournalIn v bytes (held ++ minus facts held) ↔ JournalIn v bytes (held ++ facts) }
    ensures held { (facts held : List Fact) → Below facts held → minus facts held ≡ [] }
    ensures after { (facts held : List Fact)
        → minus facts (held ++ minus facts held) ≡ [] }
    ensures again { (facts held : List Fact)
        → minus (minus facts held) held ≡ minus facts held }
{}

/// What comparing two lists of facts says of them and of their join.
///
/// - `counted`: of the facts at some addresses each is counted once, as one that the first has.
/// - `peace`: if nothing differs in any row, a join has at each address what one of both has
///   there, so it has no conflict that neither had.
pub fn a_comparison_tells_of_the_join()
    ensures counted { (q : Address → Bool) (facts others : List Fact)
        → let s = sides_of q facts others in
        (s.same + s.differ) + s.first ≡ count_by (λ f. q (address f)) facts }
    ensures peace { (facts others : List Fact) (rows : List Row) → IsRising facts
        → AreRows facts others rows → list_any differs rows ≡ false → (a : Address)
        → (fact_at (facts ++ others) a ≡ fact_at facts a)
        ⊎ (fact_at (facts ++ others) a ≡ fact_at others a) }
{}
