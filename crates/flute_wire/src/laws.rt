//! Laws of the format, each the contract of a function that does nothing.

ghost use Rattle.std.specs.Prelude.{◌≡◌, ◌↔◌, ◌⊎◌, ℕ, true, List, [], length};
ghost use Rattle.std.specs.Prelude.{map, flat_map, Contains, Some};
ghost use Rattle.flute_parts.specs.Information.{Information, IsValid};
ghost use Rattle.flute_parts.specs.Partition.{ids, fits};
ghost use Rattle.flute_parts.specs.declared.symbol_id.SymbolId.{SymbolId};
ghost use Rattle.flute_parts.specs.declared.key.Key.{Key};
ghost use Rattle.flute_parts.specs.declared.fact.Fact.{Fact};
ghost use Rattle.flute_parts.specs.declared.fact.Fact.TheVariants.{Info, Symbol};
ghost use Rattle.flute_wire.specs.Carousel.{symbols_of, packets_of, facts_sent};
ghost use Rattle.flute_wire.specs.Writing.{IsWritten};
ghost use Rattle.std.specs.List.{AllZip};
ghost use Rattle.flute_wire.specs.Content.{Content};
ghost use Rattle.flute_wire.specs.Datagram.{Spells};
ghost use Rattle.flute_wire.specs.Refusals.{Applies};
ghost use Rattle.flute_wire.specs.Facts.{facts_of};
ghost use Rattle.flute_wire.specs.Reading.{packet, facts};
ghost use Rattle.flute_wire.specs.declared.refusal.Refusal.{Refusal};

/// A datagram spells one packet at most, and one exactly if no refusal applies to it. That packet
/// can be computed, and from it the facts of the datagram if some sender sent it: none, if it is
/// refused.
pub fn one_reading()
    ensures one { (d : List ℕ) (p q : Content) → Spells d p → Spells d q → p ≡ q }
    ensures some { (d : List ℕ) → ((p : Content) × Spells d p) ↔ ((r : Refusal) → ¬ Applies r d) }
    ensures decided { (d : List ℕ) → ((p : Content) × Spells d p) ⊎ ((r : Refusal) × Applies r d) }
    ensures packet { (d : List ℕ) (p : Content) → (packet d ≡ Some p) ↔ Spells d p }
    ensures facts { (s : ℕ) (d : List ℕ) (p : Content) → Spells d p → facts s d ≡ facts_of s p }
    ensures no_facts { (s : ℕ) (d : List ℕ) (r : Refusal) → Applies r d → facts s d ≡ [] }
{}

/// An object is cut into the symbols of its partition: their bytes joined are the object, each
/// fits, and no two bytes are sent as one symbol. Its datagrams, if the key's sender sent them,
/// contain its transmission information and each of these symbols, and nothing else.
pub fn an_object_is_told_by_its_datagrams()
    ensures ids { (i : Information) (content : List ℕ)
        → map (λ s. s.0) (symbols_of i content) ≡ ids i }
    ensures joined { (i : Information) (content : List ℕ) → IsValid i
        → length content ≡ i.transfer_length
        → flat_map (λ s. s.1) (symbols_of i content) ≡ content }
    ensures fit { (i : Information) (content : List ℕ) (s : SymbolId × List ℕ) → IsValid i
        → length content ≡ i.transfer_length
        → Contains (symbols_of i content) s → fits i s.0 (length s.1) ≡ true }
    ensures one { (i : Information) (content : List ℕ) (s t : SymbolId × List ℕ)
        → Contains (symbols_of i content) s
        → Contains (symbols_of i content) t → s.0 ≡ t.0 → s ≡ t }
    ensures facts { (key : Key) (i : Information) (content : List ℕ) (f : Fact) → IsValid i
        → Contains (facts_sent key i content) f
        ↔ ((f ≡ Info key i)
        ⊎ ((s : SymbolId × List ℕ) × Contains (symbols_of i content) s
        × (f ≡ Symbol key s.0 s.1))) }
    ensures datagrams { (key : Key) (i : Information) (content : List ℕ) (datagrams : List (List ℕ))
        → AllZip IsWritten datagrams (packets_of key i content)
        → flat_map (facts key.session.sender) datagrams ≡ facts_sent key i content }
{}
