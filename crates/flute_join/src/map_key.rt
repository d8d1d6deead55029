//! The trait `MapKey`: what may be a key of a map.
ghost use Rattle.std.specs.Prelude.{◌≡◌};
ghost use Rattle.std.specs.declared.cmp.Ordering.TheVariants.{Equal};
ghost use Rattle.std.proofs.lemmas.Map.Lookups.{exact_unsigned};

/// A key of a map. Keys that compare equal are one key.
pub trait MapKey: Ord + Copy {
    // Keys that compare equal are the same.
    ghost same_where_equal: { (x y : Self) → Self.cmp x y ≡ Equal → x ≡ y };
}

impl MapKey for u16 {
    ghost same_where_equal = { exact_unsigned };
}
