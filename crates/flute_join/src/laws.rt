//! The laws of joins, each the contract of a function that does nothing.
ghost use Rattle.std.specs.Prelude.{◌≡◌, List, [], ◌∷◌, Some, None};
ghost use Rattle.std.specs.Map.{set_value};
ghost use Rattle.std.specs.BTreeMap.{is_at, insert_entry};
ghost use Rattle.flute_join.specs.Semilattice.{IsJoin, IsBelow};
ghost use Rattle.flute_join.specs.Cell.{cell_join};
ghost use Rattle.flute_join.specs.JoinMap.{map_join, join_values, value_at, IsOrdered};

use crate::join::Join;
use crate::map_key::MapKey;
use crate::value::Value;

/// Joining is commutative, associative and idempotent. To be below is an order, in which the join
/// of two values is the least that is above both. What a refused join leaves, joined again, gives
/// the join.
pub fn joining_is_a_join<T: Join>()
    ensures join { IsJoin T.joined }

    // Of the order:
    ensures reflexive { (x : T) → IsBelow T.joined x x }
    ensures transitive { (x y z : T) → IsBelow T.joined x y → IsBelow T.joined y z
        → IsBelow T.joined x z }
    ensures antisymmetric { (x y : T) → IsBelow T.joined x y → IsBelow T.joined y x → x ≡ y }

    // Of the join in it:
    ensures above_first { (x y : T) → IsBelow T.joined x (T.joined x y) }
    ensures above_second { (x y : T) → IsBelow T.joined y (T.joined x y) }
    ensures least { (x y z : T) → IsBelow T.joined x z → IsBelow T.joined y z
        → IsBelow T.joined (T.joined x y) z }
    ensures again { (old other left : T) → IsBelow T.joined old left
        → IsBelow T.joined left (T.joined old other)
        → T.joined left other ≡ T.joined old other }
{}

/// Joining cells, and joining maps, is commutative, associative and idempotent, of maps of maps
/// too. The join of two maps has, at each key, the values of the two, joined; and its keys ascend.
/// Joining a map of one entry into another joins the values at a held key, and inserts the entry at
/// a new one.
pub fn cells_and_maps_are_joined<T: Value, K: MapKey, V: Join>()
    ensures cells { IsJoin (cell_join T.eq) }
    ensures maps { IsJoin (map_join K.cmp V.joined) }
    ensures values { (m n : List (K × V)) (key : K) → IsOrdered K.cmp m → IsOrdered K.cmp n
        → value_at K.cmp (map_join K.cmp V.joined m n) key
        ≡ join_values V.joined (value_at K.cmp m key) (value_at K.cmp n key) }
    ensures ordered { (m n : List (K × V)) → IsOrdered K.cmp m → IsOrdered K.cmp n
        → IsOrdered K.cmp (map_join K.cmp V.joined m n) }

    // Of a map of one entry:
    ensures held { (m : List (K × V)) (key : K) (held value : V) → IsOrdered K.cmp m
        → value_at K.cmp m key ≡ Some held
        → map_join K.cmp V.joined m ((key, value) ∷ [])
        ≡ set_value (is_at (K.cmp key)) m (V.joined held value) }
    ensures new { (m : List (K × V)) (key : K) (value : V) → value_at K.cmp m key ≡ None
        → map_join K.cmp V.joined m ((key, value) ∷ []) ≡ insert_entry K.cmp m key value }
{}
