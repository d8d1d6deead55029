//! The names of objects within a session: a TOI, or an FDT Instance ID.

use flute_join::MapKey;
use std::cmp::Ordering;
use std::marker::Model;

/// What an object is named by, as contracts see an [`ObjectKey`]. It may be out of
/// range; a key is not.
#[derive(Clone, Copy, Debug)]
pub enum ObjectName {
    /// An FDT Instance, by its FDT Instance ID.
    Instance(u32),
    /// A file, by its Transport Object Identifier.
    File(u128),
}

/// An object of a session: an FDT Instance by its FDT Instance ID (RFC 6726, section 3.4.1), or a
/// file by its Transport Object Identifier (RFC 5651, section 5.1).
///
/// FDT Instances are ordered before files, and each kind by its number.
#[derive(Clone, Copy, Debug)]
pub struct ObjectKey {
    name: ObjectName,
}

impl Model for ObjectKey {
    ghost use Rattle.flute_parts.specs.declared.object_key.ObjectName.{ObjectName};
    ghost use Rattle.flute_parts.specs.ObjectName.{IsObjectName};

    ghost Value = { ObjectName };

    ghost view = { λ o. o.name };

    ghost invariant = { λ o. IsObjectName o.name };

    ghost inverse = { λ n. record { name = n } };
}

impl ObjectKey {
    ghost use Rattle.std.specs.Prelude.{◌≡◌, ◌<◌, ◌≤◌, ◌^◌, SomeIff};
    ghost use Rattle.flute_parts.specs.declared.object_key.ObjectName.TheVariants.{Instance, File};
    ghost use Rattle.flute_parts.specs.ObjectName.{IsObjectName, toi_of, instance_of};

    /// The FDT Instance with this FDT Instance ID. None if the ID is 2^20 or more.
    pub fn fdt(instance: u32) -> Option<ObjectKey>
        ensures { SomeIff result (instance < 2 ^ 20) (Instance instance) }
    {
        if instance < 1 << 20 {
            let name = ObjectName::Instance(instance);
            Some(ObjectKey { name })
        } else {
            None
        }
    }

    /// The file with this Transport Object Identifier. None if it is 0, which names FDT
    /// Instances, or 2^112 or more.
    pub fn file(toi: u128) -> Option<ObjectKey>
        ensures { SomeIff result ((1 ≤ toi) × (toi < 2 ^ 112)) (File toi) }
    {
        if 1 <= toi && toi < 1 << 112 {
            let name = ObjectName::File(toi);
            Some(ObjectKey { name })
        } else {
            None
        }
    }

    /// The FDT Instance ID, below 2^20. None for a file.
    pub fn instance(&self) -> Option<u32>
        ensures value { result ≡ instance_of self.now }
        ensures name { IsObjectName self.now }
    {
        match self.name {
            ObjectName::Instance(instance) => Some(instance),
            ObjectName::File(_) => None,
        }
    }

    /// The Transport Object Identifier, below 2^112: 0 for an FDT Instance.
    pub fn toi(&self) -> u128
        ensures value { result ≡ toi_of self.now }
        ensures name { IsObjectName self.now }
    {
        match self.name {
            ObjectName::Instance(_) => 0,
            ObjectName::File(toi) => toi,
        }
    }
}

// What follows is what derives would write. It is written by hand so that contracts see the order
// by its definition.

impl Ord for ObjectKey {
    ghost use Rattle.std.specs.Prelude.{refl};
    ghost use Rattle.flute_parts.specs.Order.{object_cmp};
    ghost use Rattle.flute_parts.specs.Totality.{object_total};

    ghost cmp = { object_cmp };

    ghost total = { object_total };

    ghost matches_partial_cmp = { λ x y. refl };

    ghost matches_eq = { λ x y. refl };

    fn cmp(&self, other: &ObjectKey) -> Ordering {
        match (self.name, other.name) {
            (ObjectName::Instance(a), ObjectName::Instance(b)) => a.cmp(&b),
            (ObjectName::Instance(_), ObjectName::File(_)) => Ordering::Less,
            (ObjectName::File(_), ObjectName::Instance(_)) => Ordering::Greater,
            (ObjectName::File(a), ObjectName::File(b)) => a.cmp(&b),
        }
    }
}

impl PartialOrd for ObjectKey {
    ghost use Rattle.std.specs.Prelude.{refl};
    ghost use Rattle.std.specs.Ordering.{as_partial_cmp};
    ghost use Rattle.std.specs.Cmp.{partial_order_from_agreeing_total};
    ghost use Rattle.flute_parts.specs.Order.{object_cmp};
    ghost use Rattle.flute_parts.specs.Totality.{object_total};

    ghost partial_cmp = { as_partial_cmp object_cmp };

    ghost laws = { partial_order_from_agreeing_total object_cmp object_total
        (λ x y. refl) (λ x y. refl) };

    fn partial_cmp(&self, other: &ObjectKey) -> Option<Ordering> {
        Some(self.cmp(other))
    }
}

impl Eq for ObjectKey {
    ghost use Rattle.std.specs.Cmp.{eq_by_cmp_equiv};
    ghost use Rattle.flute_parts.specs.Totality.{object_total};

    ghost laws = { eq_by_cmp_equiv object_total };
}

impl PartialEq for ObjectKey {
    ghost use Rattle.std.specs.Ordering.{eq_by_cmp};
    ghost use Rattle.std.specs.Cmp.{eq_by_cmp_equiv, partial_equiv_from_equiv};
    ghost use Rattle.flute_parts.specs.Order.{object_cmp};
    ghost use Rattle.flute_parts.specs.Totality.{object_total};

    ghost eq = { eq_by_cmp object_cmp };

    ghost laws = { partial_equiv_from_equiv (eq_by_cmp_equiv object_total) };

    fn eq(&self, other: &ObjectKey) -> bool {
        self.cmp(other).is_eq()
    }
}

impl MapKey for ObjectKey {
    ghost use Rattle.flute_parts.specs.Equality.{object_place};

    ghost same_where_equal = { object_place };
}
