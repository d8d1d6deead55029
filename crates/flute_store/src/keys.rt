//! Yields the keys of the objects of a store, one after another.
ghost use Rattle.std.specs.Iterator.{YieldsFirst, item_count};

use crate::held_objects::{HasObjects, HeldObjects};
use flute_parts::Key;
use std::marker::Model;

/// The keys of the objects of a store that are left, in rising order.
#[derive(Drop)]
pub struct Keys<'a, S: HasObjects + 'a> {
    pub(crate) objects: HeldObjects<'a, S>,
}

impl<'a, S: HasObjects + 'a> Model for Keys<'a, S> {
    ghost use Rattle.std.specs.Prelude.{List};
    ghost use Rattle.std.specs.Map.{keys_of};
    ghost use Rattle.flute_parts.specs.declared.key.Key.{Key};

    ghost Value = { List Key };

    ghost view = { λ k. keys_of k.objects };
}

impl<'a, S: HasObjects + 'a> Iterator for Keys<'a, S> {
    type Item = Key;

    ghost next_gives = { YieldsFirst (λ rest. rest) };

    ghost remaining = { item_count (λ rest. rest) };

    fn next(&mut self) -> Option<Key> {
        match self.objects.next() {
            Some((key, _)) => Some(key),
            None => None,
        }
    }
}
