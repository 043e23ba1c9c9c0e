ghost use Rattle.std.specs.Prelude.{◌+◌, ◌≤◌, length};
ghost use Rattle.mapping.specs.Bindings.{bound, capacity};
ghost use Rattle.typing.specs.Room.{free};
ghost use Rattle.typing.specs.Scopes.{Bindings};

use mapping::mapping::Mapping;
use std::marker::Model;
use syntax::types::ValueType;

pub mod bindings;

/// The types of the slots that are bound where an expression stands.
#[derive(Drop)]
pub struct Scope<'a, 'b> {
    mapping: &'a mut Mapping<'b, ValueType>,
}

/// A scope is its bindings, the newest first. There are sixteen slots, each is bound once at most, and there is memory for as
/// many bindings.
impl<'a, 'b> Model for Scope<'a, 'b> {
    ghost Value = { Bindings };

    ghost view = { λ s. bound s.mapping.now };

    ghost invariant = { λ s. (length (bound s.mapping.now) + free 16 (bound s.mapping.now) ≤ 16) × (16 ≤ capacity s.mapping.now) };
}
