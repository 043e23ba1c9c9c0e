//! Making a scope, and binding slots in it.
ghost use Rattle.std.specs.Prelude.{◌≡◌, ◌≤◌, true, [], ◌∷◌, length, None};
ghost use Rattle.mapping.specs.Bindings.{lookup, oldest, bound, capacity};
ghost use Rattle.typing.specs.Room.{is_slot};
ghost use Rattle.typing.specs.Scopes.{bind_free};

use crate::scope::Scope;
use mapping::mapping::{Binding, Mapping};
use syntax::types::ValueType;

impl<'a, 'b> Scope<'a, 'b> {
    /// The scope that binds nothing, over the lent bindings.
    #[tactic(auto, using(crate::proofs::Room::free_all))]
    pub(crate) fn new(mapping: &'a mut Mapping<'b, ValueType>) -> Scope<'a, 'b>
        requires empty { bound mapping.old ≡ [] }
        requires memory { 16 ≤ capacity mapping.old }
        ensures empty { result ≡ [] }
    {
        Scope { mapping }
    }

    /// How many slots are bound.
    pub(crate) fn length(&self) -> usize
        ensures length { result ≡ length self.now }
    {
        self.mapping.length()
    }

    /// The type of the slot, if it is bound.
    pub(crate) fn find(&self, slot: u16) -> Option<ValueType>
        ensures found { result ≡ lookup slot self.now }
    {
        self.mapping.find(0, slot)
    }

    /// Binds the slot, unless it is bound already.
    pub(crate) fn bind(&mut self, slot: u16, to: ValueType)
        requires slot { is_slot slot ≡ true }
        ensures bound { self.new ≡ bind_free slot to self.old }
    {
        if self.find(slot).is_none() {
            self.bind_unbound(slot, to);
        }
    }

    /// Binds a slot that is not bound yet, without a search for it.
    pub(crate) fn bind_unbound(&mut self, slot: u16, to: ValueType)
        requires slot { is_slot slot ≡ true }
        requires unbound { lookup slot self.old ≡ None }
        ensures bound { self.new ≡ record { slot = slot; entry = to } ∷ self.old }
    {
        let _ = self.mapping.bind(slot, to);
    }

    /// Cuts back to the first `earlier` bindings.
    #[tactic(auto, using(crate::proofs::Room::once_cut))]
    pub(crate) fn cut(&mut self, earlier: usize)
        ensures oldest { self.new ≡ oldest earlier self.old }
    {
        self.mapping.cut(earlier);
    }
}
