//! The scopes of functions and of statements.
ghost use Rattle.std.specs.Prelude.{◌≡◌, ℕ, ◌+◌, ◌==◌, ◌||◌, IsTrue, [], None};
ghost use Rattle.tables.specs.Layout.{content};
ghost use Rattle.mapping.specs.Bindings.{lookup};
ghost use Rattle.typing.specs.Scopes.{declared, bind_typed, slots_from, function_scope, method_scope};

use crate::declared::declared;
use crate::scope::Scope;
use tables::rows::{ClassRow, FunctionRow, MethodRow};
use tables::tables::Tables;

/// Where the slots of a list begin: those of a function or method at 0, fields at 128.
const FIELDS: u16 = 128;

/// A list of slots: its first row and its length, and the number of its first slot.
#[derive(Clone, Copy)]
struct SlotList {
    first: u16,
    count: u16,
    offset: u16,
    ghost numbered: { IsTrue (offset == 0 || offset == 128) },
}

/// Binds the slot `k` of the list, if it is there.
fn bind_slot(t: &Tables, scope: &mut Scope<'_, '_>, list: SlotList, k: u16)
    requires unbound { lookup (list.offset + k) scope.old ≡ None }
    ensures bound { scope.new ≡ bind_typed (list.offset + k) (declared (content t.now) list.first list.count k) scope.old }
{
    if let Some(to) = declared(t, list.first, list.count, k) {
        scope.bind_unbound(list.offset + k, to);
    }
}

/// Binds the first `n` slots of the list.
fn bind_slots(t: &Tables, scope: &mut Scope<'_, '_>, list: SlotList, n: u16)
    requires unbound { (k : ℕ) → lookup (list.offset + k) scope.old ≡ None }
    ensures bound { scope.new ≡ slots_from list.offset (declared (content t.now) list.first list.count) n scope.old }
{
    // `k` is the number of the slot, which is bound by it
    for k in 0..n {
        bind_slot(t, scope, list, k);
    }
}

/// Binds the parameters of a function, for its body.
pub(crate) fn bind_parameters(t: &Tables, scope: &mut Scope<'_, '_>, function: FunctionRow)
    requires empty { scope.old ≡ [] }
    ensures bound { scope.new ≡ function_scope (content t.now) function }
{
    let list = SlotList {
        first: function.slots_first,
        count: function.slots,
        offset: 0,
    };
    bind_slots(t, scope, list, function.parameters);
}

/// Binds all slots of a method and all fields of its class, for the method's statements.
pub(crate) fn bind_method(t: &Tables, scope: &mut Scope<'_, '_>, class: ClassRow, method: MethodRow)
    requires empty { scope.old ≡ [] }
    ensures bound { scope.new ≡ method_scope (content t.now) class method }
{
    let locals = SlotList {
        first: method.slots_first,
        count: method.slots,
        offset: 0,
    };
    bind_slots(t, scope, locals, method.slots);
    let fields = SlotList {
        first: class.fields_first,
        count: class.fields,
        offset: FIELDS,
    };
    bind_slots(t, scope, fields, class.fields);
}
