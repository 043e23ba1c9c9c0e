//! Statements: whether they keep the rule of their kind.
ghost use Rattle.std.specs.Prelude.{◌≡◌};
ghost use Rattle.tables.specs.Layout.{content};
ghost use Rattle.mapping.specs.Bindings.{lookup};
ghost use Rattle.rules.specs.Words.{passes};
ghost use Rattle.typing.specs.declared.within.Within.TheVariants.{Class};
ghost use Rattle.typing.specs.Giving.{Gives};
ghost use Rattle.typing.specs.Statements.{awaitable, all_awaitable, type_here, arguments_here, future_value, goes_on, takes, takes_object, reached, new_rule, call_rule, statement_rule};

use crate::calls::{
    Heading, awaitable, class_parameters, given_by, heading_parameters, method_named,
    signature_named, value_of,
};
use crate::declared::lists_type;
use crate::expressions::Expressions;
use crate::scope::Scope;
use crate::within::Within;
use syntax::statements::{Call, Creation, Statement};
use syntax::types::{ValueType, agree, type_at};
use tables::rows::{ClassRow, ListRow, MethodRow};
use tables::tables::Tables;

/// The statements of a method of a class.
#[derive(Clone, Copy)]
pub struct Statements<'a> {
    pub t: &'a Tables,
    pub class: ClassRow,
    pub method: MethodRow,
}

impl<'a> Statements<'a> {
    /// Whether the statement keeps the rule of its kind.
    pub(crate) fn keeps_rule(&self, scope: &mut Scope<'_, '_>, statement: Statement) -> bool
        ensures gives { Gives (statement_rule (content self.now.t.now) self.now.class scope.old self.now.method statement) scope.old result scope.new }
    {
        match statement {
            Statement::Skip { next } | Statement::Suspend { next } => self.goes_on(next),
            Statement::Assign {
                target,
                value,
                next,
            } => {
                let of = self.type_here(scope, value);
                takes(scope, target, of) && self.goes_on(next)
            }
            Statement::Branch { test, next, other } => {
                let of = self.type_here(scope, test);
                agree(of, Some(ValueType::Bool)) && self.goes_on(next) && self.goes_on(other)
            }
            Statement::Await { slots, next } => {
                awaited(scope, slots.as_slice()) && self.goes_on(next)
            }
            Statement::Get {
                target,
                future,
                next,
            } => {
                let of = self.future_value(scope, future);
                takes(scope, target, of) && self.goes_on(next)
            }
            Statement::New {
                target,
                creation,
                next,
            } => { self.new_fits(scope, target, creation) && self.goes_on(next) }
            Statement::Call { target, call, next } => {
                self.call_fits(scope, target, call) && self.goes_on(next)
            }
            Statement::Return { value } => {
                let of = self.type_here(scope, value);
                agree(of, type_at(self.t, self.method.result))
            }
        }
    }

    fn expressions(&self) -> Expressions<'a>
        ensures model { result.t ≡ self.now.t }
        ensures within { result.within ≡ Class self.now.class }
    {
        Expressions {
            t: self.t,
            within: Within::Class(self.class),
        }
    }

    /// The type of an expression of the statement.
    fn type_here(&self, scope: &mut Scope<'_, '_>, row: u16) -> Option<ValueType>
        ensures gives { Gives (type_here (content self.now.t.now) self.now.class scope.old row) scope.old result scope.new }
    {
        self.expressions().type_of(scope, row)
    }

    /// Whether the arguments of the statement have the types of the parameters, one for one.
    fn arguments_here(
        &self,
        scope: &mut Scope<'_, '_>,
        arguments: &[u16],
        parameters: &[ListRow],
    ) -> bool
        ensures gives { Gives (arguments_here (content self.now.t.now) self.now.class scope.old arguments.now parameters.now) scope.old result scope.new }
    {
        self.expressions().all_fit(scope, arguments, parameters)
    }

    /// Whether the statement in this row is one of the method.
    pub(crate) fn goes_on(&self, next: u16) -> bool
        ensures within { result ≡ goes_on self.now.method next }
    {
        let first = self.method.statements_first;
        first <= next && (next as usize) < first as usize + self.method.statements_count as usize
    }

    /// The type of the value of a future.
    fn future_value(&self, scope: &mut Scope<'_, '_>, future: u16) -> Option<ValueType>
        ensures gives { Gives (future_value (content self.now.t.now) self.now.class scope.old future) scope.old result scope.new }
    {
        let of = self.type_here(scope, future)?;
        value_of(self.t, of)
    }

    /// What a call reaches.
    fn callee(&self, scope: &mut Scope<'_, '_>, object: Option<u16>, name: u16) -> Option<Heading>
        ensures gives { Gives (reached (content self.now.t.now) self.now.class scope.old object name) scope.old result scope.new }
    {
        let Some(object) = object else {
            return method_named(self.t, self.class, name);
        };
        let of = self.type_here(scope, object)?;
        signature_named(self.t, of, name)
    }

    fn new_fits(&self, scope: &mut Scope<'_, '_>, target: Option<u16>, creation: Creation) -> bool
        ensures gives { Gives (new_rule (content self.now.t.now) self.now.class scope.old target creation) scope.old result scope.new }
    {
        // Not `is_some_and`, here and in `call_fits`: a closure that changes the scope needs clauses as long as the function's.
        let Some(class) = self.t.classes.get(creation.class as usize).copied() else {
            return false;
        };
        let parameters = class_parameters(self.t, class);
        self.arguments_here(scope, creation.arguments.as_slice(), parameters)
            && self.takes_object(scope, target, class)
    }

    fn call_fits(&self, scope: &mut Scope<'_, '_>, target: Option<u16>, call: Call) -> bool
        ensures gives { Gives (call_rule (content self.now.t.now) self.now.class scope.old target call) scope.old result scope.new }
    {
        let Some(heading) = self.callee(scope, call.object, call.name) else {
            return false;
        };
        let parameters = heading_parameters(self.t, heading);
        let of = given_by(self.t, call.manner, heading.result);
        self.arguments_here(scope, call.arguments.as_slice(), parameters)
            && takes(scope, target, of)
    }

    /// Whether the target, if any, is of an interface that the class lists.
    fn takes_object(&self, scope: &Scope<'_, '_>, target: Option<u16>, class: ClassRow) -> bool
        ensures takes { result ≡ takes_object (content self.now.t.now) scope.now target class }
    {
        // not `map_or`, which did not prove over the scope; nor in `takes`
        let Some(slot) = target else {
            return true;
        };
        scope
            .find(slot)
            .is_some_and(|of| lists_type(self.t, class, of))
    }
}

/// Whether there is such a type, and the target, if any, has it too.
fn takes(scope: &Scope<'_, '_>, target: Option<u16>, of: Option<ValueType>) -> bool
    ensures takes { result ≡ takes scope.now target of }
{
    let Some(slot) = target else {
        return of.is_some();
    };
    agree(scope.find(slot), of)
}

/// Whether an await may name the slot.
fn slot_awaitable(scope: &Scope<'_, '_>, slot: u16) -> bool
    ensures awaitable { result ≡ passes (lookup slot scope.now) awaitable }
{
    scope.find(slot).is_some_and(awaitable)
}

/// Whether an await may name the slots.
fn awaited(scope: &Scope<'_, '_>, slots: &[u16]) -> bool
    ensures awaitable { result ≡ all_awaitable scope.now slots.now }
{
    slots.iter().all(|slot| slot_awaitable(scope, *slot))
}
