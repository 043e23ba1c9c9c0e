//! Patterns: which types they fit, and what they bind.
ghost use Rattle.std.specs.Prelude.{◌≡◌, ◌<◌};
ghost use Rattle.tables.specs.Layout.{content};
ghost use Rattle.typing.specs.Matching.{Matched};
ghost use Rattle.typing.specs.Patterns.{pattern_scope, pattern_rule, constructor_scope, child_scope, children_scope, variable_scope};
ghost use Rattle.typing.specs.Views.{lower_scopes};

use crate::declared::{declared, entry_type, null_type, parameters_of};
use crate::scope::Scope;
use syntax::nodes::{Node, Parts, node_at};
use syntax::types::{ValueType, agree};
use tables::rows::{FunctionRow, ListRow};
use tables::tables::Tables;

/// The patterns of a function.
#[derive(Clone, Copy)]
pub struct Patterns<'a> {
    pub t: &'a Tables,
    pub function: FunctionRow,
}

// In these functions `scope` and `row` stay two parameters: the scope is lent on from call to call, and the row falls.
impl Patterns<'_> {
    /// Whether the pattern in this row fits the type; it binds its variables, left to right.
    #[cycle(pattern_fits)]
    pub(crate) fn fits(&self, scope: &mut Scope<'_, '_>, row: u16, to: ValueType) -> bool
        ensures matched { Matched (pattern_scope (content self.now.t.now) self.now.function row scope.old to) scope.old result scope.new }
    {
        // Not `is_some_and`, here and in the next functions: in a cycle of calls a closure needs clauses as long as the function's.
        let Some(node) = node_at(self.t, row) else {
            return false;
        };
        self.node_fits(scope, row, node, to)
    }

    /// The same of a node, whose children stand below this row.
    #[cycle(pattern_fits)]
    fn node_fits(&self, scope: &mut Scope<'_, '_>, row: u16, node: Node, to: ValueType) -> bool
        ensures matched { Matched (pattern_rule (content self.now.t.now) self.now.function (lower_scopes self.now row) scope.old node to) scope.old result scope.new }
    {
        match node {
            Node::Unit => to == ValueType::Unit,
            Node::False | Node::True => to == ValueType::Bool,
            Node::Int(_) => to == ValueType::Int,
            Node::Null(of) => agree(null_type(self.t, of), Some(to)),
            Node::Constructor(constructor, children) => {
                self.constructor_fits(scope, row, constructor, children, to)
            }
            Node::Variable(slot) => self.variable_fits(scope, slot, to),
            Node::Wildcard => true,
            _ => false,
        }
    }

    fn variable_fits(&self, scope: &mut Scope<'_, '_>, slot: u16, to: ValueType) -> bool
        ensures matched { Matched (variable_scope (content self.now.t.now) self.now.function scope.old slot to) scope.old result scope.new }
    {
        let function = self.function;
        let of = declared(self.t, function.slots_first, function.slots, slot);
        if !agree(of, Some(to)) {
            return false;
        }
        scope.bind(slot, to);
        true
    }

    #[cycle(pattern_fits)]
    fn constructor_fits(
        &self,
        scope: &mut Scope<'_, '_>,
        row: u16,
        constructor: u16,
        children: Parts,
        to: ValueType,
    ) -> bool
        ensures matched { Matched (constructor_scope (content self.now.t.now) self.now.function (lower_scopes self.now row) scope.old constructor children to) scope.old result scope.new }
    {
        let Some(constructor) = self.t.constructors.get(constructor as usize).copied() else {
            return false;
        };
        let parameters = parameters_of(self.t, constructor);
        to == ValueType::Data(constructor.number)
            && self.children_fit(scope, row, children.as_slice(), parameters)
    }

    /// Whether the children fit the parameters, one for one.
    #[cycle(pattern_fits)]
    fn children_fit(
        &self,
        scope: &mut Scope<'_, '_>,
        row: u16,
        children: &[u16],
        parameters: &[ListRow],
    ) -> bool
        ensures matched { Matched (children_scope (content self.now.t.now) self.now.function (lower_scopes self.now row) scope.old children.now parameters.now) scope.old result scope.new }
    {
        if children.len() != parameters.len() {
            return false;
        }
        for (child, parameter) in children.iter().zip(parameters) {
            if !self.child_fits(scope, row, *child, *parameter) {
                return false;
            }
        }
        true
    }

    #[cycle(pattern_fits)]
    fn child_fits(
        &self,
        scope: &mut Scope<'_, '_>,
        row: u16,
        child: u16,
        parameter: ListRow,
    ) -> bool
        ensures matched { Matched (child_scope (content self.now.t.now) self.now.function (lower_scopes self.now row) scope.old child parameter) scope.old result scope.new }
    {
        let Some(to) = entry_type(self.t, parameter) else {
            return false;
        };
        child < row && self.fits(scope, child, to)
    }
}
