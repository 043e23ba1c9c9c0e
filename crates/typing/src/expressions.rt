//! The type of an expression, by a recursion on its row: children stand in lower rows.
ghost use Rattle.std.specs.Prelude.{◌≡◌, Some};
ghost use Rattle.tables.specs.Layout.{content};
ghost use Rattle.syntax.specs.Types.{agree};
ghost use Rattle.typing.specs.Expressions.{type_in, type_rule, arguments_fit, constructor_type, function_type, branch_type, all_have, common_type, case_type, both};
ghost use Rattle.typing.specs.Giving.{Gives};
ghost use Rattle.typing.specs.Views.{lower_types};

use crate::declared::{
    branches_of, entry_type, function_parameters, null_type, parameters_of, this_type,
};
use crate::patterns::Patterns;
use crate::scope::Scope;
use crate::within::Within;
use syntax::nodes::{Node, Parts, node_at};
use syntax::types::{ValueType, agree, type_at};
use tables::rows::{BranchRow, FunctionRow, ListRow};
use tables::tables::Tables;

/// The expressions of a function, or of the statements of a class.
#[derive(Clone, Copy)]
pub struct Expressions<'a> {
    pub t: &'a Tables,
    pub within: Within,
}

/// A case, by its function and the type of what it examines.
#[derive(Clone, Copy)]
pub struct Examined {
    pub function: FunctionRow,
    pub to: ValueType,
}

// In these functions `scope` and `row` stay two parameters: the scope is lent on from call to call, and the row falls.
impl Expressions<'_> {
    /// The type of the expression in this row, if it has one.
    #[cycle(expression_types)]
    pub(crate) fn type_of(&self, scope: &mut Scope<'_, '_>, row: u16) -> Option<ValueType>
        ensures gives { Gives (type_in (content self.now.t.now) self.now.within row scope.old) scope.old result scope.new }
    {
        let node = node_at(self.t, row)?;
        self.node_type(scope, row as usize, node)
    }

    /// The type of a node, whose children stand below this row.
    #[cycle(expression_types)]
    fn node_type(&self, scope: &mut Scope<'_, '_>, row: usize, node: Node) -> Option<ValueType>
        ensures gives { Gives (type_rule (content self.now.t.now) self.now.within (lower_types self.now row) scope.old node) scope.old result scope.new }
    {
        match node {
            Node::Unit => Some(ValueType::Unit),
            Node::False | Node::True => Some(ValueType::Bool),
            Node::Int(_) => Some(ValueType::Int),
            Node::Null(of) => null_type(self.t, of),
            Node::Slot(slot) => scope.find(slot),
            Node::This(of) => this_type(self.t, self.within, of),
            Node::Constructor(constructor, children) => {
                self.constructor_type(scope, row, constructor, children)
            }
            Node::Function(function, arguments) => {
                self.function_type(scope, row, function, arguments)
            }
            Node::Case(examined, first) => self.case_type(scope, row, examined, first),
            Node::Add(a, b) | Node::Subtract(a, b) | Node::Divide(a, b) => self
                .both(scope, row, ValueType::Int, a, b)
                .then_some(ValueType::Int),
            Node::Less(a, b) => self
                .both(scope, row, ValueType::Int, a, b)
                .then_some(ValueType::Bool),
            Node::Equal(a, b) => self.alike(scope, row, a, b).then_some(ValueType::Bool),
            Node::Not(a) => self
                .has(scope, row, ValueType::Bool, a)
                .then_some(ValueType::Bool),
            Node::And(a, b) => self
                .both(scope, row, ValueType::Bool, a, b)
                .then_some(ValueType::Bool),
            Node::Wildcard | Node::Variable(_) => None,
        }
    }

    /// The type of a child, if it stands below this row.
    #[cycle(expression_types)]
    fn lower_type(&self, scope: &mut Scope<'_, '_>, row: usize, child: u16) -> Option<ValueType>
        ensures gives { Gives (lower_types self.now row child scope.old) scope.old result scope.new }
    {
        if child as usize >= row {
            return None;
        }
        self.type_of(scope, child)
    }

    /// Whether a child has this type.
    #[cycle(expression_types)]
    fn has(&self, scope: &mut Scope<'_, '_>, row: usize, to: ValueType, child: u16) -> bool
        ensures gives { Gives (agree (lower_types self.now row child scope.old) (Some to)) scope.old result scope.new }
    {
        agree(self.lower_type(scope, row, child), Some(to))
    }

    /// Whether two children have this type.
    #[cycle(expression_types)]
    fn both(&self, scope: &mut Scope<'_, '_>, row: usize, to: ValueType, a: u16, b: u16) -> bool
        ensures gives { Gives (both (content self.now.t.now) self.now.within (lower_types self.now row) scope.old to a b) scope.old result scope.new }
    {
        self.has(scope, row, to, a) && self.has(scope, row, to, b)
    }

    /// Whether two children have one type.
    #[cycle(expression_types)]
    fn alike(&self, scope: &mut Scope<'_, '_>, row: usize, a: u16, b: u16) -> bool
        ensures gives { Gives (agree (lower_types self.now row a scope.old) (lower_types self.now row b scope.old)) scope.old result scope.new }
    {
        let first = self.lower_type(scope, row, a);
        agree(first, self.lower_type(scope, row, b))
    }

    #[cycle(expression_types)]
    fn constructor_type(
        &self,
        scope: &mut Scope<'_, '_>,
        row: usize,
        constructor: u16,
        children: Parts,
    ) -> Option<ValueType>
        ensures gives { Gives (constructor_type (content self.now.t.now) self.now.within (lower_types self.now row) scope.old constructor children) scope.old result scope.new }
    {
        let constructor = self.t.constructors.get(constructor as usize).copied()?;
        let parameters = parameters_of(self.t, constructor);
        self.arguments_fit(scope, row, children.as_slice(), parameters)
            .then_some(ValueType::Data(constructor.number))
    }

    #[cycle(expression_types)]
    fn function_type(
        &self,
        scope: &mut Scope<'_, '_>,
        row: usize,
        function: u16,
        arguments: Parts,
    ) -> Option<ValueType>
        ensures gives { Gives (function_type (content self.now.t.now) self.now.within (lower_types self.now row) scope.old function arguments) scope.old result scope.new }
    {
        let function = self.t.functions.get(function as usize).copied()?;
        let parameters = function_parameters(self.t, function);
        if self.arguments_fit(scope, row, arguments.as_slice(), parameters) {
            type_at(self.t, function.result)
        } else {
            None
        }
    }

    /// Whether the arguments, which stand below this row, have the types of the parameters, one for one.
    #[cycle(expression_types)]
    fn arguments_fit(
        &self,
        scope: &mut Scope<'_, '_>,
        row: usize,
        arguments: &[u16],
        parameters: &[ListRow],
    ) -> bool
        ensures gives { Gives (arguments_fit (content self.now.t.now) self.now.within (lower_types self.now row) scope.old arguments.now parameters.now) scope.old result scope.new }
    {
        if arguments.len() != parameters.len() {
            return false;
        }
        for (argument, parameter) in arguments.iter().zip(parameters) {
            let to = entry_type(self.t, *parameter);
            if !agree(self.lower_type(scope, row, *argument), to) {
                return false;
            }
        }
        true
    }

    #[cycle(expression_types)]
    fn case_type(
        &self,
        scope: &mut Scope<'_, '_>,
        row: usize,
        examined: u16,
        first: u16,
    ) -> Option<ValueType>
        ensures gives { Gives (case_type (content self.now.t.now) self.now.within (lower_types self.now row) self.now.within scope.old examined first) scope.old result scope.new }
    {
        let Within::Function(function) = self.within else {
            return None;
        };
        let to = self.lower_type(scope, row, examined)?;
        let case = Examined { function, to };
        self.common_type(scope, row, case, branches_of(self.t, first))
    }

    /// The type of the first branch, if the others have it too.
    #[cycle(expression_types)]
    fn common_type(
        &self,
        scope: &mut Scope<'_, '_>,
        row: usize,
        case: Examined,
        branches: &[BranchRow],
    ) -> Option<ValueType>
        ensures gives { Gives (common_type (content self.now.t.now) self.now.within (lower_types self.now row) case.function scope.old case.to branches.now) scope.old result scope.new }
    {
        let (first, rest) = branches.split_first()?;
        let common = self.branch_type(scope, row, case, *first)?;
        self.all_have(scope, row, case, common, rest)
            .then_some(common)
    }

    /// Whether all branches have this type.
    #[cycle(expression_types)]
    fn all_have(
        &self,
        scope: &mut Scope<'_, '_>,
        row: usize,
        case: Examined,
        common: ValueType,
        branches: &[BranchRow],
    ) -> bool
        ensures gives { Gives (all_have (content self.now.t.now) self.now.within (lower_types self.now row) case.function scope.old case.to common branches.now) scope.old result scope.new }
    {
        // Not `all`: a closure that changes the scope tells the proof nothing.
        for branch in branches {
            if !agree(self.branch_type(scope, row, case, *branch), Some(common)) {
                return false;
            }
        }
        true
    }

    /// The type of a branch's body, in the scope behind its pattern; the bindings do not outlive the body.
    #[cycle(expression_types)]
    fn branch_type(
        &self,
        scope: &mut Scope<'_, '_>,
        row: usize,
        case: Examined,
        branch: BranchRow,
    ) -> Option<ValueType>
        ensures gives { Gives (branch_type (content self.now.t.now) self.now.within (lower_types self.now row) case.function scope.old case.to branch) scope.old result scope.new }
    {
        let before = scope.length();
        let patterns = Patterns {
            t: self.t,
            function: case.function,
        };
        let found = if patterns.fits(scope, branch.pattern, case.to) {
            self.lower_type(scope, row, branch.body)
        } else {
            None
        };
        scope.cut(before);
        found
    }
}

/// A row that every row of a model stands below.
const ABOVE_ALL: usize = 65_536;

impl Expressions<'_> {
    /// Whether the arguments have the types of the parameters, one for one.
    pub(crate) fn all_fit(
        &self,
        scope: &mut Scope<'_, '_>,
        arguments: &[u16],
        parameters: &[ListRow],
    ) -> bool
        ensures gives { Gives (arguments_fit (content self.now.t.now) self.now.within (type_in (content self.now.t.now) self.now.within) scope.old arguments.now parameters.now) scope.old result scope.new }
    {
        self.arguments_fit(scope, ABOVE_ALL, arguments, parameters)
    }
}
