//! Which functions and which placed statements have no type.
ghost use Rattle.std.specs.Prelude.{◌≡◌, not, IfOk};
ghost use Rattle.tables.specs.Layout.{content};
ghost use Rattle.typing.specs.Scopes.{method_scope};
ghost use Rattle.typing.specs.Statements.{statement_rule};
ghost use Rattle.typing.specs.Typing.{function_typed, statement_typed, placed_in, untyped_in, untyped_function, untyped_statement, typing_verdict};

use crate::expressions::Expressions;
use crate::rule::TypingRule;
use crate::scope::Scope;
use crate::slots::{bind_method, bind_parameters};
use crate::statements::Statements;
use crate::within::Within;
use mapping::mapping::{Binding, Mapping};
use placement::holder;
use placement::holders::{method_classes, statement_methods};
use rules::faults::{RowTest, first_row};
use std::alloc::{AllocError, Global};
use syntax::statements::Statement;
use syntax::types::{ValueType, agree, type_at};
use tables::place::{Fault, Place, Table};
use tables::rows::{ClassRow, FunctionRow, MethodRow, StatementRow};
use tables::tables::Tables;

/// A binding in memory that is not in use.
const UNUSED: Binding<ValueType> = Binding {
    slot: 0,
    entry: ValueType::Unit,
};

/// Whether the function's body has the type of its result.
fn function_typed(t: &Tables, function: FunctionRow) -> bool
    ensures typed { result ≡ function_typed (content t.now) function }
{
    let mut memory = [UNUSED; 16];
    let mut mapping = Mapping::new(&mut memory);
    let mut scope = Scope::new(&mut mapping);
    bind_parameters(t, &mut scope, function);
    let expressions = Expressions {
        t,
        within: Within::Function(function),
    };
    agree(
        expressions.type_of(&mut scope, function.body),
        type_at(t, function.result),
    )
}

/// Where a statement stands: the method, and the method's class.
#[derive(Clone, Copy)]
pub struct Placed {
    pub class: ClassRow,
    pub method: MethodRow,
}

/// Whether the statement keeps the rule of its kind.
fn keeps_rule(t: &Tables, placed: Placed, statement: Statement) -> bool
    ensures keeps { result ≡ statement_rule (content t.now) placed.class (method_scope (content t.now) placed.class placed.method) placed.method statement }
{
    let statements = Statements {
        t,
        class: placed.class,
        method: placed.method,
    };
    // such a statement names no slot, so none is bound for it
    if let Statement::Skip { next } | Statement::Suspend { next } = statement {
        return statements.goes_on(next);
    }
    let mut memory = [UNUSED; 16];
    let mut mapping = Mapping::new(&mut memory);
    let mut scope = Scope::new(&mut mapping);
    bind_method(t, &mut scope, placed.class, placed.method);
    statements.keeps_rule(&mut scope, statement)
}

/// Whether the row is of a known kind and keeps the rule of that kind.
fn statement_typed(t: &Tables, placed: Placed, row: StatementRow) -> bool
    ensures typed { result ≡ statement_typed (content t.now) placed.class placed.method row }
{
    Statement::try_from(row).is_ok_and(|statement| keeps_rule(t, placed, statement))
}

/// The functions of a model.
#[derive(Clone, Copy)]
struct Functions<'a> {
    t: &'a Tables,
}

impl RowTest<FunctionRow> for Functions<'_> {
    ghost broken = { λ s r x. not (function_typed (content s.t.now) x) };

    fn breaks(&self, _row: usize, x: FunctionRow) -> bool {
        !function_typed(self.t, x)
    }
}

/// The statements of a model, with the method of each statement and the class of each method.
#[derive(Clone, Copy)]
struct PlacedStatements<'a> {
    t: &'a Tables,
    methods: &'a [Option<Place>],
    classes: &'a [Option<Place>],
}

impl PlacedStatements<'_> {
    /// Where the statement in this row stands, if it is placed.
    fn placed_in(&self, row: usize) -> Option<Placed>
        ensures placed { result ≡ placed_in (content self.now.t.now) self.now.methods.now self.now.classes.now row }
    {
        let place = holder(self.methods, row)?;
        let method = self.t.methods.get(place.row).copied()?;
        let owner = holder(self.classes, place.row)?;
        let class = self.t.classes.get(owner.row).copied()?;
        Some(Placed { class, method })
    }
}

impl RowTest<StatementRow> for PlacedStatements<'_> {
    ghost broken = { λ s r x. untyped_in (content s.t.now) s.methods.now s.classes.now r x };

    fn breaks(&self, row: usize, x: StatementRow) -> bool {
        self.placed_in(row)
            .is_some_and(|placed| !statement_typed(self.t, placed, x))
    }
}

/// The first function without a type.
fn untyped_function(t: &Tables) -> Option<Fault<TypingRule>>
    ensures first { result ≡ untyped_function (content t.now) }
{
    first_row(
        t.functions.as_slice(),
        &Functions { t },
        TypingRule::Function,
        Table::Functions,
    )
}

/// The first placed statement without a type.
fn untyped_statement(
    t: &Tables,
    methods: &[Option<Place>],
    classes: &[Option<Place>],
) -> Option<Fault<TypingRule>>
    ensures first { result ≡ untyped_statement (content t.now) methods.now classes.now }
{
    let statements = PlacedStatements {
        t,
        methods,
        classes,
    };
    first_row(
        t.statements.as_slice(),
        &statements,
        TypingRule::Statement,
        Table::Statements,
    )
}

/// The first function without a type, or else the first placed statement without one.
#[tactic(auto, using(crate::proofs::Verdicts::verdict_by))]
pub fn first_fault(heap: Global, t: &Tables) -> Result<Option<Fault<TypingRule>>, AllocError>
    ensures first { IfOk result (λ v. v ≡ typing_verdict (content t.now)) }
{
    let methods = statement_methods(heap, t)?;
    let classes = method_classes(heap, t)?;
    let (methods, classes) = (methods.as_slice(), classes.as_slice());
    Ok(untyped_function(t).or_else(|| untyped_statement(t, methods, classes)))
}
