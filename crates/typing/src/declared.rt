//! Types that a model declares: of the slots of a list, of a null, of an object that names itself.
ghost use Rattle.std.specs.Prelude.{◌≡◌, Bool, Some};
ghost use Rattle.tables.specs.Layout.{content};
ghost use Rattle.rules.specs.Words.{part};
ghost use Rattle.syntax.specs.Types.{agree};
ghost use Rattle.typing.specs.Scopes.{entry_type, declared};
ghost use Rattle.typing.specs.Patterns.{null_type, parameters_of};
ghost use Rattle.typing.specs.Expressions.{lists_type, this_type, branches_of, function_parameters};

use crate::within::Within;
use placement::holders::run_length;
use rules::search::listed;
use syntax::types::{ValueType, agree, type_at};
use tables::rows::{BranchRow, ClassRow, ConstructorRow, FunctionRow, ListRow};
use tables::tables::Tables;

/// The type that an entry of a list names.
pub(crate) fn entry_type(t: &Tables, entry: ListRow) -> Option<ValueType>
    ensures names { result ≡ entry_type (content t.now) entry }
{
    type_at(t, entry.entry)
}

/// The type of the slot `k` of the list that begins at `first` and has `count` slots.
pub(crate) fn declared(t: &Tables, first: u16, count: u16, k: u16) -> Option<ValueType>
    ensures declared { result ≡ declared (content t.now) first count k }
{
    if k >= 8 || k >= count {
        return None;
    }
    let entry = t.lists.get(first as usize + k as usize).copied()?;
    entry_type(t, entry)
}

/// The type of the null of this row of the types.
pub(crate) fn null_type(t: &Tables, row: u16) -> Option<ValueType>
    ensures null { result ≡ null_type (content t.now) row }
{
    type_at(t, row).filter(|of| of.nullable())
}

/// Whether the class lists the type among its interfaces.
pub(crate) fn lists_type(t: &Tables, class: ClassRow, named: ValueType) -> bool
    ensures lists { result ≡ lists_type (content t.now) class named }
{
    listed(t, class.interfaces_first, class.interfaces_count)
        .iter()
        .any(|entry| agree(entry_type(t, *entry), Some(named)))
}

/// The type as which an object sees itself, by the row of the types that is named.
pub(crate) fn this_type(t: &Tables, within: Within, row: u16) -> Option<ValueType>
    ensures this { result ≡ this_type (content t.now) within row }
{
    let Within::Class(class) = within else {
        return None;
    };
    type_at(t, row).filter(|of| lists_type(t, class, *of))
}

/// The parameters of a constructor.
pub(crate) fn parameters_of(t: &Tables, constructor: ConstructorRow) -> &[ListRow]
    ensures parameters { result.now ≡ parameters_of (content t.now) constructor }
{
    listed(t, constructor.first, constructor.count)
}

/// The parameters of a function.
pub(crate) fn function_parameters(t: &Tables, function: FunctionRow) -> &[ListRow]
    ensures parameters { result.now ≡ function_parameters (content t.now) function }
{
    listed(t, function.slots_first, function.parameters)
}

/// The branches of the case whose first branch is this one.
pub fn branches_of(t: &Tables, first: u16) -> &[BranchRow]
    ensures branches { result.now ≡ branches_of (content t.now) first }
{
    let rest = t.branches.get(first as usize..).unwrap_or(&[]);
    &rest[..run_length(rest)]
}
