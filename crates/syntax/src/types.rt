//! Types.
ghost use Rattle.std.specs.Prelude.{◌≡◌, Bool};
ghost use Rattle.tables.specs.Layout.{content};
ghost use Rattle.syntax.specs.declared.types.ValueType.TheVariants.{Unit};
ghost use Rattle.tables.specs.Kinds.{known};
ghost use Rattle.syntax.specs.Types.{type_of, agree, nullable, type_at};

use mapping::mapping::Blank;
use tables::kinds::{TypeKind, UnknownKind};
use tables::rows::TypeRow;
use tables::tables::Tables;

/// The type of an expression, a slot or a field: a data by its number, an interface by its row, and a future by the row of
/// the type of its value.
#[derive(Clone, Copy, PartialEq, Eq, Debug)]
pub enum ValueType {
    Unit,
    Bool,
    Int,
    Data(u16),
    Interface(u16),
    Future(u16),
}

impl Blank for ValueType {
    ghost blank = { Unit };

    fn blank() -> ValueType {
        ValueType::Unit
    }
}

/// The type that the row says, if its kind is known.
impl TryFrom<TypeRow> for ValueType {
    type Error = UnknownKind;

    ghost try_from_gives = { λ row r. r ≡ known row.kind (type_of row) };

    fn try_from(row: TypeRow) -> Result<ValueType, UnknownKind> {
        let of = match TypeKind::try_from(row.kind)? {
            TypeKind::Unit => ValueType::Unit,
            TypeKind::Bool => ValueType::Bool,
            TypeKind::Int => ValueType::Int,
            TypeKind::Data => ValueType::Data(row.reference),
            TypeKind::Interface => ValueType::Interface(row.reference),
            TypeKind::Future => ValueType::Future(row.reference),
        };
        Ok(of)
    }
}

impl ValueType {
    /// Whether null is a value of the type.
    pub fn nullable(self) -> bool
        ensures nullable { result ≡ nullable self }
    {
        matches!(self, ValueType::Interface(_) | ValueType::Future(_))
    }
}

/// Whether both are there, and the same type.
pub fn agree(a: Option<ValueType>, b: Option<ValueType>) -> bool
    ensures agree { result ≡ agree a b }
{
    a.is_some() && a == b
}

/// The type in this row, if there is one.
pub fn type_at(t: &Tables, row: u16) -> Option<ValueType>
    ensures says { result ≡ type_at (content t.now) row }
{
    let row = t.types.get(row as usize).copied()?;
    ValueType::try_from(row).ok()
}
