//! What a row of the types says.
ghost use Rattle.std.specs.Prelude.{◌≡◌};
ghost use Rattle.tables.specs.Kinds.{type_kind};
ghost use Rattle.rules.specs.Types.{refers, same_type, is_unit, is_plain, is_interface};

use tables::kinds::TypeKind;
use tables::rows::TypeRow;

fn refers(kind: u16) -> bool
    ensures refers { result ≡ refers (type_kind kind) }
{
    matches!(
        TypeKind::try_from(kind),
        Ok(TypeKind::Data | TypeKind::Interface | TypeKind::Future)
    )
}

/// Whether the two rows are the same type.
pub fn same_type(x: TypeRow, y: TypeRow) -> bool
    ensures same { result ≡ same_type x y }
{
    let same_kind = x.kind == y.kind;
    if !refers(x.kind) {
        return same_kind;
    }
    // `&` and not `&&`: with no branch between the two, a search compares several rows at once
    same_kind & (x.reference == y.reference)
}

/// Whether the row is Unit.
pub fn is_unit(x: TypeRow) -> bool
    ensures unit { result ≡ is_unit x }
{
    TypeKind::try_from(x.kind) == Ok(TypeKind::Unit)
}

/// Whether the row is Unit, Bool or Int.
pub fn is_plain(x: TypeRow) -> bool
    ensures plain { result ≡ is_plain x }
{
    matches!(
        TypeKind::try_from(x.kind),
        Ok(TypeKind::Unit | TypeKind::Bool | TypeKind::Int)
    )
}

/// Whether the row is an interface.
pub fn is_interface(x: TypeRow) -> bool
    ensures interface { result ≡ is_interface x }
{
    TypeKind::try_from(x.kind) == Ok(TypeKind::Interface)
}
