//! Values, and the cells that hold data with parts.
ghost use Rattle.std.specs.Prelude.{◌≡◌, ◌≤◌, [], length};
ghost use Rattle.evaluation.specs.declared.value.Value.TheVariants.{Unit};
ghost use Rattle.evaluation.specs.Matching.{literal};
ghost use Rattle.evaluation.specs.Values.{int_of, truth_of, cell_of, same_value, values_of, with_value};

use mapping::mapping::Blank;

/// What an expression is worth.
#[derive(Clone, Copy, PartialEq, Eq, Debug)]
pub enum Value {
    Unit,
    Bool(bool),
    Int(i64),
    /// No object, or no future.
    Null,
    /// An object, by its number.
    Object(u16),
    /// The future of a call, by the call's number.
    Future(u16),
    /// Data without parts, by its constructor's row.
    Constant(u16),
    /// Data with parts, by the number of the cell that holds it.
    Cell(u16),
}

impl Blank for Value {
    ghost blank = { Unit };

    fn blank() -> Value {
        Value::Unit
    }
}

/// The Int of a literal, whose 16 bits are in two's complement.
pub(crate) fn literal(n: u16) -> Value
    ensures literal { result ≡ literal n }
{
    Value::Int(i64::from(n.cast_signed()))
}

impl Value {
    /// The number of an Int; any other value counts as 0, which in a typed expression is never asked.
    pub(crate) fn int(self) -> i64
        ensures int { result ≡ int_of self }
    {
        match self {
            Value::Int(n) => n,
            _ => 0,
        }
    }

    /// Whether a Bool is True; any other value counts as False, which in a typed expression is never asked.
    pub fn truth(self) -> bool
        ensures truth { result ≡ truth_of self }
    {
        self == Value::Bool(true)
    }

    /// The cell that holds the data, if it has parts.
    pub(crate) fn cell(self) -> Option<u16>
        ensures cell { result ≡ cell_of self }
    {
        match self {
            Value::Cell(cell) => Some(cell),
            _ => None,
        }
    }

    /// Whether both are of one kind and hold the same.
    #[inline(always)]
    pub(crate) fn same(self, other: Value) -> bool
        ensures same { result ≡ same_value self other }
    {
        self == other
    }
}

/// Four values at most: the first `count` of four.
// An array with a count, and no `ArrayVec`, which is not `Copy`: a cell is copied with its parts.
#[derive(Clone, Copy, PartialEq, Eq, Debug)]
pub struct Values {
    values: [Value; 4],
    count: usize,
}

impl Values {
    /// No value.
    pub fn new() -> Values
        ensures none { values_of result ≡ [] }
    {
        Values {
            values: [Value::Unit; 4],
            count: 0,
        }
    }

    pub fn as_slice(&self) -> &[Value]
        ensures values { result.now ≡ values_of self.now }
        ensures few { length result.now ≤ 4 }
    {
        self.values.get(..self.count).unwrap_or(&self.values)
    }

    /// One value more; where there are four, nothing changes.
    pub fn push(&mut self, value: Value)
        ensures more { values_of self.new ≡ with_value (values_of self.old) value }
    {
        if self.count < 4 {
            self.values[self.count] = value;
            self.count += 1;
        }
    }
}

/// Data with parts: the row of its constructor, and the parts.
#[derive(Clone, Copy, PartialEq, Eq, Debug)]
pub struct Cell {
    pub constructor: u16,
    pub parts: Values,
}
