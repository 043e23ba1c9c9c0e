//! Plain values, their sorts, and replies.
ghost use Rattle.std.specs.Prelude.{◌≡◌};
ghost use Rattle.outside.specs.Values.{sort_of};

/// The sorts of plain values.
#[derive(Clone, Copy, PartialEq, Eq, Debug)]
pub enum Sort {
    Unit,
    Bool,
    Int,
}

/// A value that goes to an outside or comes from it.
#[derive(Clone, Copy, PartialEq, Eq, Debug)]
pub enum PlainValue {
    Unit,
    Bool(bool),
    Int(i64),
}

impl PlainValue {
    pub fn sort(self) -> Sort
        ensures sort { result ≡ sort_of self }
    {
        match self {
            PlainValue::Unit => Sort::Unit,
            PlainValue::Bool(_) => Sort::Bool,
            PlainValue::Int(_) => Sort::Int,
        }
    }
}

/// A call's number, and the value of its result.
#[derive(Clone, Copy, PartialEq, Eq, Debug)]
pub struct Reply {
    pub call: u16,
    pub value: PlainValue,
}
