use tables::rows::{ClassRow, FunctionRow};

/// Where an expression stands: in a function, or in a statement of a class.
#[derive(Clone, Copy)]
pub enum Within {
    Function(FunctionRow),
    Class(ClassRow),
}
