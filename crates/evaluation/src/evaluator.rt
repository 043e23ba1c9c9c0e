use tables::tables::Tables;

pub mod calls;
pub mod comparing;
pub mod evaluating;
pub mod matching;
pub mod worths;

/// The evaluator of a model's expressions, for an object.
#[derive(Clone, Copy)]
pub struct Evaluator<'a> {
    pub t: &'a Tables,
    /// the object that sees itself as `this`
    pub this: u16,
}
