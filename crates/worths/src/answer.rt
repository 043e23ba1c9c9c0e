//! What is printed of a case.
ghost use Rattle.std.specs.Prelude.{Some};
ghost use Rattle.worths.specs.Texts.{value_text, evaluation_text, answer_text};

use evaluation::refusal::EvaluationRefusal;
use evaluation::value::Value;
use std::fmt;

/// What an expression came to.
#[derive(Clone, Copy)]
pub struct Evaluation {
    pub worth: Result<Value, EvaluationRefusal>,
    /// how many visits were made
    pub visits: usize,
    /// how many cells are in use afterwards
    pub cells: usize,
}

/// What is printed of a case.
#[derive(Clone, Copy)]
pub enum Answer {
    Evaluated(Evaluation),
    NoFunction,
    NotAccepted,
    NotACase,
}

/// A value, as it is printed.
#[derive(Clone, Copy)]
struct Worth(Value);

impl fmt::Display for Worth {
    ghost output = { λ w. Some (value_text w.0) };

    fn fmt<W: fmt::Write>(&self, f: &mut fmt::Formatter<W>) -> fmt::Result {
        match self.0 {
            Value::Unit => write!(f, "unit"),
            Value::Bool(truth) => write!(f, "{truth}"),
            Value::Int(number) => write!(f, "{number}"),
            Value::Null => write!(f, "null"),
            Value::Object(object) => write!(f, "object {object}"),
            Value::Future(call) => write!(f, "future {call}"),
            Value::Constant(row) => write!(f, "data row {row}"),
            Value::Cell(cell) => write!(f, "cell {cell}"),
        }
    }
}

impl fmt::Display for Evaluation {
    ghost output = { λ e. Some (evaluation_text e) };

    fn fmt<W: fmt::Write>(&self, f: &mut fmt::Formatter<W>) -> fmt::Result {
        let (visits, cells) = (self.visits, self.cells);
        match self.worth {
            Ok(value) => write!(f, "{} visits {visits} cells {cells}", Worth(value)),
            Err(refusal) => {
                let number = refusal.number();
                write!(f, "refused {number} visits {visits} cells {cells}")
            }
        }
    }
}

impl fmt::Display for Answer {
    ghost output = { λ a. Some (answer_text a) };

    fn fmt<W: fmt::Write>(&self, f: &mut fmt::Formatter<W>) -> fmt::Result {
        match self {
            Answer::Evaluated(evaluation) => write!(f, "{evaluation}"),
            Answer::NoFunction => write!(f, "no function"),
            Answer::NotAccepted => write!(f, "not accepted"),
            Answer::NotACase => write!(f, "not a case"),
        }
    }
}
