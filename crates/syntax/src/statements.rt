//! Statements.
ghost use Rattle.std.specs.Prelude.{◌≡◌};
ghost use Rattle.tables.specs.Kinds.{known};
ghost use Rattle.syntax.specs.Statements.{one_less, parts_of, new_of, call_of, statement_of};

use crate::nodes::Parts;
use tables::kinds::{StatementKind, UnknownKind};
use tables::rows::StatementRow;

/// The group of a new object.
#[derive(Clone, Copy, PartialEq, Eq, Debug)]
pub enum Group {
    /// That of its maker.
    Own,
    New,
}

/// How a call is made.
#[derive(Clone, Copy, PartialEq, Eq, Debug)]
pub enum Manner {
    Asynchronous,
    Synchronous,
}

/// A new object: its group, its class, and the values of the class's parameters.
#[derive(Clone, Copy, PartialEq, Eq, Debug)]
pub struct Creation {
    pub group: Group,
    pub class: u16,
    pub arguments: Parts,
}

/// A call: the object called, which is a node or, where there is none, the object itself; the method's name; its arguments.
#[derive(Clone, Copy, PartialEq, Eq, Debug)]
pub struct Call {
    pub manner: Manner,
    pub object: Option<u16>,
    pub name: u16,
    pub arguments: Parts,
}

/// What a statement does, with the nodes that it evaluates, the slot that takes its result, if any, and the statement that it
/// goes on to.
#[derive(Clone, Copy, PartialEq, Eq, Debug)]
pub enum Statement {
    Skip {
        next: u16,
    },
    Assign {
        target: Option<u16>,
        value: u16,
        next: u16,
    },
    /// Goes on at `next` where the test is True, else at `other`.
    Branch {
        test: u16,
        next: u16,
        other: u16,
    },
    Suspend {
        next: u16,
    },
    /// Waits for slots, which are no nodes.
    Await {
        slots: Parts,
        next: u16,
    },
    Get {
        target: Option<u16>,
        future: u16,
        next: u16,
    },
    New {
        target: Option<u16>,
        creation: Creation,
        next: u16,
    },
    Call {
        target: Option<u16>,
        call: Call,
        next: u16,
    },
    Return {
        value: u16,
    },
}

/// A number that the format writes as one more, or 0 for none.
fn one_less(number: u16) -> Option<u16>
    ensures less { result ≡ one_less number }
{
    number.checked_sub(1)
}

fn parts_of(row: StatementRow) -> Parts
    ensures parts { result ≡ parts_of row }
{
    Parts {
        rows: [row.p1, row.p2, row.p3, row.p4],
        count: row.count,
    }
}

fn new_of(row: StatementRow, group: Group) -> Statement
    ensures new { result ≡ new_of row group }
{
    Statement::New {
        target: one_less(row.target),
        creation: Creation {
            group,
            class: row.reference,
            arguments: parts_of(row),
        },
        next: row.next,
    }
}

fn call_of(row: StatementRow, manner: Manner) -> Statement
    ensures call { result ≡ call_of row manner }
{
    Statement::Call {
        target: one_less(row.target),
        call: Call {
            manner,
            object: one_less(row.object),
            name: row.reference,
            arguments: parts_of(row),
        },
        next: row.next,
    }
}

/// What the row says, if its kind is known.
impl TryFrom<StatementRow> for Statement {
    type Error = UnknownKind;

    ghost try_from_gives = { λ row r. r ≡ known row.kind (statement_of row) };

    fn try_from(row: StatementRow) -> Result<Statement, UnknownKind> {
        let (target, next) = (one_less(row.target), row.next);
        let statement = match StatementKind::try_from(row.kind)? {
            StatementKind::Skip => Statement::Skip { next },
            StatementKind::Assign => Statement::Assign {
                target,
                value: row.p1,
                next,
            },
            StatementKind::Branch => Statement::Branch {
                test: row.p1,
                next,
                other: row.other,
            },
            StatementKind::Suspend => Statement::Suspend { next },
            StatementKind::Await => Statement::Await {
                slots: parts_of(row),
                next,
            },
            StatementKind::Get => Statement::Get {
                target,
                future: row.p1,
                next,
            },
            StatementKind::New => new_of(row, Group::Own),
            StatementKind::NewGroup => new_of(row, Group::New),
            StatementKind::AsyncCall => call_of(row, Manner::Asynchronous),
            StatementKind::SyncCall => call_of(row, Manner::Synchronous),
            StatementKind::Return => Statement::Return { value: row.p1 },
        };
        Ok(statement)
    }
}
