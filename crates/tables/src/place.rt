ghost use Rattle.std.specs.Prelude.{◌≡◌, ℕ, Some};
ghost use Rattle.tables.specs.Texts.{fault_text};
ghost use Rattle.tables.specs.Places.{table_number, rule_number};

use std::fmt;

/// The tables of a model in the order of the format, behind its header.
#[derive(Clone, Copy, PartialEq, Eq, Debug)]
pub enum Table {
    Header,
    Types,
    Lists,
    Constructors,
    Functions,
    Interfaces,
    Signatures,
    Classes,
    Methods,
    Nodes,
    Branches,
    Statements,
}

impl Table {
    /// The table's number: 0 is the header, and the tables count from 1.
    // `number` and no conversion to `u8`, which would not say which number it is
    pub fn number(self) -> u8
        ensures number { result ≡ table_number self }
    {
        match self {
            Table::Header => 0,
            Table::Types => 1,
            Table::Lists => 2,
            Table::Constructors => 3,
            Table::Functions => 4,
            Table::Interfaces => 5,
            Table::Signatures => 6,
            Table::Classes => 7,
            Table::Methods => 8,
            Table::Nodes => 9,
            Table::Branches => 10,
            Table::Statements => 11,
        }
    }
}

/// The rules of the format, which a reader asks before anything is typed.
#[derive(Clone, Copy, PartialEq, Eq, Debug)]
pub enum TableRule {
    /// The length and the version are as stated.
    Length,
    /// The counts lie within their limits, and the rows fill the length.
    Counts,
    /// Kinds, flags, counts, limits, rows and ranges exist.
    Range,
    /// What has to stand lower does, and nothing has two places.
    Placement,
    /// Types, names, defaults, classes and methods have their shape.
    Shape,
    /// A class has the methods of its interfaces.
    Method,
}

/// A rule, by the number under which a breach is reported.
pub trait Rule: Copy {
    ghost number: { Self → ℕ };

    fn number(self) -> u8
        ensures number { result ≡ number self };
}

impl Rule for TableRule {
    ghost number = { rule_number };

    fn number(self) -> u8 {
        match self {
            TableRule::Length => 1,
            TableRule::Counts => 2,
            TableRule::Range => 3,
            TableRule::Placement => 4,
            TableRule::Shape => 5,
            TableRule::Method => 6,
        }
    }
}

/// A place that breaks a rule: the rule, the table and the row.
#[derive(Clone, Copy, PartialEq, Eq, Debug)]
pub struct Fault<R> {
    pub rule: R,
    pub table: Table,
    pub row: usize,
}

/// The numbers of the rule and of the table, and the row.
impl<R: Rule> fmt::Display for Fault<R> {
    ghost output = { λ f. Some (fault_text R.number f) };

    fn fmt<W: fmt::Write>(&self, f: &mut fmt::Formatter<W>) -> fmt::Result {
        let (rule, table) = (self.rule.number(), self.table.number());
        write!(f, "{rule} {table} {}", self.row)
    }
}

/// A row of a table.
#[derive(Clone, Copy, PartialEq, Eq, Debug)]
pub struct Place {
    pub table: Table,
    pub row: usize,
}
