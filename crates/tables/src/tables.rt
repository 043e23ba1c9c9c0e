ghost use Rattle.std.specs.Prelude.{◌≡◌};
ghost use Rattle.tables.specs.Layout.{counts, over_limit, cells_of};

use crate::numbers::Row;
use crate::rows::{
    BranchRow, ClassRow, ConstructorRow, FunctionRow, InterfaceRow, ListRow, MethodRow, NodeRow,
    SignatureRow, StatementRow, TypeRow,
};
use std::fmt;

/// How many rows each table has.
#[derive(Clone, Copy)]
pub struct Counts {
    pub types: u16,
    pub lists: u16,
    pub constructors: u16,
    pub functions: u16,
    pub interfaces: u16,
    pub signatures: u16,
    pub classes: u16,
    pub methods: u16,
    pub nodes: u16,
    pub branches: u16,
    pub statements: u16,
}

/// The eleven tables of a model.
// Without a model of its own: the tables are read by every crate, and a model would hide them. Contracts say `content`.
#[derive(Drop)]
pub struct Tables {
    pub types: Vec<TypeRow>,
    pub lists: Vec<ListRow>,
    pub constructors: Vec<ConstructorRow>,
    pub functions: Vec<FunctionRow>,
    pub interfaces: Vec<InterfaceRow>,
    pub signatures: Vec<SignatureRow>,
    pub classes: Vec<ClassRow>,
    pub methods: Vec<MethodRow>,
    pub nodes: Vec<NodeRow>,
    pub branches: Vec<BranchRow>,
    pub statements: Vec<StatementRow>,
}

/// Each table's name and number of rows, in one line.
impl fmt::Display for Tables {
    fn fmt<W: fmt::Write>(&self, f: &mut fmt::Formatter<W>) -> fmt::Result {
        write!(f, "types {} lists {} ", self.types.len(), self.lists.len())?;
        write!(f, "constructors {} ", self.constructors.len())?;
        write!(f, "functions {} ", self.functions.len())?;
        write!(f, "interfaces {} ", self.interfaces.len())?;
        write!(f, "signatures {} ", self.signatures.len())?;
        write!(
            f,
            "classes {} methods {} ",
            self.classes.len(),
            self.methods.len()
        )?;
        write!(
            f,
            "nodes {} branches {} ",
            self.nodes.len(),
            self.branches.len()
        )?;
        write!(f, "statements {}", self.statements.len())
    }
}

impl Counts {
    /// Whether a table has more rows than it may have.
    pub(crate) fn over_limit(&self) -> bool
        ensures limits { result ≡ over_limit self.now }
    {
        self.types > 255
            || self.lists > 255
            || self.constructors > 255
            || self.functions > 255
            || self.interfaces > 255
            || self.signatures > 255
            || self.classes > 255
            || self.methods > 255
            || self.nodes > 1024
            || self.branches > 255
            || self.statements > 512
    }

    /// How many numbers the rows of all tables have.
    pub(crate) fn cells(&self) -> usize
        ensures cells { result ≡ cells_of self.now }
    {
        self.types as usize * 2
            + self.lists as usize * 1
            + self.constructors as usize * 3
            + self.functions as usize * 5
            + self.interfaces as usize * 2
            + self.signatures as usize * 4
            + self.classes as usize * 8
            + self.methods as usize * 7
            + self.nodes as usize * 7
            + self.branches as usize * 3
            + self.statements as usize * 11
    }
}

impl Row<11> for Counts {
    ghost spelled = { counts };

    fn read(cells: &[u16; 11]) -> Counts {
        let [
            types,
            lists,
            constructors,
            functions,
            interfaces,
            signatures,
            classes,
            methods,
            nodes,
            branches,
            statements,
        ] = *cells;
        Counts {
            types,
            lists,
            constructors,
            functions,
            interfaces,
            signatures,
            classes,
            methods,
            nodes,
            branches,
            statements,
        }
    }
}
