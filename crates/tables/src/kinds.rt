ghost use Rattle.std.specs.Prelude.{◌≡◌};
ghost use Rattle.tables.specs.Kinds.{known, type_kind, node_kind, statement_kind};

/// A number that is the number of no kind.
#[derive(Clone, Copy, PartialEq, Eq, Debug)]
pub struct UnknownKind {
    pub number: u16,
}

/// What a type is.
#[derive(Clone, Copy, PartialEq, Eq, Debug)]
pub enum TypeKind {
    Unit,
    Bool,
    Int,
    Data,
    Interface,
    Future,
}

impl TryFrom<u16> for TypeKind {
    type Error = UnknownKind;

    ghost try_from_gives = { λ number r. r ≡ known number (type_kind number) };

    fn try_from(number: u16) -> Result<TypeKind, UnknownKind> {
        match number {
            0 => Ok(TypeKind::Unit),
            1 => Ok(TypeKind::Bool),
            2 => Ok(TypeKind::Int),
            3 => Ok(TypeKind::Data),
            4 => Ok(TypeKind::Interface),
            5 => Ok(TypeKind::Future),
            _ => Err(UnknownKind { number }),
        }
    }
}

/// What a node of an expression or a pattern is.
#[derive(Clone, Copy, PartialEq, Eq, Debug)]
pub enum NodeKind {
    Unit,
    False,
    True,
    Int,
    Null,
    Slot,
    This,
    Constructor,
    Function,
    Case,
    Add,
    Subtract,
    Divide,
    Less,
    Equal,
    Not,
    And,
    Wildcard,
    Variable,
}

impl TryFrom<u16> for NodeKind {
    type Error = UnknownKind;

    ghost try_from_gives = { λ number r. r ≡ known number (node_kind number) };

    fn try_from(number: u16) -> Result<NodeKind, UnknownKind> {
        match number {
            0 => Ok(NodeKind::Unit),
            1 => Ok(NodeKind::False),
            2 => Ok(NodeKind::True),
            3 => Ok(NodeKind::Int),
            4 => Ok(NodeKind::Null),
            5 => Ok(NodeKind::Slot),
            6 => Ok(NodeKind::This),
            7 => Ok(NodeKind::Constructor),
            8 => Ok(NodeKind::Function),
            9 => Ok(NodeKind::Case),
            10 => Ok(NodeKind::Add),
            11 => Ok(NodeKind::Subtract),
            12 => Ok(NodeKind::Divide),
            13 => Ok(NodeKind::Less),
            14 => Ok(NodeKind::Equal),
            15 => Ok(NodeKind::Not),
            16 => Ok(NodeKind::And),
            17 => Ok(NodeKind::Wildcard),
            18 => Ok(NodeKind::Variable),
            _ => Err(UnknownKind { number }),
        }
    }
}

/// What a statement does.
#[derive(Clone, Copy, PartialEq, Eq, Debug)]
pub enum StatementKind {
    Skip,
    Assign,
    Branch,
    Suspend,
    Await,
    Get,
    New,
    NewGroup,
    AsyncCall,
    SyncCall,
    Return,
}

impl TryFrom<u16> for StatementKind {
    type Error = UnknownKind;

    ghost try_from_gives = { λ number r. r ≡ known number (statement_kind number) };

    fn try_from(number: u16) -> Result<StatementKind, UnknownKind> {
        match number {
            0 => Ok(StatementKind::Skip),
            1 => Ok(StatementKind::Assign),
            2 => Ok(StatementKind::Branch),
            3 => Ok(StatementKind::Suspend),
            4 => Ok(StatementKind::Await),
            5 => Ok(StatementKind::Get),
            6 => Ok(StatementKind::New),
            7 => Ok(StatementKind::NewGroup),
            8 => Ok(StatementKind::AsyncCall),
            9 => Ok(StatementKind::SyncCall),
            10 => Ok(StatementKind::Return),
            _ => Err(UnknownKind { number }),
        }
    }
}
