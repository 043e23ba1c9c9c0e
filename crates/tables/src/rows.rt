ghost use Rattle.std.specs.Prelude.{◌≡◌};
ghost use Rattle.tables.specs.Rows.{type_row, list_row, constructor_row, function_row, interface_row, signature_row, class_row, method_row, node_row, branch_row, statement_row};

use crate::numbers::Row;

// The columns `kind`, `outside` and `more` are numbers and no enums: the rules of the format judge rows as they were read, and a
// row that was read may hold any number.

/// A type: its kind, and the data number, interface row or type row that the kind names.
#[derive(Clone, Copy)]
pub struct TypeRow {
    pub kind: u16,
    pub reference: u16,
}

/// An entry of a list of types: a row of the types.
#[derive(Clone, Copy)]
pub struct ListRow {
    pub entry: u16,
}

/// A constructor: the number of its data, and its parameters, a range of the lists.
#[derive(Clone, Copy)]
pub struct ConstructorRow {
    pub number: u16,
    pub first: u16,
    pub count: u16,
}

/// A function: its result, its slots, a range of the lists whose first are the parameters, and its body.
#[derive(Clone, Copy)]
pub struct FunctionRow {
    pub result: u16,
    pub slots_first: u16,
    pub parameters: u16,
    pub slots: u16,
    pub body: u16,
}

/// An interface: a range of the signatures.
#[derive(Clone, Copy)]
pub struct InterfaceRow {
    pub first: u16,
    pub count: u16,
}

/// A signature: its name, its result, and its parameters, a range of the lists.
#[derive(Clone, Copy)]
pub struct SignatureRow {
    pub name: u16,
    pub result: u16,
    pub first: u16,
    pub count: u16,
}

/// A class: whether it is outside, the interfaces and fields, ranges of the lists, of which the first fields are the parameters, and the methods, a range of theirs.
#[derive(Clone, Copy)]
pub struct ClassRow {
    pub outside: u16,
    pub interfaces_first: u16,
    pub interfaces_count: u16,
    pub fields_first: u16,
    pub parameters: u16,
    pub fields: u16,
    pub methods_first: u16,
    pub methods_count: u16,
}

/// A method: its name, its result, its slots, a range of the lists whose first are the parameters, and its statements, a range of theirs.
#[derive(Clone, Copy)]
pub struct MethodRow {
    pub name: u16,
    pub result: u16,
    pub slots_first: u16,
    pub parameters: u16,
    pub slots: u16,
    pub statements_first: u16,
    pub statements_count: u16,
}

/// A node of an expression or a pattern: its kind, what the kind names, and the rows of its children.
#[derive(Clone, Copy)]
pub struct NodeRow {
    pub kind: u16,
    pub reference: u16,
    pub count: u16,
    pub p1: u16,
    pub p2: u16,
    pub p3: u16,
    pub p4: u16,
}

/// A branch of a case: its pattern, its body, and whether the next row continues the case.
#[derive(Clone, Copy)]
pub struct BranchRow {
    pub pattern: u16,
    pub body: u16,
    pub more: u16,
}

/// A statement: its kind, target, object, what the kind names, its parts, and the statements that it goes on to.
#[derive(Clone, Copy)]
pub struct StatementRow {
    pub kind: u16,
    pub target: u16,
    pub object: u16,
    pub reference: u16,
    pub count: u16,
    pub p1: u16,
    pub p2: u16,
    pub p3: u16,
    pub p4: u16,
    pub next: u16,
    pub other: u16,
}

impl Row<2> for TypeRow {
    ghost spelled = { type_row };

    fn read(cells: &[u16; 2]) -> TypeRow {
        let [kind, reference] = *cells;
        TypeRow { kind, reference }
    }
}

impl Row<1> for ListRow {
    ghost spelled = { list_row };

    fn read(cells: &[u16; 1]) -> ListRow {
        let [entry] = *cells;
        ListRow { entry }
    }
}

impl Row<3> for ConstructorRow {
    ghost spelled = { constructor_row };

    fn read(cells: &[u16; 3]) -> ConstructorRow {
        let [number, first, count] = *cells;
        ConstructorRow {
            number,
            first,
            count,
        }
    }
}

impl Row<5> for FunctionRow {
    ghost spelled = { function_row };

    fn read(cells: &[u16; 5]) -> FunctionRow {
        let [result, slots_first, parameters, slots, body] = *cells;
        FunctionRow {
            result,
            slots_first,
            parameters,
            slots,
            body,
        }
    }
}

impl Row<2> for InterfaceRow {
    ghost spelled = { interface_row };

    fn read(cells: &[u16; 2]) -> InterfaceRow {
        let [first, count] = *cells;
        InterfaceRow { first, count }
    }
}

impl Row<4> for SignatureRow {
    ghost spelled = { signature_row };

    fn read(cells: &[u16; 4]) -> SignatureRow {
        let [name, result, first, count] = *cells;
        SignatureRow {
            name,
            result,
            first,
            count,
        }
    }
}

impl Row<8> for ClassRow {
    ghost spelled = { class_row };

    fn read(cells: &[u16; 8]) -> ClassRow {
        let [
            outside,
            interfaces_first,
            interfaces_count,
            fields_first,
            parameters,
            fields,
            methods_first,
            methods_count,
        ] = *cells;
        ClassRow {
            outside,
            interfaces_first,
            interfaces_count,
            fields_first,
            parameters,
            fields,
            methods_first,
            methods_count,
        }
    }
}

impl Row<7> for MethodRow {
    ghost spelled = { method_row };

    fn read(cells: &[u16; 7]) -> MethodRow {
        let [
            name,
            result,
            slots_first,
            parameters,
            slots,
            statements_first,
            statements_count,
        ] = *cells;
        MethodRow {
            name,
            result,
            slots_first,
            parameters,
            slots,
            statements_first,
            statements_count,
        }
    }
}

impl Row<7> for NodeRow {
    ghost spelled = { node_row };

    fn read(cells: &[u16; 7]) -> NodeRow {
        let [kind, reference, count, p1, p2, p3, p4] = *cells;
        NodeRow {
            kind,
            reference,
            count,
            p1,
            p2,
            p3,
            p4,
        }
    }
}

impl Row<3> for BranchRow {
    ghost spelled = { branch_row };

    fn read(cells: &[u16; 3]) -> BranchRow {
        let [pattern, body, more] = *cells;
        BranchRow {
            pattern,
            body,
            more,
        }
    }
}

impl Row<11> for StatementRow {
    ghost spelled = { statement_row };

    fn read(cells: &[u16; 11]) -> StatementRow {
        let [
            kind,
            target,
            object,
            reference,
            count,
            p1,
            p2,
            p3,
            p4,
            next,
            other,
        ] = *cells;
        StatementRow {
            kind,
            target,
            object,
            reference,
            count,
            p1,
            p2,
            p3,
            p4,
            next,
            other,
        }
    }
}
