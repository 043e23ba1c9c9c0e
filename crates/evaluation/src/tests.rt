use crate::cells::Cells;
use crate::evaluator::Evaluator;
use crate::refusal::EvaluationRefusal;
use crate::value::Value;
use crate::workspace::{BINDINGS, UNBOUND, Workspace};
use std::alloc::{AllocError, Global};
use std::test::Fail;
use tables::rows::NodeRow;
use tables::tables::Tables;

/// A node whose children are as many of these as the count says.
fn node(kind: u16, reference: u16, count: u16, p1: u16, p2: u16) -> NodeRow {
    NodeRow {
        kind,
        reference,
        count,
        p1,
        p2,
        p3: 0,
        p4: 0,
    }
}

/// The tables of a model that has these nodes and nothing else.
fn tables_of(heap: Global, nodes: &[NodeRow]) -> Result<Tables, AllocError> {
    Ok(Tables {
        types: Vec::new(heap),
        lists: Vec::new(heap),
        constructors: Vec::new(heap),
        functions: Vec::new(heap),
        interfaces: Vec::new(heap),
        signatures: Vec::new(heap),
        classes: Vec::new(heap),
        methods: Vec::new(heap),
        nodes: nodes.to_vec(heap)?,
        branches: Vec::new(heap),
        statements: Vec::new(heap),
    })
}

#[test]
fn this_is_the_object(rt: HostRuntime) -> Result<(), Fail> {
    let t = tables_of(rt.alloc(), &[node(6, 0, 0, 0, 0)])?;
    let mut memory = vec![in rt.alloc(); UNBOUND; BINDINGS]?;
    let cells = Cells::new(rt.alloc())?;
    let Ok(mut work) = Workspace::new(memory.as_mut_slice(), cells) else {
        return Err(Fail::new("there is no workspace"));
    };
    work.enter(&[], &[]);
    let evaluator = Evaluator { t: &t, this: 7 };
    assert_eq!(rt; evaluator.evaluate(&mut work, 0), Ok(Value::Object(7)));
    assert_eq!(rt; work.left(), 9_999);
    Ok(())
}

#[test]
fn refused_evaluation_keeps_earlier_cells(rt: HostRuntime) -> Result<(), Fail> {
    // 1, data of it, 0, 1 / 0, and data of the two in rows 1 and 3
    let nodes = [
        node(3, 1, 0, 0, 0),
        node(7, 0, 1, 0, 0),
        node(3, 0, 0, 0, 0),
        node(12, 0, 2, 0, 2),
        node(7, 0, 2, 1, 3),
    ];
    let t = tables_of(rt.alloc(), &nodes)?;
    let mut memory = vec![in rt.alloc(); UNBOUND; BINDINGS]?;
    let cells = Cells::new(rt.alloc())?;
    let Ok(mut work) = Workspace::new(memory.as_mut_slice(), cells) else {
        return Err(Fail::new("there is no workspace"));
    };
    work.enter(&[], &[]);
    let evaluator = Evaluator { t: &t, this: 0 };
    assert_eq!(rt; evaluator.evaluate(&mut work, 1), Ok(Value::Cell(0)));
    assert_eq!(rt;
        evaluator.evaluate(&mut work, 4),
        Err(EvaluationRefusal::ZeroDivisor)
    );
    assert_eq!(rt; evaluator.evaluate(&mut work, 1), Ok(Value::Cell(1)));
    // the visits of all three
    assert_eq!(rt; work.left(), 9_990);
    Ok(())
}

#[test]
fn too_few_bindings_give_no_workspace(rt: HostRuntime) -> Result<(), Fail> {
    let mut memory = vec![in rt.alloc(); UNBOUND; BINDINGS - 1]?;
    let cells = Cells::new(rt.alloc())?;
    match Workspace::new(memory.as_mut_slice(), cells) {
        Ok(_work) => Err(Fail::new("there is a workspace")),
        Err(cells) => {
            assert_eq!(rt; cells.length(), 0);
            Ok(())
        }
    }
}

#[test]
fn expressions_see_locals_and_fields(rt: HostRuntime) -> Result<(), Fail> {
    // local 1 and field 0
    let t = tables_of(rt.alloc(), &[node(5, 1, 0, 0, 0), node(5, 128, 0, 0, 0)])?;
    let mut memory = vec![in rt.alloc(); UNBOUND; BINDINGS]?;
    let cells = Cells::new(rt.alloc())?;
    let Ok(mut work) = Workspace::new(memory.as_mut_slice(), cells) else {
        return Err(Fail::new("there is no workspace"));
    };
    work.enter(&[Value::Int(3), Value::Int(4)], &[Value::Int(5)]);
    let evaluator = Evaluator { t: &t, this: 0 };
    let Ok(worths) = evaluator.evaluate_all(&mut work, &[1, 0]) else {
        return Err(Fail::new("the expressions are refused"));
    };
    assert_eq!(rt;
        worths.as_slice(),
        [Value::Int(5), Value::Int(4)].as_slice()
    );
    assert_eq!(rt; work.left(), 9_998);
    assert_eq!(rt; work.find(0, 0), Some(Value::Int(3)));
    assert_eq!(rt; work.find(0, 2), None);
    Ok(())
}
