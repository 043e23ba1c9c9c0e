use crate::input::Input;
use crate::model::ReadModel;
use crate::model::reading::check;
use std::test::Fail;
use tables::place::Rule;
use tables::read::ReadError;

/// One type, one class, one method, one node and one statement, which returns the node.
const SMALLEST: [u8; 97] = [
    0, 0, 0, 93, 1, 0, 1, 0, 0, 0, 0, 0, 0, 0, 0, 0, 0, 0, 1, 0, 1, 0, 1, 0, 0, 0, 1, 0, 0, 0, 0,
    0, 0, 0, 0, 0, 0, 0, 0, 0, 0, 0, 0, 0, 0, 0, 1, 0, 0, 0, 0, 0, 0, 0, 0, 0, 0, 0, 0, 0, 1, 0, 0,
    0, 0, 0, 0, 0, 0, 0, 0, 0, 0, 0, 0, 0, 10, 0, 0, 0, 0, 0, 0, 0, 1, 0, 0, 0, 0, 0, 0, 0, 0, 0,
    0, 0, 0,
];

#[test]
fn smallest_is_read(rt: HostRuntime) -> Result<(), Fail> {
    let bytes = SMALLEST.to_vec(rt.alloc())?;
    match ReadModel::read(rt.alloc(), bytes) {
        Ok(model) => {
            assert_eq!(rt; model.tables().statements.len(), 1);
            Ok(())
        },
        Err(_) => Err(Fail::new("the smallest model is not read")),
    }
}

#[test]
fn one_byte_less_is_refused(rt: HostRuntime) -> Result<(), Fail> {
    match check(rt.alloc(), &SMALLEST[0..96]) {
        Err(ReadError::Refused(fault)) => {
            assert_eq!(rt; fault.rule.number(), 1);
            Ok(())
        },
        _ => Err(Fail::new("a shortened model is not refused")),
    }
}

#[test]
fn more_input_is_not_the_models(rt: HostRuntime) -> Result<(), Fail> {
    let mut input = Input::new(rt.alloc())?;
    input.absorb(&SMALLEST)?;
    input.absorb(&[7, 7, 7])?;
    match input.model() {
        Ok(bytes) => {
            assert_eq!(rt; bytes.len(), 97);
            Ok(())
        },
        Err(_) => Err(Fail::new("not all of the model is there")),
    }
}
