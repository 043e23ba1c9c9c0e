use crate::load::{LoadError, LoadFault, load};
use std::alloc::Global;
use std::test::Fail;
use tables::place::Table;

/// One type, one class, one method, one node and one statement, which returns the node.
const SMALLEST: [u8; 97] = [
    0, 0, 0, 93, 1, 0, 1, 0, 0, 0, 0, 0, 0, 0, 0, 0, 0, 0, 1, 0, 1, 0, 1, 0, 0, 0, 1, 0, 0, 0, 0,
    0, 0, 0, 0, 0, 0, 0, 0, 0, 0, 0, 0, 0, 0, 0, 1, 0, 0, 0, 0, 0, 0, 0, 0, 0, 0, 0, 0, 0, 1, 0, 0,
    0, 0, 0, 0, 0, 0, 0, 0, 0, 0, 0, 0, 0, 10, 0, 0, 0, 0, 0, 0, 0, 1, 0, 0, 0, 0, 0, 0, 0, 0, 0,
    0, 0, 0,
];

/// The same with a function of result Unit, whose body is False: node 1.
const FALSE_FOR_UNIT: [u8; 121] = [
    0, 0, 0, 117, 1, 0, 1, 0, 0, 0, 0, 0, 1, 0, 0, 0, 0, 0, 1, 0, 1, 0, 2, 0, 0, 0, 1, 0, 0, 0, 0,
    0, 0, 0, 0, 0, 0, 0, 0, 0, 1, 0, 0, 0, 0, 0, 0, 0, 0, 0, 0, 0, 0, 0, 0, 0, 1, 0, 0, 0, 0, 0, 0,
    0, 0, 0, 0, 0, 0, 0, 1, 0, 0, 0, 0, 0, 0, 0, 0, 0, 0, 0, 0, 0, 0, 0, 1, 0, 0, 0, 0, 0, 0, 0, 0,
    0, 0, 0, 0, 0, 10, 0, 0, 0, 0, 0, 0, 0, 1, 0, 0, 0, 0, 0, 0, 0, 0, 0, 0, 0, 0,
];

/// The fault for which the model of these bytes is refused.
fn fault_of(heap: Global, bytes: &[u8]) -> Result<LoadFault, Fail> {
    match load(heap, bytes.to_vec(heap)?) {
        Err(LoadError::Refused(fault)) => Ok(fault),
        _ => Err(Fail::new("the model is not refused")),
    }
}

#[test]
fn smallest_is_accepted(rt: HostRuntime) -> Result<(), Fail> {
    let bytes = SMALLEST.to_vec(rt.alloc())?;
    match load(rt.alloc(), bytes) {
        Ok(_) => Ok(()),
        Err(_) => Err(Fail::new("the smallest model is not accepted")),
    }
}

#[test]
fn one_byte_less_is_a_fault_of_reading(rt: HostRuntime) -> Result<(), Fail> {
    let fault = fault_of(rt.alloc(), &SMALLEST[0..96])?;
    assert!(rt; matches!(fault, LoadFault::Reading(_)));
    assert_eq!(rt; fault.number(), 1);
    assert_eq!(rt; fault.table(), Table::Header);
    assert_eq!(rt; fault.row(), 0);
    Ok(())
}

#[test]
fn function_of_another_type_is_refused(rt: HostRuntime) -> Result<(), Fail> {
    let fault = fault_of(rt.alloc(), &FALSE_FOR_UNIT)?;
    assert_eq!(rt; fault.number(), 7);
    assert_eq!(rt; fault.table(), Table::Functions);
    assert_eq!(rt; fault.row(), 0);
    Ok(())
}

#[test]
fn statement_of_another_type_is_refused(rt: HostRuntime) -> Result<(), Fail> {
    // the method returns False for a Unit
    let mut bytes = SMALLEST;
    bytes[62] = 1;
    let fault = fault_of(rt.alloc(), &bytes)?;
    assert_eq!(rt; fault.number(), 8);
    assert_eq!(rt; fault.table(), Table::Statements);
    assert_eq!(rt; fault.row(), 0);
    Ok(())
}
