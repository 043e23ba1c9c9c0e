//! The levels of a house's objects.
ghost use Rattle.std.specs.Prelude.{◌≡◌, ◌≤◌, length};
ghost use Rattle.outside.specs.Houses.{argument_level, level_of, new_level, levels_after, level_as};

use crate::house::Asked;
use crate::value::{PlainValue, Sort};

/// The level that an argument sets.
pub fn argument_level(value: PlainValue) -> i64
    ensures level { result ≡ argument_level value }
{
    match value {
        PlainValue::Unit => 0,
        PlainValue::Bool(b) => i64::from(b),
        PlainValue::Int(n) => n,
    }
}

/// The level of an object; that of an object without one is 0.
pub fn level(levels: &[i64], object: u16) -> i64
    ensures level { result ≡ level_of levels.now object }
{
    if object == 0 {
        return 0;
    }
    levels.get(object as usize - 1).copied().unwrap_or(0)
}

/// The level that the delivery of a call gives its object.
pub fn new_level(levels: &[i64], asked: &Asked) -> i64
    ensures level { result ≡ new_level levels.now asked.now }
{
    match asked.argument {
        Some(value) => argument_level(value),
        None => level(levels, asked.object),
    }
}

/// Sets the level that the delivery of a call gives its object; the level of an object without one is not kept.
pub fn set_level(levels: &mut [i64], asked: &Asked)
    ensures levels { levels.new ≡ levels_after asked.now levels.old }
{
    let level = new_level(levels, asked);
    if asked.object > 0 && asked.object as usize <= levels.len() {
        levels[asked.object as usize - 1] = level;
    }
}

/// A level as a value of a sort: itself, or whether it exceeds 0, or Unit.
pub fn level_as(level: i64, sort: Sort) -> PlainValue
    ensures value { result ≡ level_as level sort }
{
    match sort {
        Sort::Unit => PlainValue::Unit,
        Sort::Bool => PlainValue::Bool(level > 0),
        Sort::Int => PlainValue::Int(level),
    }
}
