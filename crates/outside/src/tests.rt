ghost use Rattle.std.specs.Prelude.{◌≡◌, ◌<◌, ◌≤◌, ◌⊎◌, ℕ, pos, None, Some, IfOk};
ghost use Rattle.outside.specs.declared.value.PlainValue.TheVariants as plain;

use crate::house::House;
use crate::outside::{Outgoing, Outside};
use crate::script::Script;
use crate::value::{PlainValue, Reply, Sort};
use std::alloc::{AllocError, Global};
use std::process::Abort;
use std::test::Fail;

/// Delivers the call of the next reply, at most `turns` times, and says how many calls were delivered.
fn deliver_all<O: Outside>(outside: &mut O, turns: usize) -> usize
    ensures turns { result ≤ turns }
    ensures all { result < turns → (n : ℕ) → O.waits outside.new n ≡ None }
    ensures as_before { (n : ℕ) → (O.waits outside.new n ≡ None) ⊎ (O.waits outside.new n ≡ O.waits outside.old n) }
{
    for delivered in 0..turns {
        match outside.next() {
            Some(reply) => outside.deliver(reply.call),
            None => return delivered,
        }
    }
    turns
}

/// The reply to a second call on an object, which is computed from the definitions of a house.
fn second_reply(heap: Global) -> Result<Option<Reply>, AllocError>
    ensures reply { IfOk result (λ r. r ≡ Some (record { call = 2; value = plain.Int (pos 5) })) }
{
    let mut house = House::new(heap)?;
    house.take(on(1, 64, Sort::Unit, &[PlainValue::Int(5)]));
    house.take(on(2, 64, Sort::Int, &[]));
    house.deliver(1);
    Ok(house.next())
}

/// A call on an object of class 3.
fn on(call: u16, object: u16, sort: Sort, arguments: &[PlainValue]) -> Outgoing<'_>
    ensures outgoing { result ≡ record { call = call; class = 3; object = object; sort = sort; arguments = arguments.entry } }
{
    Outgoing {
        call,
        class: 3,
        object,
        sort,
        arguments,
    }
}

/// Delivers the next reply, which has to be this one.
fn expect(rt: &impl Abort, outside: &mut impl Outside, call: u16, value: PlainValue) {
    assert_eq!(rt; outside.next(), Some(Reply { call, value }));
    outside.deliver(call);
}

#[test]
fn a_house_replies_to_the_oldest_first_and_a_script_to_the_newest(
    rt: HostRuntime,
) -> Result<(), Fail> {
    let mut house = House::new(rt.alloc())?;
    let mut script = Script::new(rt.alloc(), &[10, 20])?;
    for call in 1..4 {
        assert!(rt; house.take(on(call, call, Sort::Int, &[PlainValue::Int(7)])));
        assert!(rt; script.take(on(call, call, Sort::Int, &[])));
    }
    expect(&rt, &mut house, 1, PlainValue::Int(7));
    expect(&rt, &mut house, 2, PlainValue::Int(7));
    expect(&rt, &mut script, 3, PlainValue::Int(10));
    expect(&rt, &mut script, 2, PlainValue::Int(20));
    // the prepared numbers have run out
    expect(&rt, &mut script, 1, PlainValue::Int(0));
    assert_eq!(rt; script.next(), None);
    assert_eq!(rt; deliver_all(&mut house, 5), 1);
    assert_eq!(rt; house.next(), None);
    Ok(())
}

#[test]
fn a_house_keeps_the_levels_of_the_objects_from_1_to_64(rt: HostRuntime) -> Result<(), Fail> {
    let mut house = House::new(rt.alloc())?;
    for object in [1, 64, 0, 65, 65_535] {
        let kept = object == 1 || object == 64;
        assert!(rt;
            house.take(on(
                1,
                object,
                Sort::Int,
                &[PlainValue::Int(-4), PlainValue::Int(9)]
            ))
        );
        assert!(rt; house.take(on(2, object, Sort::Int, &[])));
        assert!(rt; house.take(on(3, object, Sort::Bool, &[PlainValue::Bool(true)])));
        assert!(rt; house.take(on(4, object, Sort::Bool, &[])));
        assert!(rt; house.take(on(5, object, Sort::Unit, &[PlainValue::Unit])));
        assert!(rt; house.take(on(6, object, Sort::Bool, &[])));
        expect(&rt, &mut house, 1, PlainValue::Int(-4));
        expect(
            &rt,
            &mut house,
            2,
            PlainValue::Int(if kept { -4 } else { 0 }),
        );
        expect(&rt, &mut house, 3, PlainValue::Bool(true));
        expect(&rt, &mut house, 4, PlainValue::Bool(kept));
        expect(&rt, &mut house, 5, PlainValue::Unit);
        expect(&rt, &mut house, 6, PlainValue::Bool(false));
    }
    Ok(())
}

#[test]
fn a_reply_uses_up_one_number_whatever_its_sort(rt: HostRuntime) -> Result<(), Fail> {
    let mut script = Script::new(rt.alloc(), &[10, -1, 0, 40])?;
    assert!(rt; script.take(on(1, 1, Sort::Int, &[])));
    assert!(rt; script.take(on(2, 1, Sort::Bool, &[])));
    assert!(rt; script.take(on(3, 1, Sort::Bool, &[])));
    assert!(rt; script.take(on(4, 1, Sort::Unit, &[])));
    expect(&rt, &mut script, 4, PlainValue::Unit);
    expect(&rt, &mut script, 3, PlainValue::Bool(true));
    expect(&rt, &mut script, 2, PlainValue::Bool(false));
    expect(&rt, &mut script, 1, PlainValue::Int(40));
    Ok(())
}

#[test]
fn a_script_keeps_64_numbers(rt: HostRuntime) -> Result<(), Fail> {
    let mut script = Script::new(rt.alloc(), &[9; 65])?;
    for call in 1..65 {
        assert!(rt; script.take(on(call, 1, Sort::Int, &[])));
        expect(&rt, &mut script, call, PlainValue::Int(9));
    }
    assert!(rt; script.take(on(65, 1, Sort::Int, &[])));
    expect(&rt, &mut script, 65, PlainValue::Int(0));
    Ok(())
}

/// An outside that holds `most` calls refuses one more, and then replies as it would have.
fn holds(rt: &impl Abort, outside: &mut impl Outside, most: u16) {
    for call in 0..most {
        assert!(rt; outside.room(call));
        assert!(rt; outside.take(on(call, 1, Sort::Int, &[])));
    }
    let next = outside.next();
    assert!(rt; !outside.room(0));
    assert!(rt; !outside.take(on(most, 1, Sort::Int, &[])));
    assert!(rt; !outside.waiting(most));
    assert_eq!(rt; outside.next(), next);
    outside.deliver(0);
    assert!(rt; outside.room(65_535));
    assert!(rt; outside.take(on(most, 1, Sort::Int, &[])));
    assert_eq!(rt; deliver_all(outside, 100), most as usize);
}

#[test]
fn a_house_holds_16_calls_and_a_script_8(rt: HostRuntime) -> Result<(), Fail> {
    holds(&rt, &mut House::new(rt.alloc())?, 16);
    holds(&rt, &mut Script::new(rt.alloc(), &[])?, 8);
    Ok(())
}

/// Calls with any numbers and arguments, of which a number that waits is refused.
fn takes_any(rt: &impl Abort, outside: &mut impl Outside) {
    let four = [
        PlainValue::Bool(false),
        PlainValue::Int(1),
        PlainValue::Unit,
        PlainValue::Int(2),
    ];
    assert!(rt; outside.take(on(0, 65_535, Sort::Bool, &four)));
    assert!(rt; !outside.take(on(0, 1, Sort::Int, &[])));
    assert!(rt; outside.take(on(65_535, 0, Sort::Bool, &[])));
    assert!(rt; outside.waiting(0) && outside.waiting(65_535) && !outside.waiting(1));
    outside.deliver(1);
    assert!(rt; outside.waiting(0) && outside.waiting(65_535));
    outside.deliver(0);
    expect(rt, outside, 65_535, PlainValue::Bool(false));
    assert_eq!(rt; outside.next(), None);
}

#[test]
fn any_number_and_any_arguments_are_taken(rt: HostRuntime) -> Result<(), Fail> {
    takes_any(&rt, &mut House::new(rt.alloc())?);
    takes_any(&rt, &mut Script::new(rt.alloc(), &[])?);
    Ok(())
}

#[test]
fn a_reply_is_computed(rt: HostRuntime) -> Result<(), Fail> {
    let value = PlainValue::Int(5);
    assert_eq!(rt; second_reply(rt.alloc())?, Some(Reply { call: 2, value }));
    Ok(())
}
