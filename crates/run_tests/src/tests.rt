use crate::models;
use loading::accepted::AcceptedModel;
use loading::load::load;
use outside::house::House;
use outside::outside::{Outgoing, Outside};
use outside::script::Script;
use outside::value::Sort;
use run::memory::Memory;
use run::playing::{Playing, play};
use run::run::Run;
use run::run::opening::{Account, OpeningError};
use spelling::text::spelled;
use std::alloc::Global;
use std::test::Fail;
use steps::refusal::{OpeningRefusal, Refusal};

/// The accepted model that the text spells.
fn model_of(heap: Global, text: &str) -> Result<AcceptedModel, Fail> {
    let Ok(bytes) = spelled(heap, text) else {
        return Err(Fail::new("the text spells no bytes"));
    };
    match load(heap, bytes) {
        Ok(model) => Ok(model),
        Err(_) => Err(Fail::new("the model is not accepted")),
    }
}

/// The whole run of a model that makes these choices, and after them one more.
fn run_of<O: Outside>(
    heap: Global,
    text: &str,
    outside: &mut O,
    first: &[u16],
    last: u16,
) -> Result<Playing, Fail> {
    let model = model_of(heap, text)?;
    let mut choices = first.to_vec(heap)?;
    choices.push(last)?;
    match play(heap, &model, outside, choices.as_slice()) {
        Ok(playing) => Ok(playing),
        Err(_) => Err(Fail::new("the model is not opened")),
    }
}

/// The answer to the last choice, where all before it are made.
fn last_answer(playing: &Playing) -> Result<Result<u16, Refusal>, Fail> {
    match playing.answers.as_slice().split_last() {
        Some((last, before)) if before.iter().all(|a| a.is_ok()) => Ok(*last),
        _ => Err(Fail::new("an earlier choice is refused")),
    }
}

/// The number of the last choice's refusal, where all before it are made.
fn refused_last(playing: &Playing) -> Result<u8, Fail> {
    match last_answer(playing)? {
        Err(refusal) => Ok(refusal.number()),
        Ok(_) => Err(Fail::new("the last choice is made")),
    }
}

/// A call by the host, on no object of a run.
fn host_call() -> Outgoing<'static> {
    Outgoing {
        call: 9,
        class: 1,
        object: 1,
        sort: Sort::Unit,
        arguments: &[],
    }
}

#[test]
fn each_refusal_over_a_house(rt: HostRuntime) -> Result<(), Fail> {
    for (number, text, first, last) in [
        (10, models::LEAST, [].as_slice(), 2),
        (11, models::LEAST, &[1], 1),
        (12, models::AWAITS, &[1, 2], 2),
        (13, models::AWAITS, &[1, 2, 1], 1),
        (14, models::GETS, &[1], 1),
        (15, models::CALLS_INSIDE, &[1], 1),
        (16, models::LEAST, &[], 0),
        (20, models::CALLS_NULL, &[], 1),
        (21, models::GETS_NULL, &[], 1),
        (22, models::NO_BRANCH, &[], 1),
        (23, models::DIVIDES, &[], 1),
        (24, models::VISITS, &[1], 1),
        // calls 2 to 128, objects 2 to 64, and 256 cells
        (25, models::CALLS_ON, &[1; 127], 1),
        (25, models::CREATES_ON, &[1; 63], 1),
        (25, models::CHAINS_ON, &[1; 256], 1),
        // one object and 16 calls
        (26, models::RINGS_ON, &[1; 17], 1),
    ] {
        let mut house = House::new(rt.alloc())?;
        let playing = run_of(rt.alloc(), text, &mut house, first, last)?;
        assert_eq!(rt; refused_last(&playing)?, number, "refusal {number}");
    }
    Ok(())
}

#[test]
fn a_script_as_outside(rt: HostRuntime) -> Result<(), Fail> {
    // one object and 8 calls, of which the newest is answered first
    let mut script = Script::new(rt.alloc(), &[])?;
    let full = run_of(rt.alloc(), models::RINGS_ON, &mut script, &[1; 9], 1)?;
    assert_eq!(rt; refused_last(&full)?, 26);
    let mut script = Script::new(rt.alloc(), &[])?;
    let answered = run_of(rt.alloc(), models::RINGS_ON, &mut script, &[1; 9], 0)?;
    assert_eq!(rt; last_answer(&answered)?, Ok(9));
    assert_eq!(rt;
        answered.account,
        Account {
            calls: 9,
            returned: 0,
            answered: 1,
            unfinished: 1,
            waiting: 7
        }
    );
    // the reply is the number that is prepared
    let mut script = Script::new(rt.alloc(), &[0])?;
    let divides = run_of(
        rt.alloc(),
        models::DIVIDES_BY_REPLY,
        &mut script,
        &[1, 1, 0, 1],
        1,
    )?;
    assert_eq!(rt; refused_last(&divides)?, 23);
    Ok(())
}

#[test]
fn a_reply_to_a_call_of_the_host_is_refused(rt: HostRuntime) -> Result<(), Fail> {
    let model = model_of(rt.alloc(), models::LEAST)?;
    let mut memory = Memory::new(rt.alloc())?;
    let mut house = House::new(rt.alloc())?;
    let Ok((mut run, slip)) = Run::open(rt.alloc(), &model, &mut memory, &house) else {
        return Err(Fail::new("the model is not opened"));
    };
    let taken = house.take(host_call());
    let answer = run.choose(&mut house, 0);
    let account = run.close(slip, &house);
    assert!(rt; taken);
    assert_eq!(rt; answer, Err(Refusal::StrangeReply));
    assert_eq!(rt; Refusal::StrangeReply.number(), 17);
    assert_eq!(rt; account.waiting, 1);
    Ok(())
}

/// How many calls return in a whole run that makes choice 1.
fn returned_in(
    heap: Global,
    model: &AcceptedModel,
    house: &mut House,
) -> Result<u16, OpeningError> {
    let playing = play(heap, model, house, &[1])?;
    Ok(playing.account.returned)
}

#[test]
fn a_model_is_opened_again_but_not_over_a_house_in_which_a_call_waits(
    rt: HostRuntime,
) -> Result<(), Fail> {
    let model = model_of(rt.alloc(), models::LEAST)?;
    let mut house = House::new(rt.alloc())?;
    assert_eq!(rt; returned_in(rt.alloc(), &model, &mut house), Ok(1));
    assert_eq!(rt; returned_in(rt.alloc(), &model, &mut house), Ok(1));
    assert!(rt; house.take(host_call()));
    let refused = OpeningRefusal::CallsWait;
    assert_eq!(rt; refused.number(), 31);
    assert_eq!(rt;
        returned_in(rt.alloc(), &model, &mut house),
        Err(OpeningError::Refused(refused))
    );
    Ok(())
}
