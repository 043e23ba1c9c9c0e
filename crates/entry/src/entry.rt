//! The listing of an entry over a house.
ghost use Rattle.std.specs.Prelude.{◌≡◌, ℕ, List, IfOk};
ghost use Rattle.tables.specs.Layout.{content};
ghost use Rattle.model.specs.Input.{Keeps};
ghost use Rattle.schedule.specs.Schedules.{ReadsSchedule, schedule_of};
ghost use Rattle.steps.specs.Houses.{first_house_run};
ghost use Rattle.entry.specs.Entries.{choices_text, entry_text, schedule_text};
ghost use Rattle.entry.specs.Listings.{listing_text, run_text};

use crate::choices::choices_behind;
use crate::listing::{Listing, RunListing};
use loading::accepted::AcceptedModel;
use loading::load::{LoadError, load_input};
use model::input::Input;
use outside::house::House;
use run::playing::play;
use schedule::schedule::ScheduleError;
use std::alloc::{AllocError, Global};

/// Makes the choices over a house in which nothing waits.
fn run_listing(
    heap: Global,
    model: &AcceptedModel,
    choices: Vec<u16>,
) -> Result<RunListing, AllocError>
    ensures text { let m = content model.now.model.tables in
        IfOk result (λ r. run_text r ≡ choices_text m choices.items (first_house_run m)) }
{
    let mut house = House::new(heap)?;
    match play(heap, model, &mut house, choices.as_slice()) {
        Ok(run) => Ok(RunListing { choices, run }),
        // nothing waits in a new house, so only memory can lack
        Err(_) => Err(AllocError),
    }
}

/// The listing of an accepted model with what was read of its schedule.
fn schedule_listing(
    heap: Global,
    model: &AcceptedModel,
    choices: Result<Vec<u16>, ScheduleError>,
) -> Result<Listing, AllocError>
    ensures text { let m = content model.now.model.tables in
        (bytes : List ℕ) → ReadsSchedule bytes choices
        → IfOk result (λ l. listing_text l ≡ schedule_text m (schedule_of bytes)) }
{
    match choices {
        Ok(choices) => Ok(Listing::Run(run_listing(heap, model, choices)?)),
        Err(ScheduleError::Refused(refusal)) => Ok(Listing::RefusedSchedule(refusal)),
        Err(ScheduleError::NoMemory) => Err(AllocError),
    }
}

/// The listing of an input, which is an entry: the model that it begins with is loaded, and the choices behind it are made over a
/// house in which nothing waits.
pub fn listing(heap: Global, input: Input) -> Result<Listing, AllocError>
    ensures text { (begun : List ℕ) → Keeps input begun
        → IfOk result (λ l. listing_text l ≡ entry_text begun) }
{
    let choices = choices_behind(heap, &input);
    match load_input(heap, input) {
        Ok(model) => schedule_listing(heap, &model, choices),
        Err(LoadError::Refused(fault)) => Ok(Listing::RefusedModel(fault)),
        Err(LoadError::NoMemory) => Err(AllocError),
    }
}
