//! The schedule of an entry.
ghost use Rattle.std.specs.Prelude.{◌≡◌, ℕ, List, None};
ghost use Rattle.model.specs.Input.{Keeps, behind_model, model_in};
ghost use Rattle.model.specs.Rules.{verdict_in};
ghost use Rattle.schedule.specs.Schedules.{ReadsSchedule};

use model::input::Input;
use schedule::schedule::{ScheduleError, choices};
use std::alloc::Global;

/// The choices that follow the model of an input, or why there are none: where the model breaks no rule of the tables.
pub fn choices_behind(heap: Global, input: &Input) -> Result<Vec<u16>, ScheduleError>
    ensures reads { (begun : List ℕ) → Keeps input.now begun → verdict_in (model_in begun) ≡ None
        → ReadsSchedule (behind_model begun) result }
{
    choices(heap, input.behind())
}
