//! Opening and closing a run.
ghost use Rattle.std.specs.Prelude.{◌≡◌, Some, false, IfOk, IfSome, is_some, option_to_list};
ghost use Rattle.std.specs.List.{slice_get};
ghost use Rattle.std.specs.Option.{option_map};
ghost use Rattle.tables.specs.Layout.{content};
ghost use Rattle.model.specs.Rules.{NoPlaceBreaks};
ghost use Rattle.loading.specs.Accepted.{IsAccepted};
ghost use Rattle.steps.specs.Account.{count_to, account};
ghost use Rattle.steps.specs.Opening.{first_calls, first_configuration};
ghost use Rattle.steps.specs.States.{is_ended};
ghost use Rattle.run.specs.Openings.{Opens, numbers};
ghost use Rattle.run.specs.Runs.{IsSound};

use crate::dispatch::{class_at, method_at};
use crate::memory::Memory;
use crate::run::Run;
use evaluation::cells::Cells;
use evaluation::workspace::Workspace;
use loading::accepted::AcceptedModel;
use outside::outside::Outside;
use run_state::state::RunState;
use run_state::values::with_defaults;
use std::alloc::{AllocError, Global};
use steps::records::{CallRecord, ObjectRecord, Slots};
use steps::refusal::OpeningRefusal;
use steps::state::CallState;
use tables::tables::Tables;

/// Given with an opened run, and taken back for its account. It is not `Drop`: who opens a run closes it.
pub struct Slip {
    seal: (),
}

/// The numbers of a run.
#[derive(Clone, Copy, PartialEq, Eq, Debug)]
pub struct Account {
    /// All calls.
    pub calls: u16,
    /// Returns that were performed.
    pub returned: u16,
    /// Replies that were taken in.
    pub answered: u16,
    /// Calls that are sent, queued, active or calling.
    pub unfinished: u16,
    /// Of the numbers 1 to 128, those under which a call waits in the outside.
    pub waiting: u16,
}

/// Why a model is not opened.
#[derive(Clone, Copy, PartialEq, Eq, Debug)]
pub enum OpeningError {
    /// The opening is refused.
    Refused(OpeningRefusal),
    /// There is no memory.
    NoMemory,
}

impl From<AllocError> for OpeningError {
    ghost use Rattle.std.specs.Prelude.{◌≡◌};
    ghost use Rattle.run.specs.declared.run.opening.OpeningError.TheVariants as error;

    ghost from_gives = { λ e r. r ≡ error.NoMemory };

    fn from(_e: AllocError) -> OpeningError {
        OpeningError::NoMemory
    }
}

/// The first call of a run: that of the first method of class 0, on object 1.
fn first_call(t: &Tables) -> Option<CallRecord>
    requires places { NoPlaceBreaks (content t.now) }
    requires accepted { IsAccepted (content t.now) }
    ensures first { option_to_list result ≡ first_calls (content t.now) (option_map (λ k. k.methods_first) (slice_get (content t.now).classes 0)) }
    ensures active { IfSome result (λ x. (is_ended x.state ≡ false) × (x.object ≡ 1)) }
{
    let class = class_at(t, 0)?;
    let row = class.methods_first;
    let method = method_at(t, row)?;
    Some(CallRecord {
        object: 1,
        method: row,
        slots: with_defaults(t, &[], method.slots_first, method.slots),
        statement: method.statements_first,
        state: CallState::Active(None),
        caller: None,
        result: None,
    })
}

/// How many of the numbers from 1 to a limit wait in the outside.
fn waiting_to<O: Outside>(outside: &O, limit: u16) -> u16
    ensures waiting { result ≡ count_to limit (λ n. is_some (O.waits outside.now n)) }
{
    let mut count = 0;
    for number in 0..limit {
        if outside.waiting(number + 1) {
            count += 1;
        }
    }
    count
}

impl<'a> Run<'a> {
    /// A run of a model, at its opened configuration.
    fn new(heap: Global, model: &'a AcceptedModel, memory: &'a mut Memory) -> Option<Run<'a>>
        ensures opened { IfSome result (λ r. r ≡ record { model = content model.now.model.tables; at = first_configuration (content model.now.model.tables) }) }
    {
        let Ok(cells) = Cells::new(heap) else {
            return None;
        };
        let Ok(work) = Workspace::new(memory.bindings.as_mut_slice(), cells) else {
            return None;
        };
        let Ok(mut state) = RunState::new(heap) else {
            return None;
        };
        state.push_object(
            ObjectRecord {
                class: 0,
                group: Some(1),
                fields: Slots::new(),
            },
            true,
        );
        if let Some(call) = first_call(model.tables()) {
            state.push_call(call);
        }
        Some(Run { model, state, work })
    }

    /// Opens a model over an outside in which nothing waits. The run borrows the model and the memory; beside it there is a slip, which
    /// only closing the run takes back. The run is sound.
    pub fn open<O: Outside>(
        heap: Global,
        model: &'a AcceptedModel,
        memory: &'a mut Memory,
        outside: &O,
    ) -> Result<(Run<'a>, Slip), OpeningError>
        ensures opens { Opens (content model.now.model.tables) (O.upcoming outside.now) result }
        ensures sound { IfOk result (λ r. IsSound O.Outside r.0 outside.now) }
    {
        if outside.next().is_some() {
            return Err(OpeningError::Refused(OpeningRefusal::CallsWait));
        }
        let Some(run) = Run::new(heap, model, memory) else {
            return Err(OpeningError::NoMemory);
        };
        Ok((run, Slip { seal: () }))
    }

    /// Closes the run, for its account.
    pub fn close<O: Outside>(self, slip: Slip, outside: &O) -> Account
        ensures account { numbers result ≡ account self.entry.at (λ n. is_some (O.waits outside.now n)) }
    {
        let Slip { seal: () } = slip;
        Account {
            calls: self.state.calls(),
            returned: self.state.returned(),
            answered: self.state.answered(),
            unfinished: self.state.unfinished(),
            waiting: waiting_to(outside, 128),
        }
    }
}
