//! Choice 0.
ghost use Rattle.std.specs.Prelude.{◌≡◌};
ghost use Rattle.tables.specs.Layout.{content};
ghost use Rattle.steps.specs.Crossing.{result_sort};
ghost use Rattle.steps.specs.Histories.{Moves};
ghost use Rattle.steps.specs.Steps.{expects, reply_step};
ghost use Rattle.run.specs.Runs.{moment};

use crate::run::Run;
use outside::outside::Outside;
use outside::value::{PlainValue, Sort};
use run_state::values::{same_sort, sort_at, value_of_plain};
use steps::records::CallRecord;
use steps::refusal::Refusal;
use steps::state::CallState;
use tables::tables::Tables;

/// The sort of the result of a call.
fn result_sort(t: &Tables, call: &CallRecord) -> Sort
    ensures sort { result ≡ result_sort (content t.now) call.now }
{
    match t.methods.get(call.method as usize) {
        Some(row) => sort_at(t, row.result),
        None => Sort::Unit,
    }
}

/// Whether the call is out, and the value of the sort of its result.
fn expects(t: &Tables, call: &CallRecord, value: PlainValue) -> bool
    ensures expects { result ≡ expects (content t.now) call.now value }
{
    matches!(call.state, CallState::Outside) && same_sort(result_sort(t, call), value.sort())
}

impl<'a> Run<'a> {
    /// The reply that comes next is put into its future. The answer is the call that it ends.
    pub(crate) fn reply<O: Outside>(&mut self, outside: &mut O) -> Result<u16, Refusal>
        ensures model { self.new.model ≡ self.old.model }
        ensures moves { Moves O.Outside 0 (reply_step self.old.model self.old.at (O.upcoming outside.old)) (moment self.old outside.old) result (moment self.new outside.new) }
    {
        let Some(reply) = outside.next() else {
            return Err(Refusal::NothingWaits);
        };
        let Some(call) = self.state.call(reply.call) else {
            return Err(Refusal::StrangeReply);
        };
        if !expects(self.model.tables(), call, reply.value) {
            return Err(Refusal::StrangeReply);
        }
        outside.deliver(reply.call);
        self.end_call(reply.call, value_of_plain(reply.value), true);
        Ok(reply.call)
    }
}
