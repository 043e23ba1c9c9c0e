//! Reading a schedule: from bytes to choices, or why there are none.
ghost use Rattle.std.specs.Prelude.{◌≡◌};
ghost use Rattle.schedule.specs.declared.schedule.ScheduleError.TheVariants.{NoMemory};
ghost use Rattle.schedule.specs.Schedules.{wrong_schedule, schedule_number, ReadsSchedule};

use std::alloc::{AllocError, Global};
use tables::numbers::numbers;

/// Why bytes are no schedule.
#[derive(Clone, Copy, PartialEq, Eq, Debug)]
pub enum ScheduleRefusal {
    /// The length or the version is not the one wanted, a number is not whole, or there are too many choices.
    Malformed,
}

impl ScheduleRefusal {
    /// The number under which the refusal is reported.
    pub fn number(self) -> u8
        ensures number { result ≡ schedule_number self }
    {
        match self {
            ScheduleRefusal::Malformed => 9,
        }
    }
}

/// Why a schedule is not read.
#[derive(Clone, Copy, PartialEq, Eq, Debug)]
pub enum ScheduleError {
    /// There is no memory for the choices.
    NoMemory,
    /// The bytes are no schedule.
    Refused(ScheduleRefusal),
}

impl From<AllocError> for ScheduleError {
    ghost from_gives = { λ _ r. r ≡ NoMemory };

    fn from(_e: AllocError) -> ScheduleError {
        ScheduleError::NoMemory
    }
}

/// The most bytes that a schedule can have: five in front of 4,096 choices.
const LONGEST: usize = 8_197;

fn wrong_schedule(bytes: &[u8]) -> bool
    ensures wrong { result ≡ wrong_schedule bytes.now }
{
    let [a, b, c, d, version, ..] = *bytes else {
        return true;
    };
    let stated = u32::from_be_bytes([a, b, c, d]) as usize;
    bytes.len() > LONGEST || bytes.len() % 2 != 1 || stated + 4 != bytes.len() || version != 1
}

/// The choices that the bytes spell, or why there are none.
pub fn choices(heap: Global, bytes: &[u8]) -> Result<Vec<u16>, ScheduleError>
    ensures reads { ReadsSchedule bytes.now result }
{
    if wrong_schedule(bytes) {
        return Err(ScheduleError::Refused(ScheduleRefusal::Malformed));
    }
    Ok(numbers(heap, &bytes[5..])?)
}
