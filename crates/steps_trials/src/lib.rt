//! Runs of small models over a house, computed from the definitions of steps: trials, whose answers were found apart from them.
#![tactic(auto)]

ghost use Rattle.steps_trials.specs.Heating.{HeatingTrials};
ghost use Rattle.steps_trials.specs.Lighting.{LightingTrials};
ghost use Rattle.steps_trials.specs.Radio.{RadioTrials};
ghost use Rattle.steps_trials.specs.StartUp.{StartUpTrials};
ghost use Rattle.steps_trials.specs.Values.{ValueTrials};
ghost use Rattle.steps_trials.specs.Orders.{OrderTrials};
ghost use Rattle.steps_trials.specs.Refusals.{RefusalTrials};

/// Does nothing; that the trials hold is computed from the definitions.
pub fn trials_hold()
    ensures heating { HeatingTrials }
    ensures lighting { LightingTrials }
    ensures radio { RadioTrials }
    ensures start_up { StartUpTrials }
    ensures values { ValueTrials }
    ensures orders { OrderTrials }
    ensures refusals { RefusalTrials }
{}
