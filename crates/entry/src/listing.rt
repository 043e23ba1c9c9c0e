//! What is listed of an entry.
ghost use Rattle.std.specs.Prelude.{Some};
ghost use Rattle.run.specs.Openings.{numbers};
ghost use Rattle.entry.specs.Listings.{account_text, choice_line, listing_text, run_text};

use loading::load::LoadFault;
use run::playing::Playing;
use run::run::opening::Account;
use schedule::schedule::ScheduleRefusal;
use std::fmt;
use steps::refusal::Refusal;

/// What is listed of an entry.
#[derive(Drop)]
pub enum Listing {
    /// Its model breaks a rule.
    RefusedModel(LoadFault),
    /// What follows its model is no schedule.
    RefusedSchedule(ScheduleRefusal),
    /// Its choices came to this.
    Run(RunListing),
}

/// The choices of a run, and what they came to.
#[derive(Drop)]
pub struct RunListing {
    pub choices: Vec<u16>,
    pub run: Playing,
}

/// A choice and its answer, as they are printed.
#[derive(Clone, Copy)]
struct ChoiceLine {
    choice: u16,
    answer: Result<u16, Refusal>,
}

impl fmt::Display for ChoiceLine {
    ghost output = { λ l. Some (choice_line l.choice l.answer) };

    fn fmt<W: fmt::Write>(&self, f: &mut fmt::Formatter<W>) -> fmt::Result {
        match self.answer {
            Ok(_) => writeln!(f, "{} ok", self.choice),
            Err(refusal) => writeln!(f, "{} {}", self.choice, refusal.number()),
        }
    }
}

/// An account, as it is printed.
#[derive(Clone, Copy)]
struct AccountText(Account);

impl fmt::Display for AccountText {
    ghost output = { λ t. Some (account_text (numbers t.0)) };

    fn fmt<W: fmt::Write>(&self, f: &mut fmt::Formatter<W>) -> fmt::Result {
        let account = self.0;
        write!(f, "calls {} returned {}", account.calls, account.returned)?;
        write!(f, " answered {}", account.answered)?;
        write!(f, " unfinished {}", account.unfinished)?;
        write!(f, " waiting {}", account.waiting)
    }
}

impl fmt::Display for RunListing {
    ghost output = { λ r. Some (run_text r) };

    fn fmt<W: fmt::Write>(&self, f: &mut fmt::Formatter<W>) -> fmt::Result {
        for (choice, answer) in self.choices.iter().zip(self.run.answers.iter()) {
            let line = ChoiceLine {
                choice: *choice,
                answer: *answer,
            };
            write!(f, "{line}")?;
        }
        writeln!(f, "{}", AccountText(self.run.account))
    }
}

impl fmt::Display for Listing {
    ghost output = { λ l. Some (listing_text l) };

    fn fmt<W: fmt::Write>(&self, f: &mut fmt::Formatter<W>) -> fmt::Result {
        match self {
            Listing::RefusedModel(fault) => writeln!(f, "refused {fault}"),
            Listing::RefusedSchedule(refusal) => writeln!(f, "refused {}", refusal.number()),
            Listing::Run(run) => write!(f, "{run}"),
        }
    }
}
