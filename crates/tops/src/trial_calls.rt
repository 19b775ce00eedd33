// The calls made at a trial layer.
ghost use Rattle.tops.specs.Tallies.{trial_rules, trial_tally};
ghost use Rattle.tops.specs.Shown.{trial_shown};
ghost use Rattle.trials.specs.Trials.{trial_account};
ghost use Rattle.std.specs.Prelude.{refl};

use crate::call::{Call, TrialCall};
use crate::top::Top;
use books::book::Book;
use terms::fault::Fault;
use trials::trial::Trial;

impl<B: Book> Top for Trial<B> {
    type Below = B;

    type Own = TrialCall;

    ghost tally = { λ t. trial_tally (trial_account t) (B.Book.meaning.account t.below) };

    ghost rules = { trial_rules };

    ghost beneath = { λ t. t.below };

    ghost shown = { λ t. trial_shown (trial_account t) (B.Book.meaning.account t.below) };

    ghost named = { refl };

    fn open(below: B) -> Self {
        Trial::open(below)
    }

    fn close(self) -> B {
        self.into_below()
    }

    #[tactic(auto, using(crate::proofs::Calls::booking_decided, crate::proofs::Calls::commit_noted, crate::proofs::Calls::commit_posted))]
    fn call(&mut self, call: &Call<TrialCall>) -> Result<(), Fault> {
        // Kept: no plainer: a call is data that scripts write down and the tally judges; a closure could not be compared.
        match call {
            Call::Book(booking) => self.book(*booking),
            Call::Own(own) => match own {
                TrialCall::Commit => self.commit(),
                TrialCall::Drop => {
                    self.drop_trial();
                    Ok(())
                }
            },
        }
    }
}
