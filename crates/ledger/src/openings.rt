// Opening a run.
ghost use Rattle.ledger.specs.Calls.{Opens};
ghost use Rattle.ledger.specs.Judgement.{SameMemory, held_in};

use crate::entries::{Account, Ledger, Mark};
use refusal::{Layer, Reason, Refusal};

impl Ledger<'_> {
    // Clears the ledger for a run with its figures, whatever it held.
    pub fn clear(&mut self) -> Result<(), Refusal>
        ensures does { Opens self.old.opening result (held_in self.old) (held_in self.new) }
        ensures same { SameMemory self.old self.new }
    {
        if !self.figures_fit() {
            return Err(Refusal::naming_nobody(Reason::OutsideLimits, Layer::Run));
        }
        if !self.lengths_fit() {
            return Err(Refusal::naming_nobody(Reason::WrongLength, Layer::Run));
        }
        self.marks.fill(Mark::Unpriced);
        self.accounts.fill(Account::default());
        Ok(())
    }
}
