// Opening a run.
ghost use Rattle.ledger.specs.Calls.{Opens};
ghost use Rattle.ledger.specs.Judgement.{SameMemory, held_in};
ghost use Rattle.settlement.specs.Promises.{Begins};

use ledger::Ledger;
use refusal::Refusal;

// Opens a run with these figures: its ledger then holds unpriced periods and empty accounts.
pub fn open(ledger: &mut Ledger) -> Result<(), Refusal>
    ensures does { Opens ledger.old.opening result (held_in ledger.old) (held_in ledger.new) }
    ensures same { SameMemory ledger.old ledger.new }
    ensures begins { Begins ledger.old.opening result (held_in ledger.new) }
{
    ledger.clear()
}
