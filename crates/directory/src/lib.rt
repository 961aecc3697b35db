// The member directory: which member a contract number belongs to, in memory that is handed over.
#![tactic(auto)]

ghost use Rattle.std.specs.Prelude.{◌≡◌, false, length, is_ok};
ghost use Rattle.keyed.specs.Contents.{new_list};
ghost use Rattle.directory.specs.Entering.{entries_of, directory_check, enter_verdict, enter_outcome};

use keyed::{Entry, KeyedList, fits};
use refusal::{Concern, Layer, NO_MEMBER, Reason, Refusal};

// Contract numbers and the members that were entered last under them.
#[derive(Drop)]
pub struct Directory<'a> {
    members: KeyedList<'a, u32, u8>,
}

impl<'a> Directory<'a> {
    // Whether a directory can be made in memory of so many entries.
    pub fn check(size: usize) -> Result<(), Refusal>
        ensures { result ≡ directory_check size }
    {
        if !fits(size) {
            return Err(Refusal::naming_nobody(Reason::WrongLength, Layer::Directory));
        }
        Ok(())
    }

    // An empty directory. Nothing is written; where the check refuses, it has no room.
    pub fn new(memory: &'a mut [Entry<u32, u8>]) -> Directory<'a>
        ensures made { entries_of result ≡ new_list (length memory.old) }
        ensures memory { result.members.memory.now ≡ memory.old }
        ensures lent { result.members.memory.ghost_name ≡ memory.entry.ghost_name }
    {
        Directory {
            members: KeyedList::new(memory),
        }
    }
}

impl Directory<'_> {
    // The member of a contract number.
    pub fn find(&self, contract: u32) -> Option<u8>
        ensures { result ≡ (entries_of self.now).under contract }
    {
        self.members.find(&contract)
    }

    // How many new contract numbers may still be entered.
    pub fn spare(&self) -> usize
        ensures { result ≡ (entries_of self.now).spare }
    {
        self.members.spare()
    }

    // Enters a contract number: its second entry replaces the first.
    pub fn enter(&mut self, contract: u32, member: u8) -> Result<(), Refusal>
        ensures answer { result ≡ enter_verdict (entries_of self.old) contract member }
        ensures after { entries_of self.new ≡ enter_outcome (entries_of self.old) contract member }
        ensures refused { is_ok result ≡ false → self.new.members.memory.now ≡ self.old.members.memory.now }
        ensures lent { self.new.members.memory.ghost_name ≡ self.old.members.memory.ghost_name }
    {
        let whom = Concern::of_member(usize::from(member));
        if member >= NO_MEMBER {
            return Err(whom.refused(Reason::NoSuchMember, Layer::Directory));
        }
        let full = whom.refused(Reason::Full, Layer::Directory);
        self.members.put(contract, member, full)
    }
}
