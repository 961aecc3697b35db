// The group that a description may list: its internal price and its members.
ghost use Rattle.std.specs.Prelude.{◌≡◌, ◌≤◌, length};
ghost use Rattle.sharing.specs.Verdict.{most_members};
ghost use Rattle.description.specs.Entries.{left};
ghost use Rattle.description.specs.Group.{listed, one_member_more, group_after, group_from};

use crate::entry::GroupEntry;
use crate::once;
use crate::problem::{Fault, Problem};
use charging::Position;
use sharing::MOST_MEMBERS;

// The members of a group, by their numbers: room for the largest group, filled in the order in which they come.
// An array and a count, since a quarter of an hour can be copied, and a vector of fixed room can not.
#[derive(Clone, Copy)]
pub struct Members {
    positions: [Position; MOST_MEMBERS],
    count: usize,
}

impl Default for Members {
    ghost use Rattle.description.specs.Group.{no_members};

    ghost is_default = { λ members. members ≡ no_members };

    fn default() -> Members {
        Members {
            positions: [Position::default(); MOST_MEMBERS],
            count: 0,
        }
    }
}

impl Members {
    fn enter(&mut self, position: Position) -> Result<(), Fault>
        ensures { left result self.new ≡ one_member_more self.old position }
    {
        if self.count >= MOST_MEMBERS {
            return Err(Fault::Repeated);
        }
        self.positions[self.count] = position;
        self.count += 1;
        Ok(())
    }

    // The members, by their numbers.
    pub fn positions(&self) -> &[Position]
        ensures members { result.now ≡ listed self.now }
        ensures few { length result.now ≤ most_members }
    {
        &self.positions[0..self.count.min(MOST_MEMBERS)]
    }
}

#[derive(Clone, Copy)]
pub struct Group {
    pub internal_price: i32,
    pub members: Members,
}

// What is known of the group so far.
#[derive(Default, Drop)]
pub struct GroupDraft {
    internal_price: Option<i32>,
    members: Members,
}

impl GroupDraft {
    pub(crate) fn enter(&mut self, entry: GroupEntry) -> Result<(), Fault>
        ensures { left result self.new ≡ group_after self.old entry }
    {
        match entry {
            GroupEntry::InternalPrice(price) => self.internal_price = once::given(
                self.internal_price,
                price,
            )?,
            GroupEntry::Member(position) => self.members.enter(position)?,
        }
        Ok(())
    }

    // None where no member is listed.
    pub(crate) fn group(self) -> Result<Option<Group>, Problem>
        ensures { result ≡ group_from self }
    {
        if self.members.count == 0 {
            return Ok(None);
        }
        let internal_price = self.internal_price.ok_or(Problem::NoInternalPrice)?;
        Ok(Some(Group {
            internal_price,
            members: self.members,
        }))
    }
}
