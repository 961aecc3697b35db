// The two sides of a balance, and the energy of a set's members on each.
ghost use Rattle.std.specs.Prelude.{◌≡◌, length, if◌then◌else◌};
ghost use Rattle.sharing.specs.Rests.{in_set, energy, energies};

use crate::rule::MOST_MEMBERS;

// Not the side that a system is on: each crate gives its sides methods of its own, which a shared type could not have.
#[derive(Clone, Copy)]
pub(crate) enum Side {
    Surplus,
    Shortage,
}

// Whether a member is in a set: bit i of the set says so of member i.
pub fn contains(set: u64, member: usize) -> bool
    ensures { result ≡ in_set set member }
{
    member < MOST_MEMBERS && (set >> member) & 1 == 1
}

impl Side {
    // The energy of a rest on this side.
    fn of_rest(self, rest: i32) -> u32
        ensures { result ≡ energy self rest }
    {
        match self {
            Side::Surplus => rest.max(0).unsigned_abs(),
            Side::Shortage => rest.min(0).unsigned_abs(),
        }
    }

    // The energy of member i on this side: none outside the set.
    fn of_member(self, set: u64, i: usize, rest: i32) -> u32
        ensures { result ≡ (if in_set set i then energy self rest else 0) }
    {
        if contains(set, i) {
            self.of_rest(rest)
        } else {
            0
        }
    }

    // Lists the energy of each member on this side: into a slice, since a vector that is pushed to takes half as long again.
    pub(crate) fn list(self, set: u64, rests: &[i32], own: &mut [u32])
        requires { length own.old ≡ length rests.now }
        ensures { own.new ≡ energies self set rests.now }
    {
        for (i, rest) in rests.iter().enumerate() {
            own[i] = self.of_member(set, i, *rest);
        }
    }
}
