// A refusal: the reason, the layer that gave it, and whom it concerns.
ghost use Rattle.std.specs.Prelude.{◌≡◌, Some};
ghost use Rattle.refusal.specs.Numbers.{refused, concerning, at_cell, naming_nobody, at_place};
ghost use Rattle.refusal.specs.Text.{refusal_text};

use crate::concern::Concern;
use crate::layer::Layer;
use crate::reason::Reason;
use crate::told::Told;
use std::fmt;

#[derive(Clone, Copy, PartialEq, Eq, Debug)]
pub struct Refusal {
    pub reason: Reason,
    pub layer: Layer,
    pub concern: Concern,
    // the byte of a file at which the refused record begins
    pub place: Option<usize>,
}

impl Concern {
    // The refusal of such a call.
    pub fn refused(self, reason: Reason, layer: Layer) -> Refusal
        ensures { result ≡ refused self reason layer }
    {
        Refusal {
            reason,
            layer,
            concern: self,
            place: None,
        }
    }
}

impl Refusal {
    // A refusal that names a member and a period.
    pub fn concerning(reason: Reason, layer: Layer, member: usize, period: usize) -> Refusal
        ensures { result ≡ concerning reason layer member period }
    {
        Concern::new(member, period).refused(reason, layer)
    }

    // A refusal at a cell of a book.
    pub fn at_cell(reason: Reason, layer: Layer, line: usize, period: usize) -> Refusal
        ensures { result ≡ at_cell reason layer line period }
    {
        Refusal::concerning(reason, layer, line / 2, period)
    }

    // A refusal that names neither member nor period.
    pub fn naming_nobody(reason: Reason, layer: Layer) -> Refusal
        ensures { result ≡ naming_nobody reason layer }
    {
        Concern::NOBODY.refused(reason, layer)
    }

    // The same refusal, of a record that begins at this byte of a file.
    pub fn at_place(self, place: usize) -> Refusal
        ensures { result ≡ at_place self place }
    {
        Refusal {
            place: Some(place),
            ..self
        }
    }
}

impl fmt::Display for Refusal {
    ghost output = { λ r. Some (refusal_text r) };

    fn fmt<W: fmt::Write>(&self, f: &mut fmt::Formatter<W>) -> fmt::Result {
        let number = self.reason.number();
        let reason = self.reason;
        let layer = self.layer;
        let member = Told("member", self.concern.member);
        let period = Told("period", self.concern.period);
        let place = Told("byte", self.place);
        write!(
            f,
            "refused {number}: {reason} ({layer}{member}{period}{place})"
        )
    }
}
