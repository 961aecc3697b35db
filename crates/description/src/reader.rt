// A description read.
ghost use Rattle.std.specs.Prelude.{◌≡◌};
ghost use Rattle.description.specs.Figures.{quarter_described};

use crate::draft::{Draft, Quarter};
use crate::problem::Problem;

pub fn read(text: &[u8]) -> Result<Quarter, Problem>
    ensures { result ≡ quarter_described text.now }
{
    let mut draft = Draft::default();
    for (index, line) in text.split(|byte| *byte == b'\n').enumerate() {
        draft.enter_line(index + 1, line)?;
    }
    draft.quarter()
}
