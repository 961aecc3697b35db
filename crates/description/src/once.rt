// A number that may be given once.
ghost use Rattle.std.specs.Prelude.{◌≡◌};
ghost use Rattle.description.specs.Group.{given_once};

use crate::problem::Fault;

pub(crate) fn given(before: Option<i32>, number: i32) -> Result<Option<i32>, Fault>
    ensures { result ≡ given_once before number }
{
    match before {
        None => Ok(Some(number)),
        Some(_) => Err(Fault::Repeated),
    }
}
