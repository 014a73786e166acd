// What is asked of a lent golden image.
ghost use Rattle.std.specs.Prelude.{◌≡◌};
ghost use Rattle.rules.specs.Refusals.{answer_of};
ghost use Rattle.rules.specs.Signature.{image_refusals};
ghost use Rattle.ledger.specs.Refusals.{answered};

use crate::refusals::Refusal;
use signature::golden::is_misfit_image;

pub fn check_image(golden: &[u8]) -> Result<(), Refusal>
    ensures { answered result ≡ answer_of (image_refusals golden.now) }
{
    if is_misfit_image(golden) {
        return Err(Refusal::Misfit);
    }
    Ok(())
}
