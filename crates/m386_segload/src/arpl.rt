//! ARPL (PRM 6.3.6.2).
ghost use Rattle.std.specs.Prelude.{◌≡◌};
ghost use Rattle.m386_segload.specs.Arpl.{arpl_of};

use m386_desc::selector::rpl;

/// The destination with the RPL of the source where that is higher, and whether it was raised.
#[tactic(auto, unfolding(crate::specs::Arpl::arpl_of))]
pub fn arpl(dest: u16, src: u16) -> (u16, bool)
    ensures { result ≡ arpl_of dest src }
{
    if rpl(dest) < rpl(src) {
        (dest / 4 * 4 + u16::from(rpl(src)), true)
    } else {
        (dest, false)
    }
}
