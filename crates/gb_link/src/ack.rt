//! Acknowledgements of the frames of a link, by a base and a mask: each frame below the base is acknowledged, and frame base + i if bit
//! i of the mask is 1.
ghost use Rattle.std.specs.Prelude.{◌≡◌};
ghost use Rattle.gb_link.specs.Ack.{covers};

use gb_types::limits::LINK_WINDOW;

/// Returns true if an acknowledgement with this base and mask covers frame `number`: if `number` is below `base`, or is `base + i`
/// and bit `i` of `mask` is 1.
pub fn covers(base: u64, mask: u64, number: u64) -> bool
    ensures { result ≡ covers base mask number }
{
    if number < base {
        return true;
    }
    let ahead = number - base;
    ahead < LINK_WINDOW && (mask >> ahead) & 1 == 1
}
