// What the workers share: the windows, and the subs.
ghost use Rattle.std.specs.Prelude.{◌≡◌, ◌≤◌, length};
ghost use Rattle.laws.specs.Choice.{both};
ghost use Rattle.rules.specs.Fit.{subs_fit, windows_fit};
ghost use Rattle.rules.specs.Layout.{needed};
ghost use Rattle.rules.specs.Limits.{Bounds};

use crate::subs::subs_fit;
use crate::windows::windows_fit;
use rules::Settings;

// Whether both are fit, in any edition.
pub fn shared_fit(words: &[u32], g: Settings) -> bool
    requires bounds { Bounds g }
    requires g_in_bounds { needed g ≤ length words.now }
    ensures { result ≡ both (windows_fit words.now g) (subs_fit words.now g) }
{
    windows_fit(words, g) && subs_fit(words, g)
}
