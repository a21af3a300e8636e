ghost use Rattle.std.specs.Prelude.{IsTrue};
ghost use Rattle.cove_base.specs.Scripts.{is_within_limits};

use cove_base::Script;

// That a script is within its limits; it runs no code.
pub(crate) fn within_limits(script: &Script)
    ensures { IsTrue (is_within_limits script.now) }
{
    let _pages = script.pages;
}
