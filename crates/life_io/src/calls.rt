ghost use Rattle.std.specs.Prelude.{◌≡◌, ◌↔◌, IsTrue, Contains};
ghost use Rattle.life_io.specs.MemSinks.{fail_of};

use crate::mem_sink::PutFail;

/// Whether this call is among those that are to fail.
pub(crate) fn is_due(fails: &[u64], call: u128) -> bool
    ensures { IsTrue result ↔ Contains fails.now call }
{
    fails.iter().any(|due| u128::from(*due) == call)
}

/// After how many bytes this call is to fail, if it is.
pub(crate) fn due_after(fails: &[PutFail], call: u128) -> Option<usize>
    ensures { result ≡ fail_of fails.now call }
{
    let fail = fails.iter().find(|fail| u128::from(fail.call) == call)?;
    Some(fail.after)
}
