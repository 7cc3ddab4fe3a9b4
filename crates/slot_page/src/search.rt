ghost use Rattle.std.specs.Prelude.{◌≡◌};
ghost use Rattle.std.specs.List.Sorted.{IsSorted};
ghost use Rattle.slot_page.specs.Tids.{is_listed, tid_cmp};

use crate::line::Tid;

/// Whether a list of tids, which are in order, has a tid. It takes time logarithmic in their number.
pub fn is_listed(tids: &[Tid], tid: &Tid) -> bool
    requires { IsSorted tid_cmp tids.now }
    ensures { result ≡ is_listed tids.now tid.now }
{
    tids.binary_search(tid).is_ok()
}
