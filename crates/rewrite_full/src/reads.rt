//! The reading of an old value.

ghost use Rattle.std.specs.Prelude.{◌≡◌, ◌<◌, ℕ, List, Ok, IfErr, IfOk, OnErr, length};
ghost use Rattle.toast_store.specs.Walks.{CanStep};
ghost use Rattle.toast_store.specs.Fetches.{FetchSteps, outcome};
ghost use Rattle.toast_store.specs.Stores.{IsStore};
ghost use Rattle.value_ids.specs.declared.fault.DrawFault.TheVariants.{Memory};
ghost use Rattle.rewrite_facts.specs.Rewrites.{with_value};
ghost use Rattle.rewrite_full.specs.Stages.{told_by};

use rewrite_facts::RowCopy;
use toast_store::{Fetch, FetchFault, FetchStep, ToastStore};
use tuple_layout::{Bytes, Cell, CellList};
use value_ids::DrawFault;

/// A copy with the value of the column at a place.
pub(crate) fn with_value(copy: RowCopy, at: usize, value: Bytes) -> RowCopy
    requires { at < length copy.cells }
    ensures { result ≡ with_value copy at value }
{
    let mut cells = copy.cells.into_vec();
    cells[at] = Cell::Inline(value);
    RowCopy {
        key: copy.key,
        stamp: copy.stamp,
        ids: copy.ids,
        cells: CellList::from_vec(cells),
    }
}

/// Makes a step of the read of a value, which is whole, and answers it once it is read. Where there is no memory, the
/// store is as before.
pub(crate) fn read(toast: &mut ToastStore, fetch: &mut Fetch) -> Result<Option<Bytes>, DrawFault>
    requires can { CanStep toast.old.index fetch.old.walk }
    requires whole { (value : List ℕ) × (outcome toast.old fetch.old ≡ Ok value) }
    ensures ok { IfOk result (λ value. FetchSteps toast.old fetch.old toast.new fetch.new (told_by value)) }
    ensures cause { IfErr result (λ fault. fault ≡ Memory) }
    ensures stays { OnErr result (toast.new ≡ toast.old) }
    ensures sound { IsStore toast.new }
{
    match fetch.step(toast) {
        Ok(FetchStep::More) => Ok(None),
        Ok(FetchStep::Done(value)) => Ok(Some(value)),
        Err(fault) => match fault {
            FetchFault::Memory => Err(DrawFault::Memory),
            _ => unreachable!(),
        },
    }
}
