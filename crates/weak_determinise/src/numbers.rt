//! Sets of numbers, each as the list of its members in order.

ghost use Rattle.std.specs.Prelude.{◌≡◌, OnOk, Some, slice_get};
ghost use Rattle.weak_determinise.specs.inner.Among.{Among};
ghost use Rattle.weak_determinise.specs.inner.Numbers.{IsRising, PutsIn};

use std::alloc::AllocError;

pub(crate) fn put_place(places: &mut Vec<u32>, place: u32) -> Result<(), AllocError>
    requires { IsRising places.old.items }
    ensures { OnOk result (PutsIn place places.old.items places.new.items) }
{
    match places.binary_search(&place) {
        Ok(_) => Ok(()),
        Err(at) => Ok(places.insert(at, place)?),
    }
}

pub(crate) fn put_symbol(symbols: &mut Vec<usize>, symbol: usize) -> Result<(), AllocError>
    requires { IsRising symbols.old.items }
    ensures { OnOk result (PutsIn symbol symbols.old.items symbols.new.items) }
{
    match symbols.binary_search(&symbol) {
        Ok(_) => Ok(()),
        Err(at) => Ok(symbols.insert(at, symbol)?),
    }
}

// Where the symbol stands.
pub(crate) fn place_of(symbols: &[usize], symbol: usize) -> usize
    requires rising { IsRising symbols.now }
    requires there { Among symbols.now symbol }
    ensures { slice_get symbols.now result ≡ Some symbol }
{
    match symbols.binary_search(&symbol) {
        Ok(at) => at,
        Err(_) => 0,
    }
}
