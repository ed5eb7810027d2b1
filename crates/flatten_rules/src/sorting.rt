ghost use Rattle.std.specs.Prelude.{◌≡◌, IfOk};
ghost use Rattle.flatten_rules.specs.Sorted.{sorted};

use emh_base::{List, NoMemory};
use std::alloc::Global;

/// These texts in rising order of their bytes.
pub(crate) fn sorted(alloc: Global, mut texts: Vec<List<u8>>) -> Result<List<List<u8>>, NoMemory>
    ensures { IfOk result (λ rising. rising ≡ sorted texts.items) }
{
    texts.sort_unstable_by(|a, b| a.as_slice().cmp(b.as_slice()));
    let mut rising = List::new(alloc);
    for text in texts {
        rising.push(text)?;
    }
    Ok(rising)
}
