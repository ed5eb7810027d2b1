ghost use Rattle.emh_io.specs.PutAll.{PutsAll};

use crate::sink::{PutFault, Sink};

/// Puts a text piece by piece, until all of it is written or a put fails.
pub fn put_all<K: Sink>(out: &mut K, text: &[u8]) -> Result<(), PutFault>
    ensures { PutsAll text.now (K.told out.old) (K.told out.new) result }
{
    let mut at = 0;
    while at < text.len() {
        at += out.put(&text[at..])? as usize;
    }
    Ok(())
}
