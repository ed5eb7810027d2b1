ghost use Rattle.std.specs.Prelude.{◌≡◌, IfOk};

use crate::list::List;
use crate::memory::NoMemory;

/// A value of which an equal one can be made, where memory is there for it.
pub trait TryCopy: Sized {
    fn copy(&self) -> Result<Self, NoMemory>
        ensures { IfOk result (λ made. made ≡ self.now) };
}

impl TryCopy for u8 {
    fn copy(&self) -> Result<u8, NoMemory> {
        Ok(*self)
    }
}

impl<T: TryCopy + Drop> TryCopy for List<T> {
    fn copy(&self) -> Result<List<T>, NoMemory> {
        let mut made = List::new(self.alloc());
        for item in self.as_slice() {
            made.push(item.copy()?)?;
        }
        Ok(made)
    }
}
