ghost use Rattle.std.specs.Prelude.{◌≡◌, ℕ, ◌<◌, ◌≤◌, ◌↔◌, [], length, not, position, Some, IfOk};
ghost use Rattle.emh_base.specs.Name.{IsName, is_name_byte};

use crate::list::List;
use crate::memory::NoMemory;
use crate::try_copy::TryCopy;
use std::alloc::Global;
use std::marker::Model;

/// The most bytes that a name may have.
pub const NAME_LIMIT: usize = 1024;

/// Why some bytes are no name.
#[derive(Clone, Copy, Debug, PartialEq, Eq)]
pub enum NameFault {
    /// There are none.
    Empty,
    /// There are more than 1,024.
    TooLong,
    /// The byte at this place, counted from 0, is the first that isn't 33 to 126.
    BadByte { at: u32 },
    NoMemory,
}

impl From<NoMemory> for NameFault {
    ghost use Rattle.emh_base.specs.declared.name.NameFault.TheVariants.{NoMemory as no_memory};

    ghost from_gives = { λ _ fault. fault ≡ no_memory };

    fn from(_: NoMemory) -> NameFault {
        NameFault::NoMemory
    }
}

/// The name of a module, net, port or instance: 1 to 1,024 bytes, each 33 to 126. This project's own limit.
#[derive(Debug, Drop)]
pub struct Name {
    bytes: List<u8>,
}

impl Model for Name {
    ghost use Rattle.std.specs.Prelude.{List, ℕ};
    ghost use Rattle.emh_base.specs.Name.{IsName};

    ghost Value = { List ℕ };

    ghost view = { λ name. name.bytes };

    ghost invariant = { λ name. IsName name.bytes };
}

impl Name {
    /// The name of these bytes. Their number is looked at before their values.
    pub fn new(alloc: Global, bytes: &[u8]) -> Result<Name, NameFault>
        ensures ok { IfOk result (λ name. name ≡ bytes.now) }
        ensures name { IfOk result IsName }
        ensures empty { (result ≡ Err NameFault.Empty) ↔ (bytes.now ≡ []) }
        ensures too_long { (result ≡ Err NameFault.TooLong) ↔ (1024 < length bytes.now) }
        ensures bad_byte { (at : ℕ) → (result ≡ Err (NameFault.BadByte at))
            ↔ ((length bytes.now ≤ 1024) × (position (λ byte. not (is_name_byte byte)) bytes.now ≡ Some at)) }
    {
        if bytes.is_empty() {
            return Err(NameFault::Empty);
        }
        if bytes.len() > NAME_LIMIT {
            return Err(NameFault::TooLong);
        }
        match first_unfit(bytes) {
            Some(at) => Err(NameFault::BadByte { at: at as u32 }),
            None => Ok(LentName::new(bytes).to_name(alloc)?),
        }
    }

    /// The bytes, which are a name's.
    pub fn as_bytes(&self) -> &[u8]
        ensures value { result.now ≡ self.now }
        ensures name { IsName self.now }
    {
        self.bytes.as_slice()
    }
}

impl TryCopy for Name {
    fn copy(&self) -> Result<Name, NoMemory> {
        Ok(Name {
            bytes: self.bytes.copy()?,
        })
    }
}

/// The bytes of a name, lent by the text in which they stand.
#[derive(Debug, Drop)]
pub struct LentName<'a> {
    bytes: &'a [u8],
}

impl<'a> Model for LentName<'a> {
    ghost use Rattle.std.specs.Prelude.{List, ℕ};
    ghost use Rattle.emh_base.specs.Name.{IsName};

    ghost Value = { List ℕ };

    ghost view = { λ name. name.bytes.now };

    ghost invariant = { λ name. IsName name.bytes.now };
}

impl<'a> LentName<'a> {
    /// These bytes, which are known to be a name's.
    pub fn new(bytes: &'a [u8]) -> LentName<'a>
        requires { IsName bytes.now }
        ensures { result ≡ bytes.now }
    {
        LentName { bytes }
    }

    /// The bytes, which are a name's.
    pub fn as_bytes(&self) -> &'a [u8]
        ensures value { result.now ≡ self.now }
        ensures name { IsName self.now }
    {
        self.bytes
    }

    /// The name, with bytes of its own.
    pub fn to_name(&self, alloc: Global) -> Result<Name, NoMemory>
        ensures { IfOk result (λ name. name ≡ self.now) }
    {
        Ok(Name {
            bytes: List::from_slice(alloc, self.bytes)?,
        })
    }
}

/// Whether a byte may stand in a name: 33 to 126.
pub fn is_name_byte(byte: u8) -> bool
    ensures { result ≡ is_name_byte byte }
{
    (33..=126).contains(&byte)
}

/// The place of the first byte that may not stand in a name.
fn first_unfit(bytes: &[u8]) -> Option<usize>
    ensures { result ≡ position (λ byte. not (is_name_byte byte)) bytes.now }
{
    bytes.iter().position(|byte| !is_name_byte(*byte))
}
