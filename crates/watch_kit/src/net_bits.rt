ghost use Rattle.std.specs.Prelude.{◌≡◌, count_by};
ghost use Rattle.emh_base.specs.declared.plain.Src.TheVariants.{Bit};
ghost use Rattle.watch_kit.specs.NetBits.{is_bit};
ghost use Rattle.watch_kit.specs.inside.Keys.{bit_of};

use emh_base::{NetId, Src};

/// A bit of a net of a module. Offset 0 is the net's leftmost bit.
#[derive(Clone, Copy, Debug, PartialEq, Eq, PartialOrd, Ord)]
pub struct BitOf {
    pub net: NetId,
    pub offset: u16,
}

impl BitOf {
    /// The source that is tied to the bit.
    pub fn source(self) -> Src
        ensures { result ≡ Bit self.net self.offset }
    {
        Src::Bit(self.net, self.offset)
    }

    /// Whether a source is the bit.
    pub fn is_source(self, source: Src) -> bool
        ensures { result ≡ is_bit (bit_of self) source }
    {
        match source {
            Src::Tie0 => false,
            Src::Tie1 => false,
            Src::Bit(net, offset) => net.0 == self.net.0 && offset == self.offset,
        }
    }

    /// How many of some sources are the bit.
    pub fn count_in(self, sources: &[Src]) -> usize
        ensures { result ≡ count_by (is_bit (bit_of self)) sources.now }
    {
        sources
            .iter()
            .filter(|source| self.is_source(**source))
            .count()
    }
}
