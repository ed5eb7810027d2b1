ghost use Rattle.std.specs.Prelude.{◌≡◌, [], IfOk, MatchOption};
ghost use Rattle.flatten_rules.specs.Domains.{net_bits};
ghost use Rattle.flatten_rules.specs.Design.{IsGood};
ghost use Rattle.flatten_rules.specs.Walking.{way_of_bits, IsNextBit};
ghost use Rattle.flatten_rules.specs.inside.Left.{nets_inside};

use crate::lookup::width;
use crate::walk::occurrences::Walk;
use crate::walk::way::Way;
use emh_base::{ModId, NoMemory, PModule, PNet, Plain};
use std::alloc::Global;
use std::marker::Model;

/// A walk through the net bits of the occurrences of a design that aren't leaves, in preorder; in an occurrence by
/// rising id of the nets, then from the left.
#[derive(Drop)]
pub struct BitWalk<'a> {
    walk: Walk<'a>,
    /// The nets of the occurrence that the walk is at of which a bit is still to come.
    nets: &'a [PNet],
    /// The next bit of the first of them.
    offset: u16,
}

impl<'a> Model for BitWalk<'a> {
    ghost use Rattle.flatten_rules.specs.Walking.{BitWalking};

    ghost Value = { BitWalking };

    ghost use Rattle.flatten_rules.specs.inside.Left.{bit_walking, AreLeft};

    ghost view = { λ bits. bit_walking bits.walk bits.nets.now bits.offset };

    ghost invariant = { λ bits. AreLeft bits.walk bits.nets.now bits.offset };
}

impl<'a> BitWalk<'a> {
    /// A walk that is about to begin at the top of a design.
    pub fn new(alloc: Global, plain: &'a Plain, top: ModId) -> Result<BitWalk<'a>, NoMemory>
        requires { IsGood plain.now top }
        ensures { IfOk result (λ bits. bits
            ≡ record { plain = plain.now; top = top; path = []; rest = net_bits plain.now top }) }
    {
        let walk = Walk::new(alloc, plain, top)?;
        Ok(BitWalk {
            nets: no_nets(walk.way().module()),
            walk,
            offset: 0,
        })
    }

    /// The way to the occurrence of the last bit that came.
    pub fn way(&self) -> &Way<'a>
        ensures { result.now ≡ way_of_bits self.now }
    {
        self.walk.way()
    }

    /// The next bit: its net, and its offset from the left. None at the end. After want of memory nothing is told of
    /// what is still to come.
    pub fn next(&mut self) -> Result<Option<(&'a PNet, u16)>, NoMemory>
        ensures plain { self.new.plain ≡ self.old.plain }
        ensures top { self.new.top ≡ self.old.top }
        ensures next { IfOk result (λ bit. MatchOption bit (self.old.rest ≡ [])
            (λ bit. IsNextBit self.old self.new bit.0.now bit.1)) }
    {
        loop {
            match self.nets.split_first() {
                None => {
                    if !self.walk.advance()? {
                        return Ok(None);
                    }
                    self.nets = nets_inside(self.walk.way().module());
                    self.offset = 0;
                }
                Some((net, others)) => {
                    let offset = self.offset;
                    if offset + 1 < width(net.range) {
                        self.offset = offset + 1;
                    } else {
                        self.nets = others;
                        self.offset = 0;
                    }
                    return Ok(Some((net, offset)));
                }
            }
        }
    }
}

/// The nets of a module whose bits are told: none of a leaf's.
fn nets_inside(holder: &PModule) -> &[PNet]
    ensures { result.now ≡ nets_inside holder.now }
{
    if holder.leaf {
        no_nets(holder)
    } else {
        holder.nets.as_slice()
    }
}

fn no_nets(holder: &PModule) -> &[PNet]
    ensures { result.now ≡ [] }
{
    &holder.nets.as_slice()[..0]
}
