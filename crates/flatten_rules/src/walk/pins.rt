ghost use Rattle.std.specs.Prelude.{◌≡◌, [], IfOk, MatchOption};
ghost use Rattle.flatten_rules.specs.Domains.{pins};
ghost use Rattle.flatten_rules.specs.Design.{IsGood};
ghost use Rattle.flatten_rules.specs.Walking.{way_of_pins, IsNextPin};
ghost use Rattle.flatten_rules.specs.inside.Left.{ports_inside};

use crate::lookup::{net_of, width};
use crate::walk::occurrences::Walk;
use crate::walk::way::Way;
use emh_base::{ModId, NoMemory, PModule, PNet, PPort, Plain};
use std::alloc::Global;
use std::marker::Model;

/// A walk through the pins of the leaf occurrences of a design, in preorder; of a leaf in port order, then from the
/// left.
#[derive(Drop)]
pub struct PinWalk<'a> {
    walk: Walk<'a>,
    /// The module of the occurrence that the walk is at.
    holder: &'a PModule,
    /// Its ports of which a bit is still to come.
    ports: &'a [PPort],
    /// The next bit of the first of them.
    offset: u16,
}

impl<'a> Model for PinWalk<'a> {
    ghost use Rattle.flatten_rules.specs.Walking.{PinWalking};

    ghost Value = { PinWalking };

    ghost use Rattle.flatten_rules.specs.inside.Left.{pin_walking, ArePinsLeft};

    ghost view = { λ pins. pin_walking pins.walk pins.holder.now pins.ports.now pins.offset };

    ghost invariant = { λ pins. ArePinsLeft pins.walk pins.holder.now pins.ports.now pins.offset };
}

impl<'a> PinWalk<'a> {
    /// A walk that is about to begin at the top of a design.
    pub fn new(alloc: Global, plain: &'a Plain, top: ModId) -> Result<PinWalk<'a>, NoMemory>
        requires { IsGood plain.now top }
        ensures { IfOk result (λ walk. walk
            ≡ record { plain = plain.now; top = top; path = []; rest = pins plain.now top }) }
    {
        let walk = Walk::new(alloc, plain, top)?;
        let holder = walk.way().module();
        Ok(PinWalk {
            walk,
            holder,
            ports: no_ports(holder),
            offset: 0,
        })
    }

    /// The way to the leaf of the last pin that came.
    pub fn way(&self) -> &Way<'a>
        ensures { result.now ≡ way_of_pins self.now }
    {
        self.walk.way()
    }

    /// The next pin: the inner net of its port, and its offset from the left. None at the end. After want of memory
    /// nothing is told of what is still to come.
    pub fn next(&mut self) -> Result<Option<(&'a PNet, u16)>, NoMemory>
        ensures plain { self.new.plain ≡ self.old.plain }
        ensures top { self.new.top ≡ self.old.top }
        ensures next { IfOk result (λ pin. MatchOption pin (self.old.rest ≡ [])
            (λ pin. IsNextPin self.old self.new pin.0.now pin.1)) }
    {
        loop {
            match self.ports.split_first() {
                None => {
                    if !self.walk.advance()? {
                        return Ok(None);
                    }
                    self.holder = self.walk.way().module();
                    self.ports = ports_inside(self.holder);
                    self.offset = 0;
                }
                Some((port, others)) => {
                    let net = net_of(self.holder, port.net).unwrap();
                    let offset = self.offset;
                    if offset + 1 < width(net.range) {
                        self.offset = offset + 1;
                        return Ok(Some((net, offset)));
                    }
                    self.ports = others;
                    self.offset = 0;
                    return Ok(Some((net, offset)));
                }
            }
        }
    }
}

/// The ports of a module whose bits are pins: none of one that is no leaf.
fn ports_inside(holder: &PModule) -> &[PPort]
    ensures { result.now ≡ ports_inside holder.now }
{
    if holder.leaf {
        holder.ports.as_slice()
    } else {
        no_ports(holder)
    }
}

fn no_ports(holder: &PModule) -> &[PPort]
    ensures { result.now ≡ [] }
{
    &holder.ports.as_slice()[..0]
}
