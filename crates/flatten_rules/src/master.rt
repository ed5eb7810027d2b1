ghost use Rattle.std.specs.Prelude.{◌≡◌, ◌↔◌, ℕ, ◌<◌, ◌≤◌, length, IsTrue, All, AllPairs};
ghost use Rattle.emh_base.specs.declared.plain.PModule.{PModule};
ghost use Rattle.flatten_rules.specs.Lookup.{net_of, width_of};
ghost use Rattle.flatten_rules.specs.Sound.{HasMaster, FitPorts, FitsPort, IsSource, IsAllowed};
ghost use Rattle.flatten_rules.specs.Checks.{HasNets};

use crate::lookup::{module_of, width_of};
use emh_base::{Conn, NetId, PInst, PModule, PPort, Plain, Range, Src};

/// Whether the masters of a module's instances are there, with connections that fit their ports.
pub(crate) fn have_masters(plain: &Plain, holder: &PModule) -> bool
    requires rise { AllPairs (λ (a b : PModule). a.id.0 < b.id.0) plain.now.modules }
    requires nets { All HasNets plain.now.modules }
    requires own { HasNets holder.now }
    ensures { IsTrue result ↔ All (HasMaster plain.now holder.now) holder.now.insts }
{
    holder
        .insts
        .as_slice()
        .iter()
        .all(|inst| has_master(plain, holder, inst))
}

fn has_master(plain: &Plain, holder: &PModule, inst: &PInst) -> bool
    requires rise { AllPairs (λ (a b : PModule). a.id.0 < b.id.0) plain.now.modules }
    requires nets { All HasNets plain.now.modules }
    requires own { HasNets holder.now }
    ensures { IsTrue result ↔ HasMaster plain.now holder.now inst.now }
{
    match module_of(plain, inst.master) {
        Some(master) => fit_ports(holder, master, inst.conns.as_slice()),
        None => false,
    }
}

/// Whether there is a connection for each port of the master, in order, and each fits.
fn fit_ports(holder: &PModule, master: &PModule, conns: &[Conn]) -> bool
    requires own { HasNets holder.now }
    requires master { HasNets master.now }
    ensures { IsTrue result ↔ FitPorts holder.now master.now master.now.ports conns.now }
{
    let ports = master.ports.as_slice();
    if ports.len() != conns.len() {
        return false;
    }
    for (port, conn) in ports.iter().zip(conns) {
        if !fits_port(holder, master, port, conn) {
            return false;
        }
    }
    true
}

fn fits_port(holder: &PModule, master: &PModule, port: &PPort, conn: &Conn) -> bool
    requires own { HasNets holder.now }
    requires master { HasNets master.now }
    ensures { IsTrue result ↔ FitsPort holder.now master.now port.now conn.now }
{
    match conn {
        Conn::Open => true,
        Conn::Bits(bits) => {
            if bits.len() != usize::from(width_of(master, port.net)) {
                return false;
            }
            are_sources(holder, bits.as_slice())
        }
    }
}

fn are_sources(holder: &PModule, sources: &[Src]) -> bool
    requires { HasNets holder.now }
    ensures { IsTrue result ↔ All (IsSource holder.now) sources.now }
{
    sources.iter().all(|source| is_source(holder, source))
}

fn is_source(holder: &PModule, source: &Src) -> bool
    requires { HasNets holder.now }
    ensures { IsTrue result ↔ IsSource holder.now source.now }
{
    match source {
        Src::Tie0 => true,
        Src::Tie1 => true,
        Src::Bit(net, offset) => *offset < width_of(holder, *net),
    }
}
