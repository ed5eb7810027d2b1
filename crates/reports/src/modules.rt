ghost use Rattle.std.specs.Prelude.{◌≡◌, ◌<◌, [], ◌∷◌, ◌++◌, Some, length, take, All, AllPairs, is_some, OnOk, OnErr, codes, if◌then◌else◌};
ghost use Rattle.std.specs.Option.{option_copied};
ghost use Rattle.std.specs.List.{flat_map, filter, zip};
ghost use Rattle.emh_base.specs.declared.plain.PNet.{PNet};
ghost use Rattle.emh_base.specs.Text.{spell};
ghost use Rattle.flatten_rules.specs.Sound.{IsSound, IsSoundModule, HasMaster};
ghost use Rattle.flatten_rules.specs.Checks.{HasNets, HasPorts};
ghost use Rattle.reports.specs.Line.{line};
ghost use Rattle.reports.specs.Modules.{net_word, net_range, range_words, kind_word, source_word, source_words, port_line, wire_line, is_wire, conn_line, inst_lines, module_line, module_lines, modules_text};
ghost use Rattle.reports.specs.inside.Spaced.{spaced};

use emh_base::{
    Conn, List, NoMemory, PInst, PModule, PNet, PPort, Plain, Range, Src, push_index, push_number,
    push_spelled,
};
use flatten_rules::{module_of, net_of, port_places};
use std::alloc::Global;

/// Puts the report of modules last, the whole table by id: `module NAME` with `cell`, `open` or `locked`, then
/// `port NAME DIR` for its ports, `wire NAME` for its other nets, and `inst NAME MASTER`, behind each a line
/// `conn PORT` with its sources for each connection. A range stands last where there is one. After want of memory some
/// of it may stand there.
pub fn push_modules(alloc: Global, plain: &Plain, out: &mut List<u8>) -> Result<(), NoMemory>
    requires { IsSound plain.now }
    ensures ok { OnOk result (out.new ≡ out.old ++ modules_text plain.now) }
    ensures err { OnErr result (take (length out.old) out.new ≡ out.old) }
{
    for holder in plain.modules.as_slice() {
        push_module(alloc, plain, holder, out)?;
    }
    Ok(())
}

fn push_module(
    alloc: Global,
    plain: &Plain,
    holder: &PModule,
    out: &mut List<u8>,
) -> Result<(), NoMemory>
    requires sound { IsSound plain.now }
    requires holder { IsSoundModule plain.now holder.now }
    ensures ok { OnOk result (out.new ≡ out.old ++ module_lines plain.now holder.now) }
    ensures err { OnErr result (take (length out.old) out.new ≡ out.old) }
{
    push_module_line(holder, out)?;
    push_ports(holder, out)?;
    push_wires(alloc, holder, out)?;
    push_insts(plain, holder, out)
}

fn push_module_line(holder: &PModule, out: &mut List<u8>) -> Result<(), NoMemory>
    ensures ok { OnOk result (out.new ≡ out.old ++ module_line holder.now) }
    ensures err { OnErr result (take (length out.old) out.new ≡ out.old) }
{
    out.extend(b"module ")?;
    push_spelled(out, &holder.name)?;
    out.extend(kind_words(holder))
}

fn kind_words(holder: &PModule) -> &'static [u8]
    ensures { result.now ≡ 32 ∷ kind_word holder.now ++ codes "\n" }
{
    if holder.leaf {
        b" cell\n"
    } else if holder.locked {
        b" locked\n"
    } else {
        b" open\n"
    }
}

fn push_ports(holder: &PModule, out: &mut List<u8>) -> Result<(), NoMemory>
    requires { AllPairs (λ (a b : PNet). a.id.0 < b.id.0) holder.now.nets }
    ensures ok { OnOk result (out.new ≡ out.old ++ flat_map (port_line holder.now) holder.now.ports) }
    ensures err { OnErr result (take (length out.old) out.new ≡ out.old) }
{
    for port in holder.ports.as_slice() {
        push_port(holder, port, out)?;
    }
    Ok(())
}

#[tactic(auto, using(crate::proofs::Kept::kept_more))]
fn push_port(holder: &PModule, port: &PPort, out: &mut List<u8>) -> Result<(), NoMemory>
    requires { AllPairs (λ (a b : PNet). a.id.0 < b.id.0) holder.now.nets }
    ensures ok { OnOk result (out.new ≡ out.old ++ port_line holder.now port.now) }
    ensures err { OnErr result (take (length out.old) out.new ≡ out.old) }
{
    let net = net_of(holder, port.net);
    out.extend(b"port ")?;
    push_net_name(net, out)?;
    out.push(b' ')?;
    out.extend(port.dir.word())?;
    push_range(range_of(net), out)?;
    out.push(b'\n')
}

/// Puts the name of a net last, where it is there.
fn push_net_name(net: Option<&PNet>, out: &mut List<u8>) -> Result<(), NoMemory>
    ensures ok { OnOk result (out.new ≡ out.old ++ net_word (option_copied net.entry)) }
    ensures err { OnErr result (out.new ≡ out.old) }
{
    match net {
        None => Ok(()),
        Some(net) => push_spelled(out, &net.name),
    }
}

fn range_of(net: Option<&PNet>) -> Option<Range>
    ensures { result ≡ net_range (option_copied net.entry) }
{
    match net {
        None => None,
        Some(net) => net.range,
    }
}

/// Puts a range in brackets last, behind a space, where it is there.
#[tactic(auto, using(crate::proofs::Kept::kept_more))]
fn push_range(range: Option<Range>, out: &mut List<u8>) -> Result<(), NoMemory>
    ensures ok { OnOk result (out.new ≡ out.old ++ flat_map spaced (range_words range)) }
    ensures err { OnErr result (take (length out.old) out.new ≡ out.old) }
{
    match range {
        None => Ok(()),
        Some(range) => {
            out.extend(b" [")?;
            push_number(out, u64::from(range.left))?;
            out.push(b':')?;
            push_number(out, u64::from(range.right))?;
            out.push(b']')
        }
    }
}

/// Puts the lines of the nets that are no port's last.
fn push_wires(alloc: Global, holder: &PModule, out: &mut List<u8>) -> Result<(), NoMemory>
    requires nets { HasNets holder.now }
    requires ports { HasPorts holder.now }
    ensures ok { OnOk result (out.new ≡ out.old
        ++ flat_map wire_line (filter (is_wire holder.now) holder.now.nets)) }
    ensures err { OnErr result (take (length out.old) out.new ≡ out.old) }
{
    let Some(ports) = port_places(alloc, holder)? else {
        unreachable!()
    };
    let nets = holder.nets.as_slice();
    for at in 0..nets.len() {
        push_other_net(ports[at], &nets[at], out)?;
    }
    Ok(())
}

/// Puts the line of a net last, where it has no port at a place.
fn push_other_net(port: Option<usize>, net: &PNet, out: &mut List<u8>) -> Result<(), NoMemory>
    ensures ok { OnOk result (out.new ≡ out.old ++ (if is_some port then [] else wire_line net.now)) }
    ensures err { OnErr result (take (length out.old) out.new ≡ out.old) }
{
    match port {
        Some(_) => Ok(()),
        None => push_wire(net, out),
    }
}

#[tactic(auto, using(crate::proofs::Kept::kept_more))]
fn push_wire(net: &PNet, out: &mut List<u8>) -> Result<(), NoMemory>
    ensures ok { OnOk result (out.new ≡ out.old ++ wire_line net.now) }
    ensures err { OnErr result (take (length out.old) out.new ≡ out.old) }
{
    out.extend(b"wire ")?;
    push_spelled(out, &net.name)?;
    push_range(net.range, out)?;
    out.push(b'\n')
}

fn push_insts(plain: &Plain, holder: &PModule, out: &mut List<u8>) -> Result<(), NoMemory>
    requires sound { IsSound plain.now }
    requires holder { IsSoundModule plain.now holder.now }
    ensures ok { OnOk result (out.new ≡ out.old ++ flat_map (inst_lines plain.now holder.now) holder.now.insts) }
    ensures err { OnErr result (take (length out.old) out.new ≡ out.old) }
{
    for inst in holder.insts.as_slice() {
        push_inst(plain, holder, inst, out)?;
    }
    Ok(())
}

/// Puts the lines of an instance of a module and of its connections last.
fn push_inst(
    plain: &Plain,
    holder: &PModule,
    inst: &PInst,
    out: &mut List<u8>,
) -> Result<(), NoMemory>
    requires sound { IsSound plain.now }
    requires holder { IsSoundModule plain.now holder.now }
    requires master { HasMaster plain.now holder.now inst.now }
    ensures ok { OnOk result (out.new ≡ out.old ++ inst_lines plain.now holder.now inst.now) }
    ensures err { OnErr result (take (length out.old) out.new ≡ out.old) }
{
    match module_of(plain, inst.master) {
        None => unreachable!(),
        Some(master) => {
            push_inst_line(inst, master, out)?;
            push_conns(holder, inst, master, out)
        }
    }
}

#[tactic(auto, using(crate::proofs::Kept::kept_more))]
fn push_inst_line(inst: &PInst, master: &PModule, out: &mut List<u8>) -> Result<(), NoMemory>
    ensures ok { OnOk result (out.new ≡ out.old
        ++ line (codes "inst" ∷ spell inst.now.name ∷ spell master.now.name ∷ [])) }
    ensures err { OnErr result (take (length out.old) out.new ≡ out.old) }
{
    out.extend(b"inst ")?;
    push_spelled(out, &inst.name)?;
    out.push(b' ')?;
    push_spelled(out, &master.name)?;
    out.push(b'\n')
}

/// Puts the lines of the connections of an instance last, by the ports of its master.
fn push_conns(
    holder: &PModule,
    inst: &PInst,
    master: &PModule,
    out: &mut List<u8>,
) -> Result<(), NoMemory>
    requires nets { AllPairs (λ (a b : PNet). a.id.0 < b.id.0) holder.now.nets }
    requires ports { AllPairs (λ (a b : PNet). a.id.0 < b.id.0) master.now.nets }
    requires many { length inst.now.conns ≡ length master.now.ports }
    ensures ok { OnOk result (out.new ≡ out.old
        ++ flat_map (conn_line holder.now master.now) (zip master.now.ports inst.now.conns)) }
    ensures err { OnErr result (take (length out.old) out.new ≡ out.old) }
{
    let ports = master.ports.as_slice();
    let conns = inst.conns.as_slice();
    for at in 0..ports.len() {
        push_conn(holder, master, ports[at], &conns[at], out)?;
    }
    Ok(())
}

#[tactic(auto, using(crate::proofs::Kept::kept_more))]
fn push_conn(
    holder: &PModule,
    master: &PModule,
    port: PPort,
    conn: &Conn,
    out: &mut List<u8>,
) -> Result<(), NoMemory>
    requires nets { AllPairs (λ (a b : PNet). a.id.0 < b.id.0) holder.now.nets }
    requires ports { AllPairs (λ (a b : PNet). a.id.0 < b.id.0) master.now.nets }
    ensures ok { OnOk result (out.new ≡ out.old ++ conn_line holder.now master.now (port, conn.now)) }
    ensures err { OnErr result (take (length out.old) out.new ≡ out.old) }
{
    out.extend(b"conn ")?;
    push_net_name(net_of(master, port.net), out)?;
    push_sources(holder, conn, out)?;
    out.push(b'\n')
}

/// Puts the sources of a connection last, a space before each.
fn push_sources(holder: &PModule, conn: &Conn, out: &mut List<u8>) -> Result<(), NoMemory>
    requires { AllPairs (λ (a b : PNet). a.id.0 < b.id.0) holder.now.nets }
    ensures ok { OnOk result (out.new ≡ out.old ++ flat_map spaced (source_words holder.now conn.now)) }
    ensures err { OnErr result (take (length out.old) out.new ≡ out.old) }
{
    match conn {
        Conn::Open => out.extend(b" =open"),
        Conn::Bits(bits) => {
            for bit in bits.as_slice() {
                push_source(holder, *bit, out)?;
            }
            Ok(())
        }
    }
}

/// Puts the source of a bit last, behind a space.
#[tactic(auto, using(crate::proofs::Kept::kept_more))]
fn push_source(holder: &PModule, bit: Src, out: &mut List<u8>) -> Result<(), NoMemory>
    requires { AllPairs (λ (a b : PNet). a.id.0 < b.id.0) holder.now.nets }
    ensures ok { OnOk result (out.new ≡ out.old ++ spaced (source_word holder.now bit)) }
    ensures err { OnErr result (take (length out.old) out.new ≡ out.old) }
{
    match bit {
        Src::Tie0 => out.extend(b" =0"),
        Src::Tie1 => out.extend(b" =1"),
        Src::Bit(net, offset) => {
            out.push(b' ')?;
            match net_of(holder, net) {
                None => Ok(()),
                Some(net) => {
                    push_spelled(out, &net.name)?;
                    push_index(out, net.range, offset)
                }
            }
        }
    }
}
