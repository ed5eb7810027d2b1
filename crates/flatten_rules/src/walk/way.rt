ghost use Rattle.std.specs.Prelude.{◌≡◌, ℕ, ◌<◌, ◌≤◌, ◌-◌, [], ◌∷◌, ◌++◌, length, take, reverse, slice_get, Some, option_map, IsSome, IsSomeAnd, IsTrue, IfSome, IfOk, OnOk, OnErr, ◌↔◌};
ghost use Rattle.emh_base.specs.Text.{spell, index_text, front_text, path_text, bit_text, pin_text};
ghost use Rattle.flatten_rules.specs.Lookup.{module_of};
ghost use Rattle.flatten_rules.specs.Unfolding.{module_up, inst_up};
ghost use Rattle.flatten_rules.specs.Root.{source_through, source_above, root_up, root_of_source, pin_root};
ghost use Rattle.flatten_rules.specs.Checks.{ArePortPlaces};
ghost use Rattle.flatten_rules.specs.Domains.{is_own};
ghost use Rattle.flatten_rules.specs.Texts.{names_up, root_text};
ghost use Rattle.flatten_rules.specs.Sound.{IsSound, IsSoundModule};
ghost use Rattle.flatten_rules.specs.Design.{IsGood};
ghost use Rattle.flatten_rules.specs.Way.{root_on, IsOn, names_to, with_path};

use crate::lookup::{module_of, net_of, place_of_module};
use crate::port::{all_port_places, port_place};
use emh_base::{
    Conn, InstId, List, ModId, Name, NetId, NoMemory, PInst, PModule, PNet, Path, Plain, Root, Src,
    push_index, push_spelled,
};
use std::alloc::Global;
use std::marker::Model;

/// What a net bit or a pin of the occurrence at the end of a way leads to: a constant, or the net bit furthest up that
/// it is connected to. Its occurrence is told by how many instances of the way lead to it.
#[derive(Clone, Copy, Debug, PartialEq, Eq)]
pub enum WayRoot {
    Tie0,
    Tie1,
    Own {
        depth: usize,
        net: NetId,
        offset: u16,
    },
}

impl WayRoot {
    ghost use Rattle.flatten_rules.specs.Way.{is_at};

    /// Whether it is the net bit of that net and offset in the occurrence that so many instances lead to.
    pub fn is_at(self, depth: usize, net: NetId, offset: u16) -> bool
        ensures { result ≡ is_at self depth net offset }
    {
        match self {
            WayRoot::Tie0 | WayRoot::Tie1 => false,
            WayRoot::Own {
                depth: above,
                net: own,
                offset: at,
            } => above == depth && own.0 == net.0 && at == offset,
        }
    }
}

/// An instance on the way, and what is looked up of it again and again.
#[derive(Clone, Copy)]
pub(crate) struct Step<'a> {
    pub inst: &'a PInst,
    pub master: &'a PModule,
    /// The place of the master in the table.
    pub place: usize,
    /// How long the front text of the occurrence that holds the instance is.
    pub front: usize,
}

/// The way down from the top of a table to an occurrence. It keeps the text that stands before the name of a net there,
/// and the modules on the way with the places of their ports, so that texts and roots are found without a search from
/// the top.
#[derive(Drop)]
pub struct Way<'a> {
    plain: &'a Plain,
    top: ModId,
    /// The module at the top.
    first: &'a PModule,
    /// For each module, by its place, the places of its ports by those of their nets.
    ports: Vec<Vec<Option<usize>>>,
    steps: Vec<Step<'a>>,
    /// The names on the way, a slash after each.
    front: List<u8>,
}

impl<'a> Model for Way<'a> {
    ghost use Rattle.flatten_rules.specs.Way.{WayTo};

    ghost Value = { WayTo };

    ghost use Rattle.flatten_rules.specs.inside.Steps.{way_to, LeadsDown};

    ghost view = { λ way. way_to way.plain.now way.top way.steps.items };

    ghost invariant = { λ way.
        LeadsDown way.plain.now way.top way.first.now way.ports.items way.steps.items way.front };
}

impl<'a> Way<'a> {
    /// The way to the top itself, which takes no step.
    pub fn new(alloc: Global, plain: &'a Plain, top: ModId) -> Result<Way<'a>, NoMemory>
        requires { IsGood plain.now top }
        ensures { IfOk result (λ way. way ≡ record { plain = plain.now; top = top; path = [] }) }
    {
        let ports = all_port_places(alloc, plain)?;
        match module_of(plain, top) {
            None => unreachable!(),
            Some(first) => Ok(Way {
                plain,
                top,
                first,
                ports,
                steps: Vec::new(alloc),
                front: List::new(alloc),
            }),
        }
    }

    /// The table.
    pub fn plain(&self) -> &'a Plain
        ensures table { result.now ≡ self.now.plain }
        ensures sound { IsSound self.now.plain }
    {
        self.plain
    }

    /// The module at the top, by its id.
    pub fn top(&self) -> ModId
        ensures { result ≡ self.now.top }
    {
        self.top
    }

    /// How many instances are on the way.
    pub fn depth(&self) -> usize
        ensures { result ≡ length self.now.path }
    {
        self.steps.len()
    }

    /// The module at the end of the way.
    pub fn module(&self) -> &'a PModule
        ensures there { module_up self.now.plain self.now.top (reverse self.now.path)
            ≡ Some result.now }
        ensures sound { IsSoundModule self.now.plain result.now }
    {
        self.module_at(self.depth())
    }

    /// The module that so many instances of the way lead to.
    fn module_at(&self, depth: usize) -> &'a PModule
        requires { depth ≤ length self.now.path }
        ensures there { module_up self.now.plain self.now.top (reverse (take depth self.now.path))
            ≡ Some result.now }
        ensures sound { IsSoundModule self.now.plain result.now }
    {
        if depth == 0 {
            self.first
        } else {
            self.steps[depth - 1].master
        }
    }

    /// The text that stands before the name of a net in the occurrence that so many instances of the way lead to.
    fn front_at(&self, depth: usize) -> &[u8]
        requires { depth ≤ length self.now.path }
        ensures { result.now ≡ front_text (names_up self.now.plain self.now.top (reverse (take depth self.now.path))) }
    {
        let front = self.front.as_slice();
        if depth < self.steps.len() {
            &front[..self.steps[depth].front]
        } else {
            front
        }
    }

    /// The source above of a net's bit in the occurrence that so many instances of the way lead to. None at the top.
    fn source_above(&self, depth: usize, net: NetId, offset: u16) -> Option<Src>
        requires { depth ≤ length self.now.path }
        ensures source { result ≡ source_above self.now.plain self.now.top
            (reverse (take depth self.now.path)) net offset }
        ensures below { IsSome result → 0 < depth }
    {
        if depth == 0 {
            return None;
        }
        let step = self.steps[depth - 1];
        let ports = self.ports[step.place].as_slice();
        source_through(step.inst, step.master, ports, net, offset)
    }

    /// What a net's bit leads to, in the occurrence that so many instances of the way lead to.
    #[cycle(root)]
    fn root_at(&self, depth: usize, net: NetId, offset: u16) -> WayRoot
        requires { depth ≤ length self.now.path }
        ensures root { root_on self.now.path result
            ≡ root_up self.now.plain self.now.top (reverse (take depth self.now.path)) net offset }
        ensures on { IsOn self.now.path result }
    {
        match self.source_above(depth, net, offset) {
            None => WayRoot::Own { depth, net, offset },
            Some(source) => self.root_of_source(depth - 1, source),
        }
    }

    /// What a source leads to, in the occurrence that so many instances of the way lead to.
    #[cycle(root)]
    fn root_of_source(&self, depth: usize, source: Src) -> WayRoot
        requires { depth ≤ length self.now.path }
        ensures root { root_on self.now.path result ≡ root_of_source
            (λ n k. root_up self.now.plain self.now.top (reverse (take depth self.now.path)) n k) source }
        ensures on { IsOn self.now.path result }
    {
        match source {
            Src::Tie0 => WayRoot::Tie0,
            Src::Tie1 => WayRoot::Tie1,
            Src::Bit(net, offset) => self.root_at(depth, net, offset),
        }
    }

    /// What a net's bit leads to in the occurrence at the end of the way. It takes no memory.
    pub fn root(&self, net: NetId, offset: u16) -> WayRoot
        ensures root { root_on self.now.path result
            ≡ root_up self.now.plain self.now.top (reverse self.now.path) net offset }
        ensures on { IsOn self.now.path result }
    {
        self.root_at(self.depth(), net, offset)
    }

    /// What a bit of a pin of the leaf at the end of the way leads to, none where it is open. It takes no memory.
    pub fn pin_root(&self, port: NetId, offset: u16) -> Option<WayRoot>
        ensures root { option_map (root_on self.now.path) result
            ≡ pin_root self.now.plain self.now.top (reverse self.now.path) port offset }
        ensures on { IfSome result (IsOn self.now.path) }
    {
        let depth = self.depth();
        match self.source_above(depth, port, offset) {
            None => None,
            Some(source) => Some(self.root_of_source(depth - 1, source)),
        }
    }

    /// Whether a net's bit of the occurrence at the end of the way leads no further up.
    pub fn is_own(&self, net: NetId, offset: u16) -> bool
        ensures { result ≡ is_own (record { path = self.now.path; net = net; offset = offset })
            (root_up self.now.plain self.now.top (reverse self.now.path) net offset) }
    {
        self.root(net, offset).is_at(self.depth(), net, offset)
    }

    /// Goes down to an instance of the module at the end of the way. After want of memory the way is as before.
    pub fn push(&mut self, inst: &'a PInst) -> Result<(), NoMemory>
        requires { inst_up self.old.plain self.old.top inst.now.id (reverse self.old.path)
            ≡ Some inst.now }
        ensures ok { OnOk result (self.new
            ≡ with_path self.old (self.old.path ++ inst.now.id ∷ [])) }
        ensures err { OnErr result (self.new ≡ self.old) }
    {
        let place = self.place_of_master(inst);
        self.steps.push(Step {
            inst,
            master: &self.plain.modules.as_slice()[place],
            place,
            front: self.front.len(),
        })?;
        match push_front(&mut self.front, &inst.name) {
            Ok(()) => Ok(()),
            Err(NoMemory) => {
                self.steps.pop();
                Err(NoMemory)
            }
        }
    }

    /// Goes back up, where the way isn't at the top.
    pub fn pop(&mut self)
        ensures { self.new ≡ with_path self.old (take (length self.old.path - 1) self.old.path) }
    {
        if let Some(step) = self.steps.pop() {
            self.front.truncate(step.front);
        }
    }

    /// Puts the text of the path to the end of the way last. After want of memory the text is as before.
    pub fn push_path(&self, out: &mut List<u8>) -> Result<(), NoMemory>
        ensures ok { OnOk result (out.new ≡ out.old ++ path_text (names_to self.now)) }
        ensures err { OnErr result (out.new ≡ out.old) }
    {
        match self.front.as_slice().split_last() {
            None => out.push(b'/'),
            Some((_slash, path)) => out.extend(path),
        }
    }

    /// Puts the text of a bit of a net of the occurrence at the end of the way last.
    pub fn push_net_bit(&self, net: &PNet, offset: u16, out: &mut List<u8>) -> Result<(), NoMemory>
        ensures ok { OnOk result (out.new ≡ out.old
            ++ bit_text (names_to self.now) net.now.name net.now.range offset) }
        ensures err { OnErr result (take (length out.old) out.new ≡ out.old) }
    {
        push_bit(self.front.as_slice(), net, offset, out)
    }

    /// Puts the text of a bit of a port of the occurrence at the end of the way last, by the port's inner net.
    pub fn push_pin(&self, net: &PNet, offset: u16, out: &mut List<u8>) -> Result<(), NoMemory>
        ensures ok { OnOk result (out.new ≡ out.old
            ++ pin_text (names_to self.now) net.now.name net.now.range offset) }
        ensures err { OnErr result (take (length out.old) out.new ≡ out.old) }
    {
        self.push_path(out)?;
        out.push(b'.')?;
        push_spelled(out, &net.name)?;
        push_index(out, net.range, offset)
    }

    /// Puts the text of what a pin leads to last.
    pub fn push_pin_root(&self, root: Option<WayRoot>, out: &mut List<u8>) -> Result<(), NoMemory>
        requires { IfSome root (IsOn self.now.path) }
        ensures ok { OnOk result (out.new ≡ out.old
            ++ root_text self.now.plain self.now.top (option_map (root_on self.now.path) root)) }
        ensures err { OnErr result (take (length out.old) out.new ≡ out.old) }
    {
        match root {
            None => out.extend(b"=open".as_slice()),
            Some(root) => self.push_root(root, out),
        }
    }

    /// Puts the text of what a net's bit leads to last.
    pub fn push_root(&self, root: WayRoot, out: &mut List<u8>) -> Result<(), NoMemory>
        requires { IsOn self.now.path root }
        ensures ok { OnOk result (out.new ≡ out.old
            ++ root_text self.now.plain self.now.top (Some (root_on self.now.path root))) }
        ensures err { OnErr result (take (length out.old) out.new ≡ out.old) }
    {
        match root {
            WayRoot::Tie0 => out.extend(b"=0".as_slice()),
            WayRoot::Tie1 => out.extend(b"=1".as_slice()),
            WayRoot::Own { depth, net, offset } => match net_of(self.module_at(depth), net) {
                None => Ok(()),
                Some(net) => push_bit(self.front_at(depth), net, offset, out),
            },
        }
    }

    /// The instances on the way.
    pub fn path(&self, alloc: Global) -> Result<Path, NoMemory>
        ensures { IfOk result (λ path. path ≡ self.now.path) }
    {
        self.path_to(alloc, self.depth())
    }

    /// The first so many instances of the way.
    fn path_to(&self, alloc: Global, depth: usize) -> Result<Path, NoMemory>
        requires { depth ≤ length self.now.path }
        ensures { IfOk result (λ path. path ≡ take depth self.now.path) }
    {
        let mut path = Path::new(alloc);
        for step in &self.steps[..depth] {
            path.push(step.inst.id)?;
        }
        Ok(path)
    }

    /// The root that is told.
    pub fn root_told(&self, alloc: Global, told: WayRoot) -> Result<Root, NoMemory>
        requires { IsOn self.now.path told }
        ensures { IfOk result (λ root. root ≡ root_on self.now.path told) }
    {
        match told {
            WayRoot::Tie0 => Ok(Root::Tie0),
            WayRoot::Tie1 => Ok(Root::Tie1),
            WayRoot::Own { depth, net, offset } => {
                Ok(Root::Own(self.path_to(alloc, depth)?, net, offset))
            }
        }
    }

    /// Whether the first so many instances on the way are that path.
    fn has_path_at(&self, depth: usize, path: &Path) -> bool
        requires { depth ≤ length self.now.path }
        ensures { IsTrue result ↔ (take depth self.now.path ≡ path.now) }
    {
        let steps = path.steps();
        if steps.len() != depth {
            return false;
        }
        for at in 0..depth {
            if self.steps[at].inst.id.0 != steps[at].0 {
                return false;
            }
        }
        true
    }

    /// Whether what a net's bit is told to lead to is that root. It takes no memory.
    pub fn is_root(&self, told: WayRoot, root: &Root) -> bool
        requires { IsOn self.now.path told }
        ensures { IsTrue result ↔ (root_on self.now.path told ≡ root.now) }
    {
        match told {
            WayRoot::Tie0 => matches!(root, Root::Tie0),
            WayRoot::Tie1 => matches!(root, Root::Tie1),
            WayRoot::Own { depth, net, offset } => match root {
                Root::Own(path, other, at) => {
                    net.0 == other.0 && offset == *at && self.has_path_at(depth, path)
                }
                Root::Tie0 | Root::Tie1 => false,
            },
        }
    }

    /// The place in the table of the master of an instance of the module at the end of the way.
    fn place_of_master(&self, inst: &PInst) -> usize
        requires { inst_up self.now.plain self.now.top inst.now.id (reverse self.now.path)
            ≡ Some inst.now }
        ensures { IsSomeAnd (slice_get self.now.plain.modules result)
            (λ m. module_of self.now.plain inst.now.master ≡ Some m) }
    {
        match place_of_module(self.plain, inst.master) {
            Some(place) => place,
            None => unreachable!(),
        }
    }
}

/// The source of a net's bit through an instance of its module.
fn source_through(
    inst: &PInst,
    master: &PModule,
    places: &[Option<usize>],
    net: NetId,
    offset: u16,
) -> Option<Src>
    requires sound { (M : _) × IsSoundModule M master.now }
    requires places { ArePortPlaces master.now places.now }
    ensures { result ≡ source_through inst.now master.now net offset }
{
    let place = port_place(master, places, net)?;
    match inst.conns.get(place)? {
        Conn::Open => None,
        Conn::Bits(bits) => bits.get(usize::from(offset)).copied(),
    }
}

/// Puts the name of an instance and a slash last. After want of memory the text is as before.
fn push_front(front: &mut List<u8>, name: &Name) -> Result<(), NoMemory>
    ensures ok { OnOk result (front.new ≡ (front.old ++ spell name.now) ++ 47 ∷ []) }
    ensures err { OnErr result (front.new ≡ front.old) }
{
    let before = front.len();
    push_spelled(front, name)?;
    let pushed = front.push(b'/');
    if pushed.is_err() {
        front.truncate(before);
    }
    pushed
}

/// Puts the text of a bit of a net last, behind the text that stands before its name.
fn push_bit(front: &[u8], net: &PNet, offset: u16, out: &mut List<u8>) -> Result<(), NoMemory>
    ensures ok { OnOk result (out.new ≡ out.old
        ++ (front.now ++ (spell net.now.name ++ index_text net.now.range offset))) }
    ensures err { OnErr result (take (length out.old) out.new ≡ out.old) }
{
    out.extend(front)?;
    push_spelled(out, &net.name)?;
    push_index(out, net.range, offset)
}
