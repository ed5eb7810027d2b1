ghost use Rattle.std.specs.Prelude.{◌≡◌, ◌↔◌, ℕ, ◌+◌, ◌-◌, ◌<◌, ◌≤◌, List, All, [], ◌∷◌, ◌++◌, length, position, slice_get, bytes_eq, is_some, option_map, option_copied, option_and_then, IsSome, IsTrue, OnOk, OnErr, IfOk, IsSomeAnd, true, false, drop, Some, None};
ghost use Rattle.timeline.specs.Timeline.{Moves, new_timeline};
ghost use Rattle.row_chains.specs.Pays.{Pays};
ghost use Rattle.emh_base.specs.Pool.{with_name, number_in};
ghost use Rattle.emh_base.specs.declared.plain.PInst.{PInst};
ghost use Rattle.emh_base.specs.declared.plain.PModule.{PModule};
ghost use Rattle.flatten_rules.specs.Lookup.{module_of, no_modules};
ghost use Rattle.flatten_rules.specs.Changes.{net_in, port_in, inst_in};
ghost use Rattle.flatten_rules.specs.InstChanges.{create_inst, delete_inst, rename_inst};
ghost use Rattle.flatten_rules.specs.ModuleChanges.{create_module, delete_module, rename_module, with_lock};
ghost use Rattle.flatten_rules.specs.NetChanges.{create_net, delete_net, create_port, delete_port, rename_net};
ghost use Rattle.undo_slots.specs.Slots.{Rows};
ghost use Rattle.row_chains.specs.declared.link.Ends.{Ends};
ghost use Rattle.mod_core.specs.declared.rows.ModRow.{ModRow};
ghost use Rattle.mod_core.specs.declared.rows.NetRow.{NetRow};
ghost use Rattle.mod_core.specs.declared.rows.InstFacts.{InstFacts};
ghost use Rattle.mod_core.specs.inside.Linked.{module_of_row, net_of_row, port_of_row};
ghost use Rattle.mod_core.specs.Mods.{name_at, is_used};

use crate::chains::{Insts, Modules, Nets, Ports};
use crate::insts::{inst_in, inst_out};
use crate::modules::{module_in, module_out};
use crate::nets::{net_in, net_out};
use crate::ports::{port_in, port_out};
use crate::rows::{InstFacts, InstRow, ModRow, NetRow, TopRow};
use emh_base::{Dir, InstId, ModId, Name, NetId, NoMemory, Pool, Range};
use row_chains::{Ends, find_under};
use std::alloc::Global;
use std::marker::Model;
use undo_slots::Table;

/// The module table as linked rows, and the names that they number. Changes are recorded, so that whole records are
/// undone and redone. A contract sees the names and the table with its past and future.
#[derive(Drop)]
pub struct Mods {
    names: Pool,
    top: usize,
    tops: Table<TopRow>,
    mods: Table<ModRow>,
    nets: Table<NetRow>,
    insts: Table<InstRow>,
}

impl Model for Mods {
    ghost use Rattle.mod_core.specs.Mods.{KeptTable};
    ghost use Rattle.mod_core.specs.inside.Kept.{kept_of, IsKept};

    ghost Value = { KeptTable };

    ghost view = { λ m. kept_of m.names m.top m.tops m.mods m.nets m.insts };

    ghost invariant = { λ m. IsKept m.names m.top m.tops m.mods m.nets m.insts };
}

impl Mods {
    /// A table without modules, and no names.
    pub fn new(alloc: Global) -> Result<Mods, NoMemory>
        ensures names { IfOk result (λ mods. mods.names ≡ []) }
        ensures table { IfOk result (λ mods. mods.table ≡ new_timeline no_modules) }
    {
        let mut tops = Table::new(alloc);
        if tops.reserve(1, 2).is_err() {
            return Err(NoMemory);
        }
        tops.begin();
        let top = tops.add(TopRow {
            modules: Ends {
                first: None,
                last: None,
            },
            next_module: 0,
        });
        tops.commit();
        tops.forget();
        Ok(Mods {
            names: Pool::new(alloc),
            top,
            tops,
            mods: Table::new(alloc),
            nets: Table::new(alloc),
            insts: Table::new(alloc),
        })
    }

    /// Makes room for so many new rows and so many writes in each of the tables, counting `begin` as a write.
    pub fn reserve(&mut self, rows: usize, writes: usize) -> Result<(), NoMemory>
        ensures ok { OnOk result ((rows ≤ self.new.table.spare_rows)
            × (writes ≤ self.new.table.spare_writes)) }
        ensures names { self.new.names ≡ self.old.names }
        ensures rest { self.new.table ≡ record self.old.table {
          spare_rows = self.new.table.spare_rows;
          spare_writes = self.new.table.spare_writes;
        } }
        ensures spare { (self.old.table.spare_rows ≤ self.new.table.spare_rows)
            × (self.old.table.spare_writes ≤ self.new.table.spare_writes) }
    {
        let tops = self.tops.reserve(rows, writes).is_ok();
        let mods = self.mods.reserve(rows, writes).is_ok();
        let nets = self.nets.reserve(rows, writes).is_ok();
        let insts = self.insts.reserve(rows, writes).is_ok();
        if tops && mods && nets && insts {
            Ok(())
        } else {
            Err(NoMemory)
        }
    }

    /// The number of a name. A name that is there keeps its number, a new one gets the next number. The table and what
    /// is remembered stay. After want of memory the names are as before.
    pub fn number(&mut self, name: Name) -> Result<usize, NoMemory>
        ensures number { IfOk result (λ number. number ≡ number_in self.old.names name) }
        ensures names { OnOk result (self.new.names ≡ with_name self.old.names name) }
        ensures err { OnErr result (self.new.names ≡ self.old.names) }
        ensures table { self.new.table ≡ self.old.table }
    {
        self.names.number(name)
    }

    /// The number of a name, or none where it isn't there. It takes no memory.
    pub fn find(&self, name: &[u8]) -> Option<usize>
        ensures { result ≡ position (bytes_eq name.now) self.now.names }
    {
        self.names.find(name)
    }

    /// The name of a number. It takes no memory.
    pub fn at(&self, number: usize) -> &Name
        requires { number < length self.now.names }
        ensures { slice_get self.now.names number ≡ Some result.now }
    {
        self.names.at(number)
    }

    /// Whether a module is there.
    pub fn is_module(&self, id: ModId) -> bool
        ensures { result ≡ is_some (module_of self.now.table.now id) }
    {
        self.module_row(id).is_some()
    }

    /// Whether a module is a leaf; none where it isn't there.
    pub fn is_leaf(&self, id: ModId) -> Option<bool>
        ensures { result ≡ option_map (λ m. m.leaf) (module_of self.now.table.now id) }
    {
        Some(self.module_row(id)?.leaf)
    }

    /// Whether a module is locked; none where it isn't there.
    pub fn is_locked(&self, id: ModId) -> Option<bool>
        ensures { result ≡ option_map (λ m. m.locked) (module_of self.now.table.now id) }
    {
        Some(self.module_row(id)?.locked)
    }

    /// Whether a module is there and has no nets, no ports and no instances.
    pub fn is_empty_module(&self, id: ModId) -> bool
        ensures { IsTrue result ↔ ((m : PModule) × ((module_of self.now.table.now id ≡ Some m)
            × ((m.nets ≡ []) × ((m.ports ≡ []) × (m.insts ≡ []))))) }
    {
        match find_under(&Modules, &self.mods, &self.tops, self.top, id.0) {
            Some(key) => {
                let row = self.mods.get(key).unwrap();
                row.is_bare()
            }
            None => false,
        }
    }

    /// Whether an instance of a module stands anywhere.
    pub fn is_used(&self, id: ModId) -> bool
        ensures { result ≡ is_used self.now.table.now id }
    {
        match find_under(&Modules, &self.mods, &self.tops, self.top, id.0) {
            Some(key) => {
                let row = self.mods.get(key).unwrap();
                row.users.first.is_some()
            }
            None => false,
        }
    }

    /// The name of a module; none where it isn't there.
    pub fn module_name(&self, id: ModId) -> Option<&Name>
        ensures { option_copied result
            ≡ option_map (λ m. m.name) (module_of self.now.table.now id) }
    {
        let row = self.module_row(id)?;
        Some(self.at(row.name))
    }

    /// The id that the next net of a module gets; none where the module isn't there.
    pub fn next_net(&self, id: ModId) -> Option<u32>
        ensures { result ≡ option_map (λ m. m.next_net) (module_of self.now.table.now id) }
    {
        Some(self.module_row(id)?.next_net)
    }

    /// The id that the next module gets.
    pub fn next_module(&self) -> u32
        ensures { result ≡ self.now.table.now.next_module }
    {
        self.tops.get(self.top).unwrap().next_module
    }

    /// The name of a net, which is that of the port on it; none where it isn't there.
    pub fn net_name(&self, module: ModId, net: NetId) -> Option<&Name>
        ensures { option_copied result
            ≡ option_map (λ there. there.name) (net_in self.now.table.now «module» net) }
    {
        let row = self.net_row(module, net)?;
        Some(self.at(row.name))
    }

    /// The range of a net, which has one bit where it has none; none where the net isn't there.
    pub fn net_range(&self, module: ModId, net: NetId) -> Option<Option<Range>>
        ensures { result ≡ option_map (λ there. there.range)
            (net_in self.now.table.now «module» net) }
    {
        Some(self.net_row(module, net)?.range)
    }

    /// The direction of a port, which is named by its inner net; none where it isn't there.
    pub fn port_dir(&self, module: ModId, port: NetId) -> Option<Dir>
        ensures { result ≡ option_map (λ there. there.dir)
            (port_in self.now.table.now «module» port) }
    {
        Some(self.port_row(module, port)?.port?.dir)
    }

    /// The id that the next instance in a module gets; none where the module isn't there.
    pub fn next_inst(&self, id: ModId) -> Option<u32>
        ensures { result ≡ option_map (λ m. m.next_inst) (module_of self.now.table.now id) }
    {
        Some(self.module_row(id)?.next_inst)
    }

    /// Whether an instance of a module is there.
    pub fn is_inst(&self, module: ModId, inst: InstId) -> bool
        ensures { result ≡ is_some (inst_in self.now.table.now «module» inst) }
    {
        self.inst_facts(module, inst).is_some()
    }

    /// The name of an instance; none where it isn't there.
    pub fn inst_name(&self, module: ModId, inst: InstId) -> Option<&Name>
        ensures { option_copied result
            ≡ option_map (λ there. there.name) (inst_in self.now.table.now «module» inst) }
    {
        let facts = self.inst_facts(module, inst)?;
        Some(self.at(facts.name))
    }

    /// The module that an instance is of; none where the instance isn't there.
    pub fn inst_master(&self, module: ModId, inst: InstId) -> Option<ModId>
        ensures { result
            ≡ option_map (λ there. there.master) (inst_in self.now.table.now «module» inst) }
    {
        Some(self.inst_facts(module, inst)?.master)
    }

    /// The row of a module.
    fn module_row(&self, id: ModId) -> Option<ModRow>
        ensures shown { (nets : Rows NetRow) × ((within : Ends → List PInst)
            × (module_of self.now.table.now id
            ≡ option_map (module_of_row self.now.names nets within) result)) }
        ensures named { (row : ModRow) → result ≡ Some row → row.name < length self.now.names }
    {
        let key = find_under(&Modules, &self.mods, &self.tops, self.top, id.0)?;
        self.mods.get(key)
    }

    /// The row of a net.
    fn net_row(&self, module: ModId, net: NetId) -> Option<NetRow>
        ensures shown { net_in self.now.table.now «module» net
            ≡ option_map (net_of_row self.now.names) result }
        ensures named { (row : NetRow) → result ≡ Some row → row.name < length self.now.names }
    {
        let owner = find_under(&Modules, &self.mods, &self.tops, self.top, module.0)?;
        let key = find_under(&Nets, &self.nets, &self.mods, owner, net.0)?;
        self.nets.get(key)
    }

    /// The row of a port's net.
    fn port_row(&self, module: ModId, port: NetId) -> Option<NetRow>
        ensures { port_in self.now.table.now «module» port
            ≡ option_and_then port_of_row result }
    {
        let owner = find_under(&Modules, &self.mods, &self.tops, self.top, module.0)?;
        let key = find_under(&Ports, &self.nets, &self.mods, owner, port.0)?;
        self.nets.get(key)
    }

    /// What is read of an instance.
    fn inst_facts(&self, module: ModId, inst: InstId) -> Option<InstFacts>
        ensures name { option_map (λ there. there.name) (inst_in self.now.table.now «module» inst)
            ≡ option_map (λ facts. name_at self.now.names facts.name) result }
        ensures master { option_map (λ there. there.master)
            (inst_in self.now.table.now «module» inst)
            ≡ option_map (λ facts. facts.master) result }
        ensures named { (facts : InstFacts) → result ≡ Some facts
            → facts.name < length self.now.names }
    {
        let owner = find_under(&Modules, &self.mods, &self.tops, self.top, module.0)?;
        let key = find_under(&Insts, &self.insts, &self.mods, owner, inst.0)?;
        let row = self.insts.get(key).unwrap();
        let master = self.mods.get(row.user.owner).unwrap();
        Some(InstFacts {
            name: row.name,
            master: master.id,
        })
    }

    /// Opens a record. Condition: none is open, and there is a spare write.
    pub fn begin(&mut self)
        requires closed { self.old.table.is_open ≡ false }
        requires spare { 1 ≤ self.old.table.spare_writes }
        ensures names { self.new.names ≡ self.old.names }
        ensures begun { self.new.table ≡ record self.old.table {
          is_open = true;
          base = self.old.table.now;
          writes = 0;
          spare_writes = self.old.table.spare_writes - 1;
        } }
    {
        self.tops.begin();
        self.mods.begin();
        self.nets.begin();
        self.insts.begin();
    }

    /// Closes the record, and remembers the table where it began. What was taken back is forgotten. Condition: a record
    /// is open.
    pub fn commit(&mut self)
        requires { self.old.table.is_open ≡ true }
        ensures names { self.new.names ≡ self.old.names }
        ensures committed { self.new.table ≡ record self.old.table {
          past = self.old.table.past ++
              record { value = self.old.table.base; writes = self.old.table.writes } ∷ [];
          future = [];
          is_open = false;
          base = self.old.table.now;
          writes = 0;
          spare_rows = self.new.table.spare_rows;
        } }
        ensures spare { self.old.table.spare_rows ≤ self.new.table.spare_rows }
    {
        self.tops.commit();
        self.mods.commit();
        self.nets.commit();
        self.insts.commit();
    }

    /// Goes back to where the record began, and closes it. Condition: a record is open.
    pub fn abandon(&mut self)
        requires { self.old.table.is_open ≡ true }
        ensures names { self.new.names ≡ self.old.names }
        ensures abandoned { self.new.table ≡ record self.old.table {
          now = self.old.table.base;
          is_open = false;
          writes = 0;
          spare_rows = self.new.table.spare_rows;
        } }
        ensures spare { self.old.table.spare_rows ≤ self.new.table.spare_rows }
    {
        self.tops.abandon();
        self.mods.abandon();
        self.nets.abandon();
        self.insts.abandon();
    }

    /// Goes back to the last remembered table. Condition: no record is open, and there is such a table.
    pub fn undo(&mut self)
        requires closed { self.old.table.is_open ≡ false }
        requires some { 0 < length self.old.table.past }
        ensures names { self.new.names ≡ self.old.names }
        ensures moves { Moves self.old.table.past self.old.table.future self.old.table.now
            self.new.table.past self.new.table.future self.new.table.now }
        ensures rest { self.new.table ≡ record self.old.table {
          now = self.new.table.now;
          past = self.new.table.past;
          future = self.new.table.future;
          base = self.new.table.now;
        } }
    {
        self.tops.undo();
        self.mods.undo();
        self.nets.undo();
        self.insts.undo();
    }

    /// Goes on to the table that was left last by an undo. Condition: no record is open, and there is such a table.
    pub fn redo(&mut self)
        requires closed { self.old.table.is_open ≡ false }
        requires some { 0 < length self.old.table.future }
        ensures names { self.new.names ≡ self.old.names }
        ensures moves { Moves self.old.table.future self.old.table.past self.old.table.now
            self.new.table.future self.new.table.past self.new.table.now }
        ensures rest { self.new.table ≡ record self.old.table {
          now = self.new.table.now;
          past = self.new.table.past;
          future = self.new.table.future;
          base = self.new.table.now;
        } }
    {
        self.tops.redo();
        self.mods.redo();
        self.nets.redo();
        self.insts.redo();
    }

    /// Forgets the oldest remembered table. Condition: no record is open, and there is such a table.
    pub fn forget(&mut self)
        requires closed { self.old.table.is_open ≡ false }
        requires some { 0 < length self.old.table.past }
        ensures names { self.new.names ≡ self.old.names }
        ensures forgotten { self.new.table ≡ record self.old.table {
          past = drop 1 self.old.table.past;
          spare_rows = self.new.table.spare_rows;
        } }
        ensures spare { self.old.table.spare_rows ≤ self.new.table.spare_rows }
    {
        self.tops.forget();
        self.mods.forget();
        self.nets.forget();
        self.insts.forget();
    }

    /// The number of remembered tables.
    pub fn past_len(&self) -> usize
        ensures { result ≡ length self.now.table.past }
    {
        self.nets.past_len()
    }

    /// The number of tables to redo.
    pub fn future_len(&self) -> usize
        ensures { result ≡ length self.now.table.future }
    {
        self.nets.future_len()
    }

    /// Puts a new module without content last. Its id is the counter's value. At most three writes. Condition: a record
    /// is open, there are spare rows and writes, the name is the pool's, and the counter has not come to its end.
    pub fn create_module(&mut self, name: usize)
        requires open { self.old.table.is_open ≡ true }
        requires room { 1 ≤ self.old.table.spare_rows }
        requires spare { 2 ≤ self.old.table.spare_writes }
        requires name { name < length self.old.names }
        requires few { self.old.table.now.next_module < 4294967295 }
        ensures names { self.new.names ≡ self.old.names }
        ensures table { self.new.table.now
            ≡ create_module self.old.table.now (name_at self.old.names name) }
        ensures pays { Pays 3 self.old.table self.new.table }
    {
        module_in(&mut self.tops, &mut self.mods, self.top, name);
    }

    /// Takes a module without content out of the table. At most four writes. Condition: a record is open, there are
    /// spare writes, and the module is there, with nothing in it, as `is_empty_module` tells, and without instances of
    /// it, as `is_used` tells.
    pub fn delete_module(&mut self, module: ModId)
        requires open { self.old.table.is_open ≡ true }
        requires spare { 3 ≤ self.old.table.spare_writes }
        requires live { IsSome (module_of self.old.table.now «module») }
        requires empty { (m : PModule) → module_of self.old.table.now «module» ≡ Some m
            → (m.nets ≡ []) × ((m.ports ≡ []) × (m.insts ≡ [])) }
        requires unused { is_used self.old.table.now «module» ≡ false }
        ensures names { self.new.names ≡ self.old.names }
        ensures table { self.new.table.now ≡ delete_module self.old.table.now «module» }
        ensures pays { Pays 4 self.old.table self.new.table }
    {
        let key = find_under(&Modules, &self.mods, &self.tops, self.top, module.0).unwrap();
        module_out(&mut self.tops, &mut self.mods, key);
    }

    /// Gives a module another name. At most one write. Condition: a record is open, there is a spare write, the name is
    /// the pool's, and the module is there.
    pub fn rename_module(&mut self, module: ModId, name: usize)
        requires open { self.old.table.is_open ≡ true }
        requires spare { 1 ≤ self.old.table.spare_writes }
        requires name { name < length self.old.names }
        requires live { IsSome (module_of self.old.table.now «module») }
        ensures names { self.new.names ≡ self.old.names }
        ensures table { self.new.table.now
            ≡ rename_module self.old.table.now «module» (name_at self.old.names name) }
        ensures pays { Pays 1 self.old.table self.new.table }
    {
        let key = find_under(&Modules, &self.mods, &self.tops, self.top, module.0).unwrap();
        let row = self.mods.get(key).unwrap();
        self.mods.set(key, ModRow { name, ..row });
    }

    /// Locks a module, or unlocks it. At most one write. Condition: a record is open, there is a spare write, and the
    /// module is there.
    pub fn with_lock(&mut self, module: ModId, locked: bool)
        requires open { self.old.table.is_open ≡ true }
        requires spare { 1 ≤ self.old.table.spare_writes }
        requires live { IsSome (module_of self.old.table.now «module») }
        ensures names { self.new.names ≡ self.old.names }
        ensures table { self.new.table.now ≡ with_lock self.old.table.now «module» locked }
        ensures pays { Pays 1 self.old.table self.new.table }
    {
        let key = find_under(&Modules, &self.mods, &self.tops, self.top, module.0).unwrap();
        let row = self.mods.get(key).unwrap();
        self.mods.set(key, ModRow { locked, ..row });
    }

    /// Puts a new net last in a module. Its id is the module's counter. At most three writes. Condition: a record is
    /// open, there are spare rows and writes, the name is the pool's, the module is there, and its counter has not come
    /// to its end.
    pub fn create_net(&mut self, module: ModId, name: usize, range: Option<Range>)
        requires open { self.old.table.is_open ≡ true }
        requires room { 1 ≤ self.old.table.spare_rows }
        requires spare { 2 ≤ self.old.table.spare_writes }
        requires name { name < length self.old.names }
        requires live { IsSome (module_of self.old.table.now «module») }
        requires few { (m : PModule) → module_of self.old.table.now «module» ≡ Some m
            → m.next_net < 4294967295 }
        ensures names { self.new.names ≡ self.old.names }
        ensures table { self.new.table.now
            ≡ create_net self.old.table.now «module» (name_at self.old.names name) range }
        ensures pays { Pays 3 self.old.table self.new.table }
    {
        let owner = find_under(&Modules, &self.mods, &self.tops, self.top, module.0).unwrap();
        let row = self.mods.get(owner).unwrap();
        let id = NetId(row.next_net);
        net_in(&mut self.mods, &mut self.nets, owner, id, name, range);
    }

    /// Takes a net that is no port out of its module. At most four writes. Condition: a record is open, there are spare
    /// writes, and the net is there.
    pub fn delete_net(&mut self, module: ModId, net: NetId)
        requires open { self.old.table.is_open ≡ true }
        requires spare { 3 ≤ self.old.table.spare_writes }
        requires live { IsSome (net_in self.old.table.now «module» net) }
        requires alone { port_in self.old.table.now «module» net ≡ None }
        ensures names { self.new.names ≡ self.old.names }
        ensures table { self.new.table.now ≡ delete_net self.old.table.now «module» net }
        ensures pays { Pays 4 self.old.table self.new.table }
    {
        let owner = find_under(&Modules, &self.mods, &self.tops, self.top, module.0).unwrap();
        let key = find_under(&Nets, &self.nets, &self.mods, owner, net.0).unwrap();
        net_out(&mut self.mods, &mut self.nets, key);
    }

    /// Gives a net another name, and the port on it. At most one write. Condition: a record is open, there is a spare
    /// write, the name is the pool's, and the net is there.
    pub fn rename_net(&mut self, module: ModId, net: NetId, name: usize)
        requires open { self.old.table.is_open ≡ true }
        requires spare { 1 ≤ self.old.table.spare_writes }
        requires name { name < length self.old.names }
        requires live { IsSome (net_in self.old.table.now «module» net) }
        ensures names { self.new.names ≡ self.old.names }
        ensures table { self.new.table.now
            ≡ rename_net self.old.table.now «module» net (name_at self.old.names name) }
        ensures pays { Pays 1 self.old.table self.new.table }
    {
        let owner = find_under(&Modules, &self.mods, &self.tops, self.top, module.0).unwrap();
        let key = find_under(&Nets, &self.nets, &self.mods, owner, net.0).unwrap();
        let row = self.nets.get(key).unwrap();
        self.nets.set(key, NetRow { name, ..row });
    }

    /// Puts a new net and a port on it last in a module. At most six writes. Condition: as for `create_net`.
    pub fn create_port(&mut self, module: ModId, name: usize, dir: Dir, range: Option<Range>)
        requires open { self.old.table.is_open ≡ true }
        requires room { 1 ≤ self.old.table.spare_rows }
        requires spare { 4 ≤ self.old.table.spare_writes }
        requires name { name < length self.old.names }
        requires live { IsSome (module_of self.old.table.now «module») }
        requires few { (m : PModule) → module_of self.old.table.now «module» ≡ Some m
            → m.next_net < 4294967295 }
        ensures names { self.new.names ≡ self.old.names }
        ensures table { self.new.table.now
            ≡ create_port self.old.table.now «module» (name_at self.old.names name) dir range }
        ensures pays { Pays 6 self.old.table self.new.table }
    {
        let owner = find_under(&Modules, &self.mods, &self.tops, self.top, module.0).unwrap();
        let row = self.mods.get(owner).unwrap();
        let id = NetId(row.next_net);
        let key = net_in(&mut self.mods, &mut self.nets, owner, id, name, range);
        port_in(&mut self.mods, &mut self.nets, owner, key, dir);
    }

    /// Takes a port and its net out of their module. At most eight writes. Condition: a record is open, there are spare
    /// writes, and the port is there.
    pub fn delete_port(&mut self, module: ModId, port: NetId)
        requires open { self.old.table.is_open ≡ true }
        requires spare { 6 ≤ self.old.table.spare_writes }
        requires live { IsSome (port_in self.old.table.now «module» port) }
        ensures names { self.new.names ≡ self.old.names }
        ensures table { self.new.table.now ≡ delete_port self.old.table.now «module» port }
        ensures pays { Pays 8 self.old.table self.new.table }
    {
        let owner = find_under(&Modules, &self.mods, &self.tops, self.top, module.0).unwrap();
        let key = find_under(&Ports, &self.nets, &self.mods, owner, port.0).unwrap();
        let net = self.nets.get(key).unwrap();
        let row = net.port.unwrap();
        port_out(&mut self.mods, &mut self.nets, key, net, row);
        net_out(&mut self.mods, &mut self.nets, key);
    }

    /// Puts a new instance of a module last in a module, with each of its ports open. Its id is the module's counter. At
    /// most five writes. Condition: a record is open, there are spare rows and writes, the name is the pool's, both
    /// modules are there, and the counter has not come to its end.
    pub fn create_inst(&mut self, module: ModId, name: usize, master: ModId)
        requires open { self.old.table.is_open ≡ true }
        requires room { 1 ≤ self.old.table.spare_rows }
        requires spare { 3 ≤ self.old.table.spare_writes }
        requires name { name < length self.old.names }
        requires live { IsSome (module_of self.old.table.now «module») }
        requires master { IsSome (module_of self.old.table.now master) }
        requires few { (m : PModule) → module_of self.old.table.now «module» ≡ Some m
            → m.next_inst < 4294967295 }
        ensures names { self.new.names ≡ self.old.names }
        ensures table { self.new.table.now
            ≡ create_inst self.old.table.now «module» (name_at self.old.names name) master }
        ensures pays { Pays 5 self.old.table self.new.table }
    {
        let owner = find_under(&Modules, &self.mods, &self.tops, self.top, module.0).unwrap();
        let user = find_under(&Modules, &self.mods, &self.tops, self.top, master.0).unwrap();
        let row = self.mods.get(owner).unwrap();
        let id = InstId(row.next_inst);
        inst_in(&mut self.mods, &mut self.insts, owner, user, id, name);
    }

    /// Takes an instance with its connections out of its module. At most seven writes. Condition: a record is open,
    /// there are spare writes, and the instance is there.
    pub fn delete_inst(&mut self, module: ModId, inst: InstId)
        requires open { self.old.table.is_open ≡ true }
        requires spare { 5 ≤ self.old.table.spare_writes }
        requires live { IsSome (inst_in self.old.table.now «module» inst) }
        ensures names { self.new.names ≡ self.old.names }
        ensures table { self.new.table.now ≡ delete_inst self.old.table.now «module» inst }
        ensures pays { Pays 7 self.old.table self.new.table }
    {
        let owner = find_under(&Modules, &self.mods, &self.tops, self.top, module.0).unwrap();
        let key = find_under(&Insts, &self.insts, &self.mods, owner, inst.0).unwrap();
        inst_out(&mut self.mods, &mut self.insts, key);
    }

    /// Gives an instance another name. At most one write. Condition: a record is open, there is a spare write, the name
    /// is the pool's, and the instance is there.
    pub fn rename_inst(&mut self, module: ModId, inst: InstId, name: usize)
        requires open { self.old.table.is_open ≡ true }
        requires spare { 1 ≤ self.old.table.spare_writes }
        requires name { name < length self.old.names }
        requires live { IsSome (inst_in self.old.table.now «module» inst) }
        ensures names { self.new.names ≡ self.old.names }
        ensures table { self.new.table.now
            ≡ rename_inst self.old.table.now «module» inst (name_at self.old.names name) }
        ensures pays { Pays 1 self.old.table self.new.table }
    {
        let owner = find_under(&Modules, &self.mods, &self.tops, self.top, module.0).unwrap();
        let key = find_under(&Insts, &self.insts, &self.mods, owner, inst.0).unwrap();
        let row = self.insts.get(key).unwrap();
        self.insts.set(key, InstRow { name, ..row });
    }
}
