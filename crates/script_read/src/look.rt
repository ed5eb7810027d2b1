//! Look-ups of words in a design. Each refuses the line by the word's place where it names nothing.

ghost use Rattle.std.specs.Prelude.{◌≡◌, IsTrue, IfOk, IfSome, option_map, option_and_then};
ghost use Rattle.flatten_rules.specs.Sound.{IsSound};
ghost use Rattle.edit_rules.specs.Readers.{is_module};
ghost use Rattle.edit_rules.specs.Facts.{master};
ghost use Rattle.edit_rules.specs.Good.{IsGoodState};
ghost use Rattle.script_read.specs.Resolve.{Answers, a_module, a_net, a_path, a_pin, a_port, an_inst, at_word, path_named, step_named, pin_in, port_named, refused};

use edit_rules::{Facts, Judged};
use emh_base::{InstId, ModId, Name, NetId, NoMemory, Object, Path, Refusal, Rule};
use std::alloc::Global;

/// What the word at a place names, or a refusal by that word.
pub fn at_word<A>(rule: Rule, place: u32, found: Option<A>) -> Result<A, Judged>
    ensures { Answers (at_word rule place found) result }
{
    match found {
        None => Err(no_word(rule, place)),
        Some(found) => Ok(found),
    }
}

/// The refusal of a line by a word.
pub fn no_word(rule: Rule, place: u32) -> Judged
    ensures { result ≡ Judged.Rule (record { rule = rule; object = Object.Word place }) }
{
    Judged::Rule(Refusal {
        rule,
        object: Object::Word(place),
    })
}

/// A module, by the word at a place.
pub fn a_module<F: Facts>(facts: &F, place: u32, name: &Name) -> Result<ModId, Judged>
    requires { IsSound (F.state facts.now).plain }
    ensures answer { Answers (a_module (F.state facts.now) place name.now) result }
    ensures live { IfOk result (λ id. IsTrue (is_module (F.state facts.now).plain id)) }
{
    match facts.module_named(name.as_bytes()) {
        None => Err(no_word(Rule::NoSuchModule, place)),
        Some(id) => Ok(id),
    }
}

/// A net of a module.
pub fn a_net<F: Facts>(facts: &F, module: ModId, place: u32, name: &Name) -> Result<NetId, Judged>
    requires sound { IsSound (F.state facts.now).plain }
    requires live { IsTrue (is_module (F.state facts.now).plain «module») }
    ensures { Answers (a_net (F.state facts.now) «module» place name.now) result }
{
    at_word(
        Rule::NoSuchNet,
        place,
        facts.net_named(module, name.as_bytes()),
    )
}

/// An instance in a module.
pub fn an_inst<F: Facts>(
    facts: &F,
    module: ModId,
    place: u32,
    name: &Name,
) -> Result<InstId, Judged>
    requires sound { IsSound (F.state facts.now).plain }
    requires live { IsTrue (is_module (F.state facts.now).plain «module») }
    ensures { Answers (an_inst (F.state facts.now) «module» place name.now) result }
{
    at_word(
        Rule::NoSuchInst,
        place,
        facts.inst_named(module, name.as_bytes()),
    )
}

/// A port of a module.
pub fn a_port<F: Facts>(facts: &F, module: ModId, place: u32, name: &Name) -> Result<NetId, Judged>
    requires sound { IsSound (F.state facts.now).plain }
    requires live { IsTrue (is_module (F.state facts.now).plain «module») }
    ensures { Answers (a_port (F.state facts.now) «module» place name.now) result }
{
    at_word(Rule::NoSuchPort, place, port_named(facts, module, name))
}

/// The inner net of the port of that name.
fn port_named<F: Facts>(facts: &F, module: ModId, name: &Name) -> Option<NetId>
    requires sound { IsSound (F.state facts.now).plain }
    requires live { IsTrue (is_module (F.state facts.now).plain «module») }
    ensures { result ≡ port_named (F.state facts.now) «module» name.now }
{
    match facts.net_named(module, name.as_bytes()) {
        None => None,
        Some(net) => match facts.port_dir(module, net) {
            None => None,
            Some(_) => Some(net),
        },
    }
}

/// A port of an instance: the instance's master, and the port in it.
pub fn a_pin<F: Facts>(
    facts: &F,
    module: ModId,
    inst: InstId,
    place: u32,
    name: &Name,
) -> Result<(ModId, NetId), Judged>
    requires sound { IsSound (F.state facts.now).plain }
    requires live { IsTrue (is_module (F.state facts.now).plain «module») }
    ensures { Answers (a_pin (F.state facts.now) «module» inst place name.now) result }
{
    at_word(Rule::NoSuchPort, place, pin_of(facts, module, inst, name))
}

fn pin_of<F: Facts>(facts: &F, module: ModId, inst: InstId, name: &Name) -> Option<(ModId, NetId)>
    requires sound { IsSound (F.state facts.now).plain }
    requires live { IsTrue (is_module (F.state facts.now).plain «module») }
    ensures { result ≡ option_and_then (pin_in (F.state facts.now) name.now)
        (master (F.state facts.now) «module» inst) }
{
    match facts.master(module, inst) {
        None => None,
        Some(of) => match port_named(facts, of, name) {
            None => None,
            Some(port) => Some((of, port)),
        },
    }
}

/// An occurrence, by the names of the instances that lead to it from the top.
pub fn a_path<F: Facts>(
    alloc: Global,
    facts: &F,
    place: u32,
    names: &[Name],
) -> Result<Path, Judged>
    requires { IsGoodState (F.state facts.now) }
    ensures { Answers (a_path (F.state facts.now) place names.now) result }
{
    let found = path_named(alloc, facts, names)?;
    at_word(Rule::NoSuchOccurrence, place, found)
}

fn path_named<F: Facts>(alloc: Global, facts: &F, names: &[Name]) -> Result<Option<Path>, NoMemory>
    requires { IsGoodState (F.state facts.now) }
    ensures { IfOk result (λ path. path ≡ path_named (F.state facts.now) (F.state facts.now).top names.now) }
{
    let mut path = Path::new(alloc);
    let mut module = facts.top();
    for name in names {
        let Some((inst, below)) = step_of(facts, module, name) else {
            return Ok(None);
        };
        path.push(inst)?;
        module = below;
    }
    Ok(Some(path))
}

/// An instance in a module, and its master.
fn step_of<F: Facts>(facts: &F, module: ModId, name: &Name) -> Option<(InstId, ModId)>
    requires sound { IsSound (F.state facts.now).plain }
    requires live { IsTrue (is_module (F.state facts.now).plain «module») }
    ensures step { result ≡ step_named (F.state facts.now) «module» name.now }
    ensures live { IfSome result (λ step. IsTrue (is_module (F.state facts.now).plain step.1)) }
{
    match facts.inst_named(module, name.as_bytes()) {
        None => None,
        Some(inst) => match facts.master(module, inst) {
            None => None,
            Some(below) => Some((inst, below)),
        },
    }
}
