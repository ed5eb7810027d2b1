ghost use Rattle.std.specs.Prelude.{◌≡◌};

use crate::ids::{InstId, ModId, NetId};

/// A rule that an edit may break. Each has a code, which a refused line prints with its name.
#[derive(Clone, Copy, Debug, PartialEq, Eq)]
pub enum Rule {
    /// The module isn't there.
    NoSuchModule,
    /// The net isn't there.
    NoSuchNet,
    /// The instance isn't there.
    NoSuchInst,
    /// The net isn't there, or is no port.
    NoSuchPort,
    /// A module has the name, or a net or an instance of the module has it, the one that is renamed included.
    NameTaken,
    /// A source in the module names the net.
    NetInUse,
    /// An instance has the module as its master.
    ModuleInUse,
    /// The module is the design's top.
    IsTop,
    /// The module is a leaf.
    IsCell,
    /// The module is the master, or can be reached from it by a walk down its instances.
    Recursive,
    /// There are more or fewer bits than the port has.
    WidthMismatch,
    /// The offset isn't below the net's width.
    BitOutOfRange,
    /// An index is above 65,535, or the width above 4,096.
    RangeTooWide,
    /// The net is a port's.
    NetIsPort,
    /// An instance of the module has a connection there that isn't open.
    PortInUse,
    /// After the edit there would be more than 1,000,000 occurrences.
    TooManyOccurrences,
    /// The path isn't in the unfolding.
    NoSuchOccurrence,
    /// The module at that place isn't a leaf.
    NotLeaf,
    /// The ports of the two masters, taken in order, differ in number, name, direction or range.
    PortsDiffer,
    /// The present placement is fixed.
    IsFixed,
    /// The connection is open.
    AlreadyOpen,
    /// The master has one instance only.
    NotShared,
    /// The module is locked.
    Locked,
    /// The cell isn't a leaf of exactly two ports of one bit each, an input and an output.
    BadBuffer,
    /// A fan-out is below 2 or above 1,000,000, or a grid is 0 or above 1,000,000.
    BadNumber,
    /// Some walk down the instances of the table would have more than 256.
    TooDeep,
    /// After the edit there would be more than 4,000,000 net bits of occurrences.
    TooManyBits,
    /// The counter that is needed has come to its end, 4,294,967,295.
    TooManyObjects,
    /// There is no placement.
    NotPlaced,
    /// The lock is so already.
    SameLock,
}

impl Rule {
    ghost use Rattle.emh_base.specs.Rule.{rule_code};

    /// The number by which a rule is told in print. 6, 27 and 28 are no rule's.
    pub fn code(self) -> u32
        ensures { result ≡ rule_code self }
    {
        match self {
            Rule::NoSuchModule => 1,
            Rule::NoSuchNet => 2,
            Rule::NoSuchInst => 3,
            Rule::NoSuchPort => 4,
            Rule::NameTaken => 5,
            Rule::NetInUse => 7,
            Rule::ModuleInUse => 8,
            Rule::IsTop => 9,
            Rule::IsCell => 10,
            Rule::Recursive => 11,
            Rule::WidthMismatch => 12,
            Rule::BitOutOfRange => 13,
            Rule::RangeTooWide => 14,
            Rule::NetIsPort => 15,
            Rule::PortInUse => 16,
            Rule::TooManyOccurrences => 17,
            Rule::NoSuchOccurrence => 18,
            Rule::NotLeaf => 19,
            Rule::PortsDiffer => 20,
            Rule::IsFixed => 21,
            Rule::AlreadyOpen => 22,
            Rule::NotShared => 23,
            Rule::Locked => 24,
            Rule::BadBuffer => 25,
            Rule::BadNumber => 26,
            Rule::TooDeep => 29,
            Rule::TooManyBits => 30,
            Rule::TooManyObjects => 31,
            Rule::NotPlaced => 32,
            Rule::SameLock => 33,
        }
    }
}

/// What a refusal is about.
#[derive(Clone, Copy, Debug, PartialEq, Eq)]
pub enum Object {
    Module(ModId),
    /// A net of a module.
    Net(ModId, NetId),
    /// An instance in a module.
    Inst(ModId, InstId),
    /// A port of a module.
    Port(ModId, NetId),
    /// The edit's new name.
    NewName,
    /// The edit's path.
    Spot,
    /// The edit's number.
    Number,
    /// The word at this place of the script's line, counted from 0.
    Word(u32),
}

/// Why an edit isn't done: the first rule that it breaks, and on what.
#[derive(Clone, Copy, Debug, PartialEq, Eq)]
pub struct Refusal {
    pub rule: Rule,
    pub object: Object,
}
