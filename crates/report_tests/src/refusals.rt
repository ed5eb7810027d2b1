//! Reports whose words name nothing.
use crate::asks::{Ask, Told, desk_of, tells};
use Ask::{Net, Where};
use Told::Text;
use emh_base::{NoMemory, Object, Refusal, Rule};
use reports::ReportFault;
use samples::designs::Design;
use samples::modules::Module;
use samples::two_level::{BUF, INV, PAIR, TOP, TWO_LEVEL};

/// The worked example with two buses more at its top, one that falls and one that rises.
const BUSES: Design = Design {
    modules: &[
        INV,
        BUF,
        PAIR,
        Module {
            nets: &[
                (0, "i", None),
                (1, "o", None),
                (2, "w", None),
                (3, "down", Some((3, 0))),
                (4, "up", Some((2, 5))),
            ],
            next_net: 5,
            ..TOP
        },
    ],
    ..TWO_LEVEL
};

const NO_MODULE: Told = Told::Fault(ReportFault::Rule(Refusal {
    rule: Rule::NoSuchModule,
    object: Object::Word(2),
}));

const NO_OCCURRENCE: Told = Told::Fault(ReportFault::Rule(Refusal {
    rule: Rule::NoSuchOccurrence,
    object: Object::Word(2),
}));

const NO_NET: Told = Told::Fault(ReportFault::Rule(Refusal {
    rule: Rule::NoSuchNet,
    object: Object::Word(2),
}));

const OUT_OF_RANGE: Told = Told::Fault(ReportFault::Rule(Refusal {
    rule: Rule::BitOutOfRange,
    object: Object::Word(2),
}));

const WORDS: &[(Ask, Told)] = &[
    (Where("zz"), NO_MODULE),
    // the path comes first, and a leaf's nets aren't told
    (Net(&["x"], "zz", Some(9)), NO_OCCURRENCE),
    (Net(&["p", "x"], "a", None), NO_OCCURRENCE),
    (Net(&["p", "m"], "a", None), NO_OCCURRENCE),
    (Net(&["p", "u1"], "A", None), NO_OCCURRENCE),
    // then the net, which an instance isn't
    (Net(&[], "zz", Some(9)), NO_NET),
    (Net(&[], "p", None), NO_NET),
    (Net(&["p"], "w", None), NO_NET),
    // then the index
    (Net(&[], "w", Some(0)), OUT_OF_RANGE),
    (Net(&[], "down", None), OUT_OF_RANGE),
    (Net(&[], "down", Some(4)), OUT_OF_RANGE),
    (Net(&[], "up", Some(1)), OUT_OF_RANGE),
    (Net(&[], "up", Some(6)), OUT_OF_RANGE),
    (Net(&[], "up", Some(4294967295)), OUT_OF_RANGE),
    (
        Net(&[], "down", Some(3)),
        Text("root down[3]\nmember down[3]\n"),
    ),
    (
        Net(&[], "down", Some(0)),
        Text("root down[0]\nmember down[0]\n"),
    ),
    (Net(&[], "up", Some(2)), Text("root up[2]\nmember up[2]\n")),
    (Net(&[], "up", Some(5)), Text("root up[5]\nmember up[5]\n")),
];

#[test]
fn words_that_name_nothing(rt: HostRuntime) -> Result<(), NoMemory> {
    let alloc = rt.alloc();
    let desk = desk_of(&rt, alloc, &BUSES, "top")?;
    tells(&rt, alloc, &desk, WORDS)
}
