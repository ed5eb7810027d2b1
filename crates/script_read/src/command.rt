use emh_base::{Dir, Kind, List, Name, Orient, Range, Status};

/// What a word of `connect` names: a constant, or a net and which of its bits. One index stands for the range from it
/// to itself.
#[derive(Debug, Drop)]
pub enum BitWord {
    Zero,
    One,
    Net { net: Name, select: Option<Range> },
}

/// What a line of a script asks for.
#[derive(Debug, Drop)]
pub enum Command {
    Load {
        file: List<u8>,
        top: Name,
    },
    Cells {
        file: List<u8>,
    },
    Write {
        file: List<u8>,
    },
    Compare {
        file: List<u8>,
        top: Name,
    },
    Generate {
        seed: u32,
        modules: u32,
        width: u32,
    },
    Churn {
        seed: u32,
        turns: u32,
    },
    Undo,
    Redo,
    Observe {
        observer: Name,
    },
    Ignore {
        observer: Name,
    },
    Report(Kind),
    CreateModule {
        name: Name,
    },
    DeleteModule {
        module: Name,
    },
    CreateNet {
        module: Name,
        name: Name,
        range: Option<Range>,
    },
    DeleteNet {
        module: Name,
        net: Name,
    },
    CreatePort {
        module: Name,
        name: Name,
        dir: Dir,
        range: Option<Range>,
    },
    DeletePort {
        module: Name,
        port: Name,
    },
    CreateInst {
        module: Name,
        name: Name,
        master: Name,
    },
    DeleteInst {
        module: Name,
        inst: Name,
    },
    Connect {
        module: Name,
        inst: Name,
        port: Name,
        bits: List<BitWord>,
    },
    Disconnect {
        module: Name,
        inst: Name,
        port: Name,
    },
    RenameModule {
        module: Name,
        name: Name,
    },
    RenameNet {
        module: Name,
        net: Name,
        name: Name,
    },
    RenameInst {
        module: Name,
        inst: Name,
        name: Name,
    },
    Resize {
        module: Name,
        inst: Name,
        master: Name,
    },
    Uniquify {
        module: Name,
        inst: Name,
        name: Name,
    },
    Place {
        path: List<Name>,
        x: i32,
        y: i32,
        orient: Orient,
        status: Status,
    },
    Unplace {
        path: List<Name>,
    },
    Lock {
        module: Name,
    },
    Unlock {
        module: Name,
    },
    SetFanout {
        max: u32,
        cell: Name,
    },
    SetGrid {
        grid: u32,
    },
}
