/// The most bytes that a file may have, be it a netlist or a script. This project's own limit.
pub const FILE_LIMIT: usize = 67_108_864;
