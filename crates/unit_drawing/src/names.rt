//! The names of nodes (IF1 manual M-170, simple and compound nodes).

/// The opcodes with their names.
const NAMES: [(u32, &[u8]); 54] = [
    (0, b"ForAll"),
    (1, b"Select"),
    (2, b"TagCase"),
    (3, b"LoopA"),
    (4, b"LoopB"),
    (100, b"AAddH"),
    (101, b"AAddL"),
    (102, b"AAdjust"),
    (103, b"ABuild"),
    (104, b"ACatenate"),
    (105, b"AElement"),
    (106, b"AFill"),
    (107, b"AGather"),
    (108, b"AIsEmpty"),
    (109, b"ALimH"),
    (110, b"ALimL"),
    (111, b"ARemH"),
    (112, b"ARemL"),
    (113, b"AReplace"),
    (114, b"AScatter"),
    (115, b"ASetL"),
    (116, b"ASize"),
    (117, b"Abs"),
    (119, b"Bool"),
    (120, b"Call"),
    (121, b"Char"),
    (122, b"Div"),
    (124, b"Equal"),
    (126, b"FirstValue"),
    (127, b"FinalValue"),
    (129, b"Int"),
    (130, b"IsError"),
    (131, b"Less"),
    (132, b"LessEqual"),
    (133, b"Max"),
    (134, b"Min"),
    (135, b"Minus"),
    (136, b"Mod"),
    (137, b"Neg"),
    (138, b"NoOp"),
    (139, b"Not"),
    (140, b"NotEqual"),
    (141, b"Plus"),
    (142, b"RangeGenerate"),
    (143, b"RBuild"),
    (144, b"RElements"),
    (145, b"RReplace"),
    (146, b"RedLeft"),
    (147, b"RedRight"),
    (148, b"RedTree"),
    (149, b"Reduce"),
    (150, b"RestValues"),
    (152, b"Times"),
    (155, b"Error"),
];

fn name_in(table: &'static [(u32, &'static [u8])], op: u32) -> &'static [u8] {
    for (code, name) in table {
        if *code == op {
            return name;
        }
    }
    b"?"
}

/// The name of the node of an opcode, `?` where there is none.
pub fn name_of(op: u32) -> &'static [u8] {
    name_in(&NAMES, op)
}
