//! The wires of a controller.

use cpog_base::OpSet;

/// The word on the code's wires, whose bit `i` is wire `xI`, the go wire, and the operations that are acknowledged.
#[derive(Clone, Copy, Debug)]
pub struct Inputs {
    pub x: u8,
    pub go: bool,
    pub acks: OpSet,
}

/// The operations that are requested, and the wires that tell that all are done and that nothing goes on.
#[derive(Clone, Copy, Debug)]
pub struct Outputs {
    pub requests: OpSet,
    pub done: bool,
    pub idle: bool,
}
