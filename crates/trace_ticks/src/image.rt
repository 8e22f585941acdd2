//! The process image.

ghost use Rattle.std.specs.Prelude.{◌≡◌, length, replicate, pos, IfOk};

use forec_base::OutOfMemory;
use std::alloc::Global;

/// The process image: the values of the inputs in the next tick, and those of the outputs after the last one, each in
/// order of declaration.
#[derive(Drop)]
pub struct Image {
    pub inputs: Vec<i32>,
    pub outputs: Vec<i32>,
}

impl Image {
    /// So many inputs and outputs, all 0.
    pub fn new(alloc: Global, inputs: usize, outputs: usize) -> Result<Image, OutOfMemory>
        ensures inputs { IfOk result (λ i. i.inputs.items ≡ replicate inputs (pos 0)) }
        ensures outputs { IfOk result (λ i. length i.outputs.items ≡ outputs) }
    {
        let inputs = vec![in alloc; 0i32; inputs]?;
        let outputs = vec![in alloc; 0i32; outputs]?;
        Ok(Image { inputs, outputs })
    }
}
