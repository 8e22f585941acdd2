use forec_base::Labels;

/// A value change dump: the run of a program as a viewer sees it.
#[derive(Drop)]
pub struct Dump {
    /// The names of the outputs, in order of declaration.
    pub names: Labels,
    /// The values of the outputs in each tick, in the same order.
    pub ticks: Vec<Vec<i32>>,
    /// The last line of the report, without byte 10.
    pub ending: Vec<u8>,
}
