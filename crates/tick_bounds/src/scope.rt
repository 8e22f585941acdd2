//! What a body is looked at with.

ghost use Rattle.std.specs.Prelude.{◌≡◌, IsTrue};
ghost use Rattle.forec_kernel.specs.Shapes.{plain_kernel};
ghost use Rattle.forec_kernel.specs.Texts as of;
ghost use Rattle.forec_kernel.specs.Combining as combining;
ghost use Rattle.forec_kernel.specs.WellFormed.{ascends};
ghost use Rattle.tick_bounds.specs.Capped.{at_table, known_at};

use forec_kernel::Kernel;

/// The variables that a body uses (none in an int function), and the bounds of what it names.
#[derive(Clone, Copy)]
pub struct Scope<'k> {
    pub kernel: &'k Kernel,
    pub uses: &'k [u32],
    /// By int function: None where it isn't known.
    pub functions: &'k [Option<u64>],
    /// By thread: 0 where it isn't known.
    pub threads: &'k [u64],
}

/// The bound of an int function, 0 where it isn't known.
pub fn function_bound(functions: &[Option<u64>], function: u32) -> u64
    ensures { result ≡ known_at functions.now function }
{
    match functions.get(function as usize) {
        None => 0,
        Some(known) => known.unwrap_or(0),
    }
}

/// The bound of a thread, 0 past the end.
pub fn thread_bound(threads: &[u64], thread: u32) -> u64
    ensures { result ≡ at_table threads.now thread }
{
    match threads.get(thread as usize) {
        None => 0,
        Some(known) => *known,
    }
}

/// The variables of which a thread has a copy, ascending; none for a number past the last thread.
pub fn uses_of(kernel: &Kernel, thread: usize) -> &[u32]
    ensures same { result.now ≡ of.uses_of (plain_kernel kernel.now) thread }
    ensures ascends { IsTrue (ascends result.now) }
{
    match kernel.shape().threads.get(thread) {
        None => &[],
        Some(shape) => shape.uses.as_slice(),
    }
}

/// The combine function of a variable.
pub fn combine_of(kernel: &Kernel, variable: u32) -> Option<u32>
    ensures { result ≡ (combining.variable_of (plain_kernel kernel.now) variable).combine }
{
    match kernel.shape().variables.get(variable as usize) {
        None => None,
        Some(known) => known.combine,
    }
}

/// Whether an ascending list of variables has one.
pub fn is_among(uses: &[u32], variable: u32) -> bool
    requires { IsTrue (ascends uses.now) }
    ensures { result ≡ combining.contains variable uses.now }
{
    uses.binary_search(&variable).is_ok()
}
